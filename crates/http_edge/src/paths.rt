ghost use Rattle.std.specs.Prelude.{◌≡◌, ◌≢◌, IfSome, IfNone};
ghost use Rattle.sb_outside.specs.declared.links.Kind.{Kind};
ghost use Rattle.http_edge.specs.Exchanges.{path_of_kind};

use sb_outside::Kind;

/// The path of the requests of a kind.
pub fn path_of(kind: Kind) -> &'static str
    ensures { result.now ≡ path_of_kind kind }
{
    match kind {
        Kind::Update => "/v4/threatListUpdates:fetch",
        Kind::Find => "/v4/fullHashes:find",
    }
}

/// The kind of the requests with a path. `None` comes exactly where no kind has it.
pub fn kind_of(path: &[u8]) -> Option<Kind>
    ensures some { IfSome result (λ kind. path.now ≡ path_of_kind kind) }
    ensures none { IfNone result ((kind : Kind) → path.now ≢ path_of_kind kind) }
{
    if path == path_of(Kind::Update).as_bytes() {
        Some(Kind::Update)
    } else if path == path_of(Kind::Find).as_bytes() {
        Some(Kind::Find)
    } else {
        None
    }
}
