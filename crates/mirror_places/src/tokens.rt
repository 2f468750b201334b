ghost use Rattle.std.specs.Prelude.{◌≡◌};
ghost use Rattle.mirror_places.specs.Tokens.{mirror_token};

use sb_model::ListName;

/// The state token of a place of a list: the byte 2, the epoch and the place in 8 bytes each, the highest byte first, and the codes of the
/// list's three types.
#[tactic(auto, unfolding(crate::specs::Tokens::mirror_token))]
pub fn mirror_token(epoch: u64, list: ListName, place: u64) -> [u8; 20]
    ensures { result ≡ mirror_token epoch list place }
{
    let e = epoch.to_be_bytes();
    let p = place.to_be_bytes();
    [
        2,
        e[0],
        e[1],
        e[2],
        e[3],
        e[4],
        e[5],
        e[6],
        e[7],
        p[0],
        p[1],
        p[2],
        p[3],
        p[4],
        p[5],
        p[6],
        p[7],
        list.threat.code(),
        list.platform.code(),
        list.entry.code(),
    ]
}
