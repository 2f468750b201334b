ghost use Rattle.std.specs.Prelude.{ℕ, List, Bool};
ghost use Rattle.sb_outside.specs.declared.links.Session.{Session};
ghost use Rattle.http_edge.specs.Law.{HasOneBody, SessionHasOneBody, PassesAsWritten};

/// The law of every session: whether what was received passes, and with which body, is unique. Of two refusals either
/// may be right.
pub fn one_body()
    ensures bytes { (need : Bool) (bytes : List ℕ) (ended : Bool) → HasOneBody need bytes ended }
    ensures session { (need : Bool) (session : Session) → SessionHasOneBody need session }
{}

/// The law of the two ends: what `write_response` writes of the status 200 and a body that is not too long passes with
/// that body, whatever bytes follow.
pub fn passes()
    ensures { (body : List ℕ) → PassesAsWritten body }
{}
