ghost use Rattle.std.specs.Prelude.{ℕ, List};
ghost use Rattle.http_edge.specs.declared.messages.HttpRequest.{HttpRequest};
ghost use Rattle.sb_outside.specs.declared.doors.Connection.{Connection};
ghost use Rattle.http_serving.specs.Kept.{FindsByBody, FindsByMeaning, StaysAsked, StaysKept};
ghost use Rattle.http_serving.specs.declared.kept.KeptAnswer.{KeptAnswer};
ghost use Rattle.http_serving.specs.Law.{AsksForOneThing, HasOneAnswer, IsAnsweredAsRead};
ghost use Rattle.http_serving.specs.OpenEntries.{ClosesOne, OpensOne, SaysAll};
ghost use Rattle.http_serving.specs.Routes.{Route, RoutedAnswer};

use crate::kept::Meaning;
use crate::serving::Answers;

/// A request has one answer, by a table of routes whose routes have one each.
pub fn requests_have_one_answer<A: Answers>()
    ensures { (before after : A) (request : HttpRequest) → HasOneAnswer (RoutedAnswer A.routes (A.right before after)) request }
{
    A::have_one_answer();
}

/// A request that asks for a route of a table asks for no other, is taken by it, and has its path.
pub fn requests_ask_for_one_thing()
    ensures { (routes : List Route) (request : HttpRequest) → AsksForOneThing routes request }
{}

/// Bytes that begin with a whole request are answered as that request is, and never as a refusal.
pub fn answers_follow_requests<A: Answers>()
    ensures { (before after : A) (bytes : List ℕ) (request : HttpRequest)
        → IsAnsweredAsRead (RoutedAnswer A.routes (A.right before after)) bytes request }
{}

/// What a run wants its door's log to say of each connection that was given back, by the number of the connection.
pub trait SaysOfEntries {
    ghost says: { Self → ℕ → Connection → Type 0 };
}

/// The law of connections that are put off, from any log of a door: one that is taken has an open entry, one that is given back says
/// in its entry what it is to say, in whichever order they go back, and where none is open each entry says it.
pub fn open_entries_are_closed<S: SaysOfEntries>()
    ensures opens { (run : S) → OpensOne (S.says run) }
    ensures closes { (run : S) → ClosesOne (S.says run) }
    ensures all { (run : S) → SaysAll (S.says run) }
{}

/// A server that keeps answers.
pub trait KeepsAnswers {
    type Meaning: Meaning;

    // what a kept answer is to be of a server that is so
    ghost is_right: { Self → KeptAnswer Self.Meaning → Type 0 };
}

/// The law of kept answers: what is found by a body or by a meaning is a right answer with that body or that meaning, and what is kept
/// stays right when it was asked for again, when one more right answer came, and when all are let go.
pub fn kept_answers_stay_right<S: KeepsAnswers>()
    ensures by_body { (server : S) → FindsByBody (S.is_right server) }
    ensures by_meaning { (server : S) → FindsByMeaning S.Meaning.same S.Meaning.first (S.is_right server) }
    ensures asked { (server : S) → StaysAsked S.Meaning.same S.Meaning.first (S.is_right server) }
    ensures kept { (server : S) → StaysKept S.Meaning.first (S.is_right server) }
{}
