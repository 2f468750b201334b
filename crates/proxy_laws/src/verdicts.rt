ghost use Rattle.proxy_laws.specs.Told.{ProxyRunsHold, ProxyVerdictsHold};

use crate::answers::answers_go_back_to_lists;
use client_laws::{looks_and_answers_are_steps, shared_verdicts_are_lookups};
use sb_round::replicas_stay;

/// The law of one verdict of a proxy, on the hits of a URL on those of some replicas whose types are asked. If the answers that decided it are
/// faithful to these lists, what it says is so, and it is that of a look-up of each expression's hash in the full lists if no hit was left open.
pub fn proxy_verdicts_hold()
    ensures { ProxyVerdictsHold }
{
    shared_verdicts_are_lookups();
    looks_and_answers_are_steps();
}

/// The law of a whole run of a proxy that came to its end, if the lists of its store are replicas of a server's: each look-up that is answered is
/// answered rightly by the lists that the proxy held when its connection was taken, if the rounds until then met an honest server.
pub fn proxy_runs_hold()
    ensures { ProxyRunsHold }
{
    answers_go_back_to_lists();
    proxy_verdicts_hold();
    replicas_stay();
}
