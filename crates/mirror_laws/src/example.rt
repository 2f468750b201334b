ghost use Rattle.std.specs.Prelude.{◌≡◌, ℕ, [], ◌∷◌, map, Option};
ghost use Rattle.sb_model.specs.Naming.{IsNaming};
ghost use Rattle.timed_sessions.specs.Timed.{TimedSession};
ghost use Rattle.update_client.specs.Held.{AreHeldLists};
ghost use Rattle.sb_round.specs.Rounds.{round_updates};
ghost use Rattle.sb_round.specs.Run.{lists_after};
ghost use Rattle.mirror_laws.specs.Chains.{CameThrough, IsChain, IsServersBy, LeadsUp};
ghost use Rattle.mirror_laws.specs.Mirrors.{AreMirrorRounds, AreOfMirror, HoldsOfMirror, IsMirrorHistory, mirror_after};
ghost use Rattle.mirror_laws.specs.Example.{chain_history, chain_naming, chain_of_two, first_mirror, held_beside_server, held_by_client, nothing_yet, rounds_below, second_mirror};

use crate::{chains_lead_to_the_server, rounds_follow_mirrors, rounds_make_chains};
use delta_server::tokens_name_versions;
use update_client::updates_lead_to_their_sets;

/// The premises of the law of chains can be met: by a list server with one list and one change, two mirrors in a row below it, and a client of
/// the second. What the client holds leads up to what the mirror beside the server held, and so is the server's at the version of its token.
pub fn premises_of_a_chain_are_met()
    ensures naming { IsNaming chain_history chain_naming }
    ensures chain { IsChain chain_history chain_naming chain_of_two }
    ensures came { CameThrough chain_history chain_naming chain_of_two (held_by_client ∷ []) }
    ensures leads { LeadsUp chain_of_two held_by_client held_beside_server }

    // by the law
    ensures server { IsServersBy chain_history chain_naming held_by_client held_beside_server }
{
    tokens_name_versions();
    chains_lead_to_the_server();
}

/// The premises of the laws of rounds can be met, by rounds of which the first is lost and the second brings what the mirror answers. From
/// nothing the second mirror comes by them to the places that it has in the chain, and the client to the list that it holds.
pub fn premises_of_rounds_are_met()
    ensures first { IsMirrorHistory first_mirror }
    ensures second { IsMirrorHistory second_mirror }
    ensures client { AreHeldLists nothing_yet }
    ensures begins { AreOfMirror first_mirror nothing_yet }
    ensures rounds { (session : TimedSession) (word : Option ℕ) → AreMirrorRounds first_mirror nothing_yet (rounds_below first_mirror session word) }
    ensures places { (session : TimedSession) (word : Option ℕ) → mirror_after 3 nothing_yet (rounds_below first_mirror session word) ≡ second_mirror }
    ensures after { (session : TimedSession) (word : Option ℕ)
        → lists_after nothing_yet (map round_updates (rounds_below second_mirror session word)) ≡ held_by_client ∷ [] }

    // by the laws
    ensures chain { (session : TimedSession) (word : Option ℕ)
        → IsChain chain_history chain_naming (mirror_after 3 nothing_yet (rounds_below first_mirror session word) ∷ first_mirror ∷ []) }
    ensures follows { (session : TimedSession) (word : Option ℕ)
        → HoldsOfMirror second_mirror nothing_yet (rounds_below second_mirror session word) }
{
    updates_lead_to_their_sets();
    rounds_follow_mirrors();
    rounds_make_chains();
}
