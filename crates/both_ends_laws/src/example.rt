ghost use Rattle.std.specs.Prelude.{◌≡◌, false, [], ◌∷◌, None};
ghost use Rattle.http_edge.specs.declared.messages.Target.{Target};
ghost use Rattle.client_laws.specs.Met.{HasTakenBodies, MeetsHonest};
ghost use Rattle.sb_round.specs.Run.{lists_after};
ghost use Rattle.update_client.specs.declared.options.FetchOptions.{FetchOptions};
ghost use Rattle.update_run.specs.Opening.{first_lists};
ghost use Rattle.update_replay.specs.Example.{example_name, example_history, example_tokens};
ghost use Rattle.both_ends_laws.specs.Example.{example_plan, example_before, example_after, example_bodies, held_at_end};

use http_edge::passes;
use sb_json::written_texts_are_counted;
use update_messages::written_values_read_again;
use update_replay::premises_are_met;

/// The premises of the headline of runs can be met: by a server with three changes, and a run that begins without a store, whose first session
/// received the response with a whole update, and whose second one failed. Both bodies were taken, and the list of the update is held in the end.
pub fn premises_of_a_run_are_met()
    ensures met { (options : FetchOptions) (target : Target)
        → MeetsHonest example_history example_tokens (example_plan options target) 2 example_before example_after }
    ensures taken { HasTakenBodies false example_before.outside.log example_after.outside.log 2 }
    ensures installed { lists_after (first_lists (example_name ∷ []) None) example_bodies ≡ held_at_end ∷ [] }
{
    premises_are_met();
    passes();
    written_values_read_again();
    written_texts_are_counted();
}
