ghost use Rattle.std.specs.Prelude.{◌≡◌, [], ◌∷◌};
ghost use Rattle.sb_model.specs.History.{IsWellFormed};
ghost use Rattle.sb_model.specs.Naming.{IsNaming};
ghost use Rattle.update_client.specs.Held.{nothing_held_of};
ghost use Rattle.sb_round.specs.Run.{lists_after};
ghost use Rattle.sb_round.specs.Honest.{IsHonest};
ghost use Rattle.sb_round.specs.Collision.{candidates_of, HasNoCollision};
ghost use Rattle.update_replay.specs.Law.{PrintsReplicasAlone};
ghost use Rattle.update_replay.specs.Readings.{bodies_of};
ghost use Rattle.update_replay.specs.Example.{example_name, example_history, example_tokens, example_readings, example_held};

use sb_model::names_go_by_their_codes;
use sb_round::replicas_stay;
use update_messages::{values_read_one_way, values_read_or_have_a_fault};

/// The law of replays: where the bodies that the source tells are honest and no digest collides, each list that a replay prints is the
/// server's at the version that its token names, or is empty without a token.
pub fn replays_print_replicas()
    ensures { PrintsReplicasAlone }
{
    values_read_one_way();
    values_read_or_have_a_fault();
    replicas_stay();
}

/// The premises of the headline can be met: by a server with three changes, and a run of a whole update that is
/// Rice coded, a partial one with a base state, the same once more, which is stale then, one with a wrong
/// checksum, a line that is cut short, and a partial one without a base state.
pub fn premises_are_met()
    ensures formed { IsWellFormed example_history }
    ensures naming { IsNaming example_history example_tokens }
    ensures honest { IsHonest example_history example_tokens (nothing_held_of (example_name ∷ [])) (bodies_of example_readings) }
    ensures apart { HasNoCollision example_history (candidates_of (nothing_held_of (example_name ∷ [])) (bodies_of example_readings)) }
    ensures installed { lists_after (nothing_held_of (example_name ∷ [])) (bodies_of example_readings) ≡ example_held ∷ [] }
{
    names_go_by_their_codes();
}
