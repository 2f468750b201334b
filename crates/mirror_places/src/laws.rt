ghost use Rattle.std.specs.Prelude.{◌≡◌, ℕ, ◌<◌, ◌^◌, List};
ghost use Rattle.update_messages.specs.Messages.{UpdatedList};
ghost use Rattle.update_client.specs.Held.{Held};
ghost use Rattle.update_client.specs.Step.{after_updates};
ghost use Rattle.mirror_places.specs.Places.{names_of_lists};
ghost use Rattle.mirror_places.specs.Replica.{AnswersFromPlaces, FollowsMirrors};
ghost use Rattle.mirror_places.specs.Tokens.{NamesPlaces};

use sb_model::names_go_by_their_codes;
use update_client::updates_lead_to_their_sets;

/// A token of a mirror names one list and one place, if the epoch is a number of 64 bits.
pub fn mirror_tokens_name_places()
    ensures { (epoch : ℕ) → epoch < 2 ^ 64 → NamesPlaces epoch }
{
    names_go_by_their_codes();
}

/// What a client takes that holds a mirror's lists leaves it with a mirror's lists, whatever else the answer has. No checksum is
/// premised: each partial update names the state that it was made for.
pub fn mirrors_are_followed()
    ensures { FollowsMirrors }
{
    names_go_by_their_codes();
    updates_lead_to_their_sets();
}

/// Each item of what a mirror answers is an item of the places that it stands for: it leads to the newest of them.
pub fn mirrors_answer_from_their_places()
    ensures { AnswersFromPlaces }
{}

/// What a client takes changes no names of its lists, so that they may be pushed to a mirror that holds them.
pub fn taken_lists_keep_their_names()
    ensures { (lists : List Held) (updates : List UpdatedList) → names_of_lists (after_updates lists updates) ≡ names_of_lists lists }
{}
