ghost use Rattle.update_client.specs.Between.{UpdatesLead};
ghost use Rattle.update_client.specs.Genuine.{AnswersAreGenuine};

use prefix_set::{differences_lead, sets_go_by_members};
use rice_coding::encoding_is_decoded;
use sb_model::targets_are_the_greatest;
use update_messages::sent_numbers_rise;

/// Every item of what a server answers is an update that it could have made, whatever names it
/// gives to its versions, and a partial one names the state that it was made for.
pub fn answers_are_genuine()
    ensures { AnswersAreGenuine }
{
    differences_lead();
    sets_go_by_members();
    encoding_is_decoded();
    sent_numbers_rise();
    targets_are_the_greatest();
}

/// The whole of a set, and what leads from one set to another, lead there without a fault, whatever the state that was asked
/// from and the token of the newer set. They know no history. The sets are any that may be sent.
pub fn updates_lead_to_their_sets()
    ensures { UpdatesLead }
{
    differences_lead();
    sets_go_by_members();
    encoding_is_decoded();
    sent_numbers_rise();
}
