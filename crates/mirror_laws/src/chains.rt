ghost use Rattle.mirror_laws.specs.Chains.{ChainsHaveATop, ChainsLeadToTheServer, FirstMirrorsAreChains, FurtherMirrorsAreChains, ListsWithoutATokenAreEmpty, TopsAreOne};

use crate::{places_are_replicas, rounds_follow_mirrors};
use mirror_places::mirror_tokens_name_places;
use sb_model::names_go_by_their_codes;

/// Over a chain of mirrors of any length, a list that a client of the nearest one holds under a token is exactly the server's, at the version
/// that the token names under which the mirror beside the server held it.
pub fn chains_lead_to_the_server()
    // The token leads up the chain to a list that the mirror beside the server held, and to one alone.
    ensures top { ChainsHaveATop }
    ensures one { TopsAreOne }

    // It is the server's by that list.
    ensures server { ChainsLeadToTheServer }

    // One without a token is empty.
    ensures empty { ListsWithoutATokenAreEmpty }
{
    names_go_by_their_codes();
    mirror_tokens_name_places();
}

/// What mirrors come to by rounds is a chain: the first beside an honest server, and each further one below a mirror, if each update that it
/// installed is an item that this mirror answered.
pub fn rounds_make_chains()
    ensures first { FirstMirrorsAreChains }
    ensures further { FurtherMirrorsAreChains }
{
    places_are_replicas();
    rounds_follow_mirrors();
}
