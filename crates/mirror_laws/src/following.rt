ghost use Rattle.mirror_laws.specs.Mirrors.{PlacesAreReplicas, RoundsFollowMirrors};

use mirror_places::{mirrors_are_followed, taken_lists_keep_their_names};
use sb_round::replicas_stay;

/// A client that holds a mirror's lists and makes rounds holds the mirror's lists afterwards, and each set of lists that it saved is the
/// mirror's, if each update that it installed is an item that the mirror answered at any of its places. All else that it was sent may be
/// lost or damaged, or come from others. So it is of each place of a mirror that takes its lists from another.
pub fn rounds_follow_mirrors()
    ensures { RoundsFollowMirrors }
{
    mirrors_are_followed();
    taken_lists_keep_their_names();
}

/// The lists at each place of a mirror are replicas of a server's, if it began with replicas and its rounds met an honest server.
pub fn places_are_replicas()
    ensures { PlacesAreReplicas }
{
    replicas_stay();
}
