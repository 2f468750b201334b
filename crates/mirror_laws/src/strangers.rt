ghost use Rattle.mirror_laws.specs.Strangers.{MirrorTokensGetWholeLists, MirrorTokensNameNoVersion, StrangersGetWholeLists, StrangersNameNoPlace};

use mirror_places::mirror_tokens_name_places;

/// A state that is a token of a list server, or of a mirror for another epoch, another list or a place that is not kept, names no kept place
/// of a mirror. A token of a mirror names no version of a list server. So a client that moves between mirrors, or between a mirror and a list
/// server, gets whole lists.
pub fn strangers_name_no_place()
    // at a mirror
    ensures places { StrangersNameNoPlace }
    ensures from_mirrors { StrangersGetWholeLists }

    // at a list server
    ensures versions { MirrorTokensNameNoVersion }
    ensures from_servers { MirrorTokensGetWholeLists }
{
    mirror_tokens_name_places();
}
