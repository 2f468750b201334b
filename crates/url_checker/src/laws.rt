ghost use Rattle.url_checker.specs.Findings.{BeginsFindings, GoesOnWithFindings, FindingsKeepToWaits};

use timed_sessions::traces_go_on;

/// The law of every check, from any kept answers and any state of waiting: no finding is a check, and a check with one finding more,
/// resolved from what those before it left, is one.
pub fn findings_go_on()
    ensures none { BeginsFindings }
    ensures one_more { GoesOnWithFindings }
{
    traces_go_on();
}

/// The law of waits: the session of each find begins, in the link's log too, at or after the moment that those before it left.
pub fn findings_keep_to_waits()
    ensures { FindingsKeepToWaits }
{}
