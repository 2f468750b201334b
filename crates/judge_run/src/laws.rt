ghost use Rattle.judge_run.specs.Cases.{BeginsCases, GoesOnWithCases};
ghost use Rattle.judge_run.specs.Law.{CasesKeepToWaits};

use timed_sessions::traces_go_on;

/// The law of URLs that are judged in order: what the log of the link has more are the sessions of their finds, at most one for each, and each
/// begins at or after the moment that those before it left.
pub fn cases_keep_to_waits()
    ensures { CasesKeepToWaits }
{}

/// The law of URLs that are judged one by one: none is judged at first, and with one more they are judged in order.
pub fn cases_go_on()
    ensures none { BeginsCases }
    ensures one_more { GoesOnWithCases }
{
    traces_go_on();
}
