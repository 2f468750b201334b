ghost use Rattle.timed_sessions.specs.Waiting.{HasSettled};

use client_line::Line;
use sb_model::{Duration, Moment};
use wait_rules::WaitState;

/// Ends a session that was closed at this moment: with a message, which bids to wait so long, or without one, and then
/// the delay takes one drawn word.
pub fn settle<N: Line>(waits: &mut WaitState, closed: Moment, bids: Option<Duration>, line: &mut N)
    ensures { HasSettled waits.old waits.new closed bids (N.view line.old) (N.view line.new) }
{
    match bids {
        Some(wait) => waits.succeeded(closed, wait),
        None => waits.failed(closed, line.word()),
    }
}
