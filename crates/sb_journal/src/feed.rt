ghost use Rattle.std.specs.Prelude.{◌≡◌, ◌+◌, ◌<◌, ◌^◌, ◌++◌, ◌||◌, [], false, length, map, is_some, option_to_list, IfOk, OnOk};
ghost use Rattle.std.specs.List.{filter_map, list_any};
ghost use Rattle.std.specs.Str.Lines.{lines};
ghost use Rattle.sb_journal.specs.Feed.{hashes_in, is_mute as is_mute_line, refused, said_by, told};
ghost use Rattle.sb_journal.specs.Refusals.{refusal_at, refusals};
ghost use Rattle.sb_journal.specs.Refusals.{has_refused, refused_in};

use crate::input::next_line;
use crate::urls::{hash_of_url, push_refusal};
use sb_model::{Bytes, OutOfMemory};
use std::alloc::Global;
use url_canon::UrlFault;

/// What the lines of a feed say.
#[derive(Debug, Drop)]
pub struct Feed {
    /// The hashes of its URLs, in the order of the lines.
    pub hashes: Vec<[u8; 32]>,
    /// A numbered line for each URL that is refused.
    pub refusals: Bytes,
    pub has_refused: bool,
}

/// Whether a line says nothing.
pub(crate) fn is_mute(line: &[u8]) -> bool
    ensures { result ≡ is_mute_line line.now }
{
    match line {
        [] => true,
        [first, ..] => *first == b'#',
    }
}

/// Appends the line of a URL that is refused.
pub(crate) fn push_refused(
    page: &mut Bytes,
    number: u64,
    fault: UrlFault,
) -> Result<(), OutOfMemory>
    ensures { OnOk result (page.new ≡ page.old ++ refusal_at number (Some fault)) }
{
    page.append_decimal(number)?;
    page.push(b' ')?;
    push_refusal(page, fault)?;
    page.push(b'\n')
}

impl Feed {
    fn new(alloc: Global) -> Feed
        ensures hashes { result.hashes.items ≡ [] }
        ensures refusals { result.refusals ≡ [] }
        ensures none { result.has_refused ≡ false }
    {
        Feed {
            hashes: Vec::new(alloc),
            refusals: Bytes::new(alloc),
            has_refused: false,
        }
    }

    /// Takes what a line says.
    fn take(&mut self, alloc: Global, number: u64, line: &[u8]) -> Result<(), OutOfMemory>
        ensures hashes { OnOk result (self.new.hashes.items
            ≡ self.old.hashes.items ++ option_to_list (told (said_by line.now))) }
        ensures refusals { OnOk result (self.new.refusals
            ≡ self.old.refusals ++ refusal_at number (refused (said_by line.now))) }
        ensures any { OnOk result (self.new.has_refused
            ≡ (self.old.has_refused || is_some (refused (said_by line.now)))) }
    {
        if is_mute(line) {
            return Ok(());
        }
        match hash_of_url(alloc, line) {
            Ok(hash) => {
                self.hashes.push(hash)?;
                Ok(())
            }
            Err(UrlFault::OutOfMemory) => Err(OutOfMemory),
            Err(fault) => {
                self.has_refused = true;
                push_refused(&mut self.refusals, number, fault)
            }
        }
    }
}

/// What the lines of an input say.
#[tactic(auto, unfolding(crate::specs::Refusals::refusals))]
pub fn read_feed(alloc: Global, input: &[u8]) -> Result<Feed, OutOfMemory>
    requires { length input.now < 2 ^ 32 }
    ensures hashes { IfOk result (λ feed. feed.hashes.items ≡ hashes_in input.now) }
    ensures refusals { IfOk result (λ feed. feed.refusals ≡ refusals (refused_in input.now)) }
    ensures any { IfOk result (λ feed. feed.has_refused ≡ has_refused (refused_in input.now)) }
{
    let mut feed = Feed::new(alloc);
    let mut number = 1;
    let mut rest = input;
    while !rest.is_empty() {
        let (line, tail) = next_line(rest);
        feed.take(alloc, number, line)?;
        number += 1;
        rest = tail;
    }
    Ok(feed)
}
