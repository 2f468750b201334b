ghost use Rattle.std.specs.Prelude.{◌≡◌, ◌++◌, IfOk, OnOk};
ghost use Rattle.generated_load.specs.Generated.{url_line, urls_text};

use crate::hosts::{number_after, push_host};
use sb_model::{Bytes, OutOfMemory};
use std::alloc::Global;

// Room for a URL.
const URL_ROOM: usize = 32;

// Appends the URL with the host of a number, at a place.
fn push_url(page: &mut Bytes, number: u64, place: u32) -> Result<(), OutOfMemory>
    ensures { OnOk result (page.new ≡ page.old ++ url_line number place) }
{
    page.append(b"http://")?;
    push_host(page, number)?;
    page.append(b"/p")?;
    page.append_decimal(u64::from(place))?;
    page.push(b'\n')
}

/// So many URLs of a seed, each with its newline. Their hosts are of other numbers than those of the journal of this seed.
#[tactic(auto, unfolding(crate::specs::Generated::urls_text))]
pub fn generated_urls(alloc: Global, count: u32, seed: u64) -> Result<Bytes, OutOfMemory>
    ensures { IfOk result (λ text. text ≡ urls_text count seed) }
{
    let mut page = Bytes::with_capacity(alloc, URL_ROOM * count as usize)?;
    let mut number = seed.wrapping_add(1);
    for place in 0..count {
        number = number_after(number);
        push_url(&mut page, number, place + 1)?;
    }
    Ok(page)
}
