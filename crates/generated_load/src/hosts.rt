ghost use Rattle.std.specs.Prelude.{◌≡◌, ◌++◌, IfOk, OnOk};
ghost use Rattle.generated_load.specs.Generated.{generated_hash, generated_host, number_after};

use hash_prefixes::full_hash;
use sb_model::{Bytes, OutOfMemory};

// The multiplier and the increment of the numbers.
const MULTIPLIER: u64 = 6_364_136_223_846_793_005;

const INCREMENT: u64 = 1_442_695_040_888_963_407;

/// The number after a number.
#[tactic(auto, unfolding(crate::specs::Generated::number_after))]
pub(crate) fn number_after(number: u64) -> u64
    ensures { result ≡ number_after number }
{
    number.wrapping_mul(MULTIPLIER).wrapping_add(INCREMENT)
}

/// Appends the host of a number.
#[tactic(auto, unfolding(crate::specs::Generated::generated_host))]
pub(crate) fn push_host(page: &mut Bytes, number: u64) -> Result<(), OutOfMemory>
    ensures { OnOk result (page.new ≡ page.old ++ generated_host number) }
{
    page.push(b'h')?;
    page.append_decimal(number >> 48)?;
    page.append(b".example")
}

/// A number, and the full hash of the first page of its host.
#[derive(Clone, Copy, Debug)]
pub(crate) struct Host {
    pub number: u64,
    pub hash: [u8; 32],
}

/// The host of a number. Its URL without the scheme is written into `text`, in place of what is there.
#[tactic(auto, unfolding(crate::specs::Generated::generated_hash))]
pub(crate) fn host_of(number: u64, text: &mut Bytes) -> Result<Host, OutOfMemory>
    ensures number { IfOk result (λ host. host.number ≡ number) }
    ensures hash { IfOk result (λ host. host.hash ≡ generated_hash number) }
{
    text.clear();
    push_host(text, number)?;
    text.push(b'/')?;
    let full = full_hash(text.as_slice());
    let hash = full.bytes;
    Ok(Host { number, hash })
}
