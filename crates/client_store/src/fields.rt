ghost use Rattle.std.specs.Prelude.{◌≡◌, ◌≤◌, length, IfOk};
ghost use Rattle.std.specs.Int.{w16, w32};
ghost use Rattle.client_store.specs.Fields.{GivesReading};
ghost use Rattle.client_store.specs.Reading.{byte_at as byte_of, bytes_at as bytes_of, number_at, name_of_bytes, mark_at as mark_of_field, token_at as token_of, most_token_bytes};
ghost use Rattle.client_store.specs.declared.fields.Stop.TheVariants.{OutOfMemory as NoMemory};

use sb_model::{Bytes, EntryType, ListName, OutOfMemory, PlatformType, ThreatType};
use std::alloc::Global;

/// The most bytes of a state token.
const MAX_TOKEN_BYTES: u16 = 4096;

/// Why reading stops.
#[derive(Clone, Copy, Debug)]
pub(crate) enum Stop {
    /// A field breaks a rule. So many bytes are left from its first one on.
    Broken(usize),
    OutOfMemory,
}

impl From<OutOfMemory> for Stop {
    ghost from_gives = { λ _ stop. stop ≡ NoMemory };

    fn from(_refused: OutOfMemory) -> Stop {
        Stop::OutOfMemory
    }
}

/// One byte.
pub(crate) fn byte_at(bytes: &[u8]) -> Result<(u8, &[u8]), Stop>
    ensures { GivesReading (λ x. (x.0, x.1.now)) result (byte_of bytes.now) }
{
    match bytes {
        [] => Err(Stop::Broken(0)),
        [byte, rest @ ..] => Ok((*byte, rest)),
    }
}

/// So many bytes.
#[tactic(auto, unfolding(crate::specs::Reading::bytes_at))]
pub(crate) fn bytes_at(count: usize, bytes: &[u8]) -> Result<(&[u8], &[u8]), Stop>
    ensures value { GivesReading (λ x. (x.0.now, x.1.now)) result (bytes_of count bytes.now) }
    ensures long { IfOk result (λ x. length x.0.now ≡ count) }
{
    if bytes.len() < count {
        return Err(Stop::Broken(bytes.len()));
    }
    Ok(bytes.split_at(count))
}

/// A number of two bytes.
#[tactic(auto, unfolding(crate::specs::Reading::number_at))]
fn u16_at(bytes: &[u8]) -> Result<(u16, &[u8]), Stop>
    ensures { GivesReading (λ x. (x.0, x.1.now)) result (number_at w16 bytes.now) }
{
    if bytes.len() < 2 {
        return Err(Stop::Broken(bytes.len()));
    }
    let (front, rest) = bytes.split_at(2);
    Ok((u16::from_be_bytes([front[0], front[1]]), rest))
}

/// A number of four bytes.
#[tactic(auto, unfolding(crate::specs::Reading::number_at))]
pub(crate) fn u32_at(bytes: &[u8]) -> Result<(u32, &[u8]), Stop>
    ensures { GivesReading (λ x. (x.0, x.1.now)) result (number_at w32 bytes.now) }
{
    if bytes.len() < 4 {
        return Err(Stop::Broken(bytes.len()));
    }
    let (front, rest) = bytes.split_at(4);
    let number = u32::from_be_bytes([front[0], front[1], front[2], front[3]]);
    Ok((number, rest))
}

/// The name that three bytes are.
pub(crate) fn name_of(codes: &[u8]) -> Option<ListName>
    ensures { result ≡ name_of_bytes codes.now }
{
    let [threat, platform, entry] = codes else {
        return None;
    };
    let threat = ThreatType::from_code(*threat)?;
    let platform = PlatformType::from_code(*platform)?;
    let entry = EntryType::from_code(*entry)?;
    Some(ListName {
        threat,
        platform,
        entry,
    })
}

/// Whether an update was refused since the last that was installed.
#[tactic(auto, unfolding(crate::specs::Reading::mark_at))]
pub(crate) fn mark_at(bytes: &[u8]) -> Result<(bool, &[u8]), Stop>
    ensures { GivesReading (λ x. (x.0, x.1.now)) result (mark_of_field bytes.now) }
{
    let (byte, rest) = byte_at(bytes)?;
    match byte {
        0 => Ok((false, rest)),
        1 => Ok((true, rest)),
        _ => Err(Stop::Broken(bytes.len())),
    }
}

/// A token, after its length.
#[tactic(auto, unfolding(crate::specs::Reading::token_at))]
pub(crate) fn token_at(alloc: Global, bytes: &[u8]) -> Result<(Bytes, &[u8]), Stop>
    ensures value { GivesReading (λ x. (x.0, x.1.now)) result (token_of bytes.now) }
    ensures short { IfOk result (λ x. length x.0 ≤ most_token_bytes) }
{
    let (size, rest) = u16_at(bytes)?;
    if size > MAX_TOKEN_BYTES {
        return Err(Stop::Broken(bytes.len()));
    }
    let (token, rest) = bytes_at(size as usize, rest)?;
    Ok((Bytes::from_slice(alloc, token)?, rest))
}
