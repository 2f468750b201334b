ghost use Rattle.std.specs.Prelude.{◌≡◌, ◌++◌, length, take, decimal, OnOk, OnErr};
ghost use Rattle.update_client.specs.Printed.{token_text, rice_text, update_cause_text};

use crate::UpdateFault;
use hash_prefixes::append_hex;
use rice_coding::RiceFault;
use sb_model::{Bytes, OutOfMemory};

// Appends a word and a number.
fn push_counted(page: &mut Bytes, word: &str, number: u64) -> Result<(), OutOfMemory>
    ensures ok { OnOk result (page.new ≡ page.old ++ (word.now ++ decimal number)) }
    ensures front { OnErr result (take (length page.old) page.new ≡ page.old) }
{
    page.append(word.as_bytes())?;
    page.append_decimal(number)
}

/// Appends a state token in hexadecimal, and for an empty one a dash. After an `Err` the page begins as it was.
pub fn push_token(page: &mut Bytes, token: &[u8]) -> Result<(), OutOfMemory>
    ensures ok { OnOk result (page.new ≡ page.old ++ token_text token.now) }
    ensures front { OnErr result (take (length page.old) page.new ≡ page.old) }
{
    if token.is_empty() {
        return page.append(b"-");
    }
    append_hex(page, token)
}

// Appends the cause of a Rice record.
fn push_rice(page: &mut Bytes, fault: RiceFault) -> Result<(), OutOfMemory>
    ensures ok { OnOk result (page.new ≡ page.old ++ rice_text fault) }
    ensures front { OnErr result (take (length page.old) page.new ≡ page.old) }
{
    match fault {
        RiceFault::Parameter(parameter) => {
            push_counted(page, "rice parameter ", u64::from(parameter))
        }
        RiceFault::CountLimit(count) => push_counted(page, "rice count-limit ", count),
        RiceFault::Ended(entry) => push_counted(page, "rice ended ", entry),
        RiceFault::Range(entry) => push_counted(page, "rice range ", entry),
        RiceFault::LeftOver(bits) => push_counted(page, "rice left-over ", bits),
        RiceFault::OutOfMemory => page.append(b"rice out-of-memory"),
    }
}

// Appends both digests.
fn push_digests(page: &mut Bytes, computed: &[u8], given: &[u8]) -> Result<(), OutOfMemory>
    ensures ok { OnOk result (page.new ≡ page.old ++ update_cause_text (UpdateFault.Checksum computed.now given.now)) }
    ensures front { OnErr result (take (length page.old) page.new ≡ page.old) }
{
    page.append(b"checksum ")?;
    append_hex(page, computed)?;
    page.append(b" ")?;
    append_hex(page, given)
}

// Appends both tokens.
fn push_tokens(page: &mut Bytes, held: &[u8], given: &[u8]) -> Result<(), OutOfMemory>
    ensures ok { OnOk result (page.new ≡ page.old ++ update_cause_text (UpdateFault.StaleBase held.now given.now)) }
    ensures front { OnErr result (take (length page.old) page.new ≡ page.old) }
{
    page.append(b"stale-base ")?;
    push_token(page, held)?;
    page.append(b" ")?;
    push_token(page, given)
}

/// Appends the cause of a refusal as it is printed. After an `Err` the page begins as it was.
pub fn push_update_cause(page: &mut Bytes, fault: &UpdateFault) -> Result<(), OutOfMemory>
    ensures ok { OnOk result (page.new ≡ page.old ++ update_cause_text fault.now) }
    ensures front { OnErr result (take (length page.old) page.new ≡ page.old) }
{
    match fault {
        UpdateFault::Rice(fault) => push_rice(page, *fault),
        UpdateFault::IndexRange { index, len } => {
            push_counted(page, "index-range ", u64::from(*index))?;
            push_counted(page, " ", u64::from(*len))
        }
        UpdateFault::TooMany(count) => push_counted(page, "too-many ", *count),
        UpdateFault::TooLarge(bytes) => push_counted(page, "too-large ", *bytes),
        UpdateFault::Checksum { computed, given } => push_digests(page, computed, given),
        UpdateFault::StaleBase { held, given } => {
            push_tokens(page, held.as_slice(), given.as_slice())
        }
    }
}
