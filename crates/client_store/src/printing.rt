ghost use Rattle.std.specs.Prelude.{◌≡◌, ◌++◌, decimal, length, take, OnOk, OnErr};
ghost use Rattle.client_store.specs.Printed.{store_cause_text};

use crate::StoreFault;
use hash_prefixes::append_hex;
use sb_model::{Bytes, OutOfMemory};

// Appends a word and a number.
fn push_counted(page: &mut Bytes, word: &str, number: u64) -> Result<(), OutOfMemory>
    ensures ok { OnOk result (page.new ≡ page.old ++ (word.now ++ decimal number)) }
    ensures front { OnErr result (take (length page.old) page.new ≡ page.old) }
{
    page.append(word.as_bytes())?;
    page.append_decimal(number)
}

// Appends both digests.
fn push_digests(page: &mut Bytes, got: &[u8], given: &[u8]) -> Result<(), OutOfMemory>
    ensures ok { OnOk result
        (page.new ≡ page.old ++ store_cause_text (StoreFault.Digest got.now given.now)) }
    ensures front { OnErr result (take (length page.old) page.new ≡ page.old) }
{
    page.append(b"digest ")?;
    append_hex(page, got)?;
    page.append(b" ")?;
    append_hex(page, given)
}

/// Appends the cause of a text that is no store, as it is printed. After an `Err` the page begins as it was.
pub fn push_store_cause(page: &mut Bytes, fault: &StoreFault) -> Result<(), OutOfMemory>
    ensures ok { OnOk result (page.new ≡ page.old ++ store_cause_text fault.now) }
    ensures front { OnErr result (take (length page.old) page.new ≡ page.old) }
{
    match fault {
        StoreFault::Shape(place) => push_counted(page, "shape ", *place),
        StoreFault::Digest { got, given } => push_digests(page, got, given),
        StoreFault::Format(number) => push_counted(page, "format ", u64::from(*number)),
        StoreFault::OutOfMemory => page.append(b"out-of-memory"),
    }
}
