ghost use Rattle.std.specs.Prelude.{◌≡◌, ◌++◌, length, take, decimal, OnOk, OnErr};
ghost use Rattle.http_edge.specs.Printed.{exchange_cause_text};

use crate::ExchangeFault;
use hash_prefixes::append_hex;
use sb_model::{Bytes, OutOfMemory};

// Appends a word and a number.
fn push_counted(page: &mut Bytes, word: &str, number: u64) -> Result<(), OutOfMemory>
    ensures ok { OnOk result (page.new ≡ page.old ++ (word.now ++ decimal number)) }
    ensures front { OnErr result (take (length page.old) page.new ≡ page.old) }
{
    page.append(word.as_bytes())?;
    page.append_decimal(number)
}

// Appends both digests.
fn push_digests(page: &mut Bytes, got: &[u8], given: &[u8]) -> Result<(), OutOfMemory>
    ensures ok { OnOk result (page.new ≡ page.old ++ exchange_cause_text (ExchangeFault.Digest got.now given.now)) }
    ensures front { OnErr result (take (length page.old) page.new ≡ page.old) }
{
    page.append(b"digest ")?;
    append_hex(page, got)?;
    page.append(b" ")?;
    append_hex(page, given)
}

/// Appends the cause of a failed exchange as it is printed. After an `Err` the page begins as it was.
pub fn push_exchange_cause(page: &mut Bytes, fault: &ExchangeFault) -> Result<(), OutOfMemory>
    ensures ok { OnOk result (page.new ≡ page.old ++ exchange_cause_text fault.now) }
    ensures front { OnErr result (take (length page.old) page.new ≡ page.old) }
{
    match fault {
        ExchangeFault::Link => page.append(b"link"),
        ExchangeFault::Head => page.append(b"head"),
        ExchangeFault::HeadLimit => page.append(b"head-limit"),
        ExchangeFault::Status(status) => push_counted(page, "status ", u64::from(*status)),
        ExchangeFault::NoLength => page.append(b"no-length"),
        ExchangeFault::BodyLimit(length) => push_counted(page, "body-limit ", *length),
        ExchangeFault::Cut => page.append(b"cut"),
        ExchangeFault::NoDigest => page.append(b"no-digest"),
        ExchangeFault::Digest { got, given } => push_digests(page, got, given),
        ExchangeFault::Chunk(chunk) => push_counted(page, "chunk ", *chunk),
    }
}
