ghost use Rattle.std.specs.Prelude.{◌≡◌, ◌↔◌, ◌<◌, ◌^◌, length, IsTrue, IfOk};
ghost use Rattle.rice_coding.specs.Rice.{IsRiceRecordOf};
ghost use Rattle.conformance_vectors.specs.Vectors.{HasCanonicalText, fault_number, IsRefused, ended_lines, HasExpressions, HasRecord, Meets};

use crate::case::Case;
use rice_coding::{RiceFault, RiceRecord, decode};
use sb_model::{Bytes, OutOfMemory};
use std::alloc::Global;
use url_canon::{UrlFault, canonical};
use url_expressions::expressions;

/// How many values a record has at most.
const MOST_VALUES: usize = 0xffff_ffff;

/// Whether a text has a canonical URL with this text.
fn has_text(alloc: Global, url: &[u8], text: &[u8]) -> Result<bool, OutOfMemory>
    ensures { IfOk result (λ met. IsTrue met ↔ HasCanonicalText url.now text.now) }
{
    match canonical(alloc, url) {
        Ok(found) => Ok(found.as_bytes() == text),
        Err(UrlFault::OutOfMemory) => Err(OutOfMemory),
        Err(_) => Ok(false),
    }
}

/// The number of a fault; want of memory has none.
fn fault_number(fault: UrlFault) -> Option<u8>
    ensures { result ≡ fault_number fault }
{
    match fault {
        UrlFault::Empty => Some(1),
        UrlFault::NoHost => Some(2),
        UrlFault::TooLong(_) => Some(3),
        UrlFault::OutOfMemory => None,
    }
}

/// Whether a text has no canonical URL and a fault with this number.
fn is_refused(alloc: Global, url: &[u8], number: u8) -> Result<bool, OutOfMemory>
    ensures { IfOk result (λ met. IsTrue met ↔ IsRefused url.now number) }
{
    match canonical(alloc, url) {
        Ok(_) => Ok(false),
        Err(fault) => match fault_number(fault) {
            Some(found) => Ok(found == number),
            None => Err(OutOfMemory),
        },
    }
}

/// Texts, each ended by a newline.
fn lines_of(alloc: Global, texts: &[Bytes]) -> Result<Bytes, OutOfMemory>
    ensures { IfOk result (λ lines. lines ≡ ended_lines texts.now) }
{
    let mut lines = Bytes::new(alloc);
    for text in texts {
        lines.append(text.as_slice())?;
        lines.push(b'\n')?;
    }
    Ok(lines)
}

/// Whether a text has a canonical URL with these expressions.
fn has_expressions(alloc: Global, url: &[u8], lines: &[u8]) -> Result<bool, OutOfMemory>
    ensures { IfOk result (λ met. IsTrue met ↔ HasExpressions url.now lines.now) }
{
    match canonical(alloc, url) {
        Ok(found) => {
            let all = expressions(alloc, &found)?;
            Ok(lines_of(alloc, all.as_slice())?.as_slice() == lines)
        }
        Err(UrlFault::OutOfMemory) => Err(OutOfMemory),
        Err(_) => Ok(false),
    }
}

/// Whether a record is decoded to these values.
fn stands_for(alloc: Global, coding: &RiceRecord, values: &[u32]) -> Result<bool, OutOfMemory>
    requires { length values.now < 2 ^ 32 }
    ensures { IfOk result (λ met. IsTrue met ↔ IsRiceRecordOf coding.now values.now) }
{
    match decode(alloc, coding, values.len() as u32) {
        Ok(found) => Ok(found.as_slice() == values),
        Err(RiceFault::OutOfMemory) => Err(OutOfMemory),
        Err(_) => Ok(false),
    }
}

/// Whether there is a value, and the record of this parameter and these bytes stands for the
/// values.
fn has_record(
    alloc: Global,
    values: &[u32],
    parameter: u32,
    coded: &[u8],
) -> Result<bool, OutOfMemory>
    ensures { IfOk result (λ met. IsTrue met ↔ HasRecord values.now parameter coded.now) }
{
    let [first, rest @ ..] = values else {
        return Ok(false);
    };
    if values.len() > MOST_VALUES {
        return Ok(false);
    }
    let coding = RiceRecord {
        first: u64::from(*first),
        parameter,
        count: rest.len() as u32,
        coded: Bytes::from_slice(alloc, coded)?,
    };
    stands_for(alloc, &coding, values)
}

/// Whether the crates below agree with a case.
pub fn meets(alloc: Global, case: &Case) -> Result<bool, OutOfMemory>
    ensures { IfOk result (λ met. IsTrue met ↔ Meets case.now) }
{
    match *case {
        Case::Canon { url, text } => has_text(alloc, url, text),
        Case::Refused { url, number } => is_refused(alloc, url, number),
        Case::Expressions { url, lines } => has_expressions(alloc, url, lines),
        Case::Rice {
            values,
            parameter,
            coded,
        } => has_record(alloc, values, parameter, coded),
    }
}
