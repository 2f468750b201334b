ghost use Rattle.std.specs.Prelude.{◌≡◌, ◌++◌, decimal, length, take, OnOk, OnErr};
ghost use Rattle.std.specs.List.{flat_map};
ghost use Rattle.sb_model.specs.Names.{text_of};
ghost use Rattle.verdict_report.specs.Printed.{cause_text, judged_text, names_text, next_text, report_line, verdict_text};

use crate::verdicts::{Cause, Judged, Verdict};
use http_edge::push_exchange_cause;
use sb_json::push_message_cause;
use sb_model::{Bytes, ListName, OutOfMemory};
use url_canon::push_url_cause;

fn push_name(page: &mut Bytes, name: ListName) -> Result<(), OutOfMemory>
    ensures ok { OnOk result (page.new ≡ page.old ++ text_of name) }
    ensures front { OnErr result (take (length page.old) page.new ≡ page.old) }
{
    page.append(name.threat.word().as_bytes())?;
    page.push(b'/')?;
    page.append(name.platform.word().as_bytes())?;
    page.push(b'/')?;
    page.append(name.entry.word().as_bytes())
}

// Appends a name behind a comma.
fn push_next(page: &mut Bytes, name: ListName) -> Result<(), OutOfMemory>
    ensures ok { OnOk result (page.new ≡ page.old ++ next_text name) }
    ensures front { OnErr result (take (length page.old) page.new ≡ page.old) }
{
    page.push(b',')?;
    push_name(page, name)
}

// Appends names, each behind a comma.
fn push_rest(page: &mut Bytes, names: &[ListName]) -> Result<(), OutOfMemory>
    ensures ok { OnOk result (page.new ≡ page.old ++ flat_map next_text names.now) }
    ensures front { OnErr result (take (length page.old) page.new ≡ page.old) }
{
    for name in names {
        push_next(page, *name)?;
    }
    Ok(())
}

// Appends names, with commas between them.
fn push_names(page: &mut Bytes, names: &[ListName]) -> Result<(), OutOfMemory>
    ensures ok { OnOk result (page.new ≡ page.old ++ names_text names.now) }
    ensures front { OnErr result (take (length page.old) page.new ≡ page.old) }
{
    match names {
        [] => Ok(()),
        [first, rest @ ..] => {
            push_name(page, *first)?;
            push_rest(page, rest)
        }
    }
}

// Appends a number after a word.
fn push_numbered(page: &mut Bytes, word: &str, number: u64) -> Result<(), OutOfMemory>
    ensures ok { OnOk result (page.new ≡ page.old ++ (word.now ++ decimal number)) }
    ensures front { OnErr result (take (length page.old) page.new ≡ page.old) }
{
    page.append(word.as_bytes())?;
    page.append_decimal(number)
}

// Appends why a verdict is left open.
fn push_cause(page: &mut Bytes, cause: &Cause) -> Result<(), OutOfMemory>
    ensures ok { OnOk result (page.new ≡ page.old ++ cause_text cause.now) }
    ensures front { OnErr result (take (length page.old) page.new ≡ page.old) }
{
    match cause {
        Cause::NotBefore(moment) => push_numbered(page, "not-before ", moment.0),
        Cause::Exchange(fault) => push_exchange_cause(page, fault),
        Cause::Message(fault) => push_message_cause(page, fault),
    }
}

fn push_verdict(page: &mut Bytes, number: u64, verdict: &Verdict) -> Result<(), OutOfMemory>
    ensures ok { OnOk result (page.new ≡ page.old ++ verdict_text number verdict.now) }
    ensures front { OnErr result (take (length page.old) page.new ≡ page.old) }
{
    match verdict {
        Verdict::Safe => push_numbered(page, "safe ", number),
        Verdict::Unsafe(names) => {
            push_numbered(page, "unsafe ", number)?;
            page.push(b' ')?;
            push_names(page, names.as_slice())
        }
        Verdict::Undecided(cause) => {
            push_numbered(page, "undecided ", number)?;
            page.push(b' ')?;
            push_cause(page, cause)
        }
    }
}

fn push_judged(page: &mut Bytes, judged: &Judged) -> Result<(), OutOfMemory>
    ensures ok { OnOk result (page.new ≡ page.old ++ judged_text judged.now) }
    ensures front { OnErr result (take (length page.old) page.new ≡ page.old) }
{
    match judged {
        Judged::Verdict {
            number,
            text,
            verdict,
        } => {
            push_verdict(page, *number, verdict)?;
            page.push(b' ')?;
            page.append(text.as_slice())
        }
        Judged::Refused(fault) => {
            page.append(b"refused ")?;
            push_url_cause(page, *fault)
        }
    }
}

/// Appends the line of the URL on this input line, counted from 1. After an `Err` the page begins as it was.
pub fn push_report_line(page: &mut Bytes, line: u64, judged: &Judged) -> Result<(), OutOfMemory>
    ensures ok { OnOk result (page.new ≡ page.old ++ report_line line judged.now) }
    ensures front { OnErr result (take (length page.old) page.new ≡ page.old) }
{
    page.append_decimal(line)?;
    page.push(b' ')?;
    push_judged(page, judged)?;
    page.push(b'\n')
}
