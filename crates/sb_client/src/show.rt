ghost use Rattle.std.specs.Prelude.{◌≡◌, ◌≢◌, ◌⊎◌, ℕ, List, [], ◌++◌, ◌≤◌, length, codes, decimal, Ok, Err, IfOk, IfErr, OnOk, OnErr, IsErrOf};
ghost use Rattle.std.specs.List.{flat_map};
ghost use Rattle.sb_outside.specs.Outside.{Rose, appended};
ghost use Rattle.sb_outside.specs.Writing.{IsOnItsWay, HasFront};
ghost use Rattle.url_canon.specs.Url.{text_of_url};
ghost use Rattle.url_canon.specs.Canonical.{canonical_of};
ghost use Rattle.url_canon.specs.Printed.{url_cause};
ghost use Rattle.url_expressions.specs.Expressions.{expressions_of};
ghost use Rattle.input_lines.specs.Lines.{numbered, lines_of};
ghost use Rattle.input_lines.specs.declared.input.TheConstants.{MAX_INPUT};
ghost use Rattle.sb_client.specs.Shown.{expression_line, shown_lines, all_shown, show_text, is_refused_url, has_refused_url};
ghost use Rattle.sb_client.specs.Show.{IsShown, IsPartlyShown};
ghost use Rattle.input_lines.specs.Input.{GivesWithin, GivesPast};
ghost use Rattle.input_lines.specs.Writing.{IsWritingStopped};

use hash_prefixes::{append_hex, full_hash};
use input_lines::{Stop, first_line, read_input};
use sb_model::{Bytes, OutOfMemory};
use sb_outside::{Sink, Source, flush, flush_if_full};
use std::alloc::Global;
use url_canon::{CanonicalUrl, UrlFault, canonical, push_url_cause};
use url_expressions::expressions;

/// Appends the line of a text that has no canonical URL.
fn push_refused(page: &mut Bytes, number: u64, fault: UrlFault) -> Result<(), OutOfMemory>
    ensures { OnOk result (page.new ≡ page.old ++ numbered number (codes "refused " ++ url_cause fault)) }
{
    page.append_decimal(number)?;
    page.append(b" refused ")?;
    push_url_cause(page, fault)?;
    page.push(b'\n')
}

/// Appends the line of a canonical URL.
fn push_url(page: &mut Bytes, number: u64, text: &[u8]) -> Result<(), OutOfMemory>
    ensures { OnOk result (page.new ≡ page.old ++ numbered number text.now) }
{
    page.append_decimal(number)?;
    page.push(b' ')?;
    page.append(text)?;
    page.push(b'\n')
}

/// Appends the line of an expression.
fn push_expression(page: &mut Bytes, expression: &[u8]) -> Result<(), OutOfMemory>
    ensures { OnOk result (page.new ≡ page.old ++ expression_line expression.now) }
{
    let hash = full_hash(expression);
    page.append(b"  ")?;
    append_hex(page, &hash.bytes)?;
    page.push(b' ')?;
    page.append(expression)?;
    page.push(b'\n')
}

/// Appends the lines of expressions.
fn push_expressions(page: &mut Bytes, all: &[Bytes]) -> Result<(), OutOfMemory>
    ensures { OnOk result (page.new ≡ page.old ++ flat_map expression_line all.now) }
{
    for expression in all {
        push_expression(page, expression.as_slice())?;
    }
    Ok(())
}

/// Appends the lines of a canonical URL and its expressions.
fn push_shown(
    alloc: Global,
    page: &mut Bytes,
    number: u64,
    url: &CanonicalUrl,
) -> Result<(), OutOfMemory>
    ensures { OnOk result (page.new ≡ page.old ++ shown_lines number (Ok url.now)) }
{
    let all = expressions(alloc, url)?;
    push_url(page, number, url.as_bytes())?;
    push_expressions(page, all.as_slice())
}

/// Appends the lines of a text. Answers whether it has no canonical URL.
fn push_line(alloc: Global, page: &mut Bytes, number: u64, line: &[u8]) -> Result<bool, OutOfMemory>
    ensures text { OnOk result (page.new ≡ page.old ++ shown_lines number (canonical_of line.now)) }
    ensures refused { IfOk result (λ refused. refused ≡ is_refused_url (canonical_of line.now)) }
{
    match canonical(alloc, line) {
        Ok(url) => {
            push_shown(alloc, page, number, &url)?;
            Ok(false)
        }
        Err(UrlFault::OutOfMemory) => Err(OutOfMemory),
        Err(fault) => {
            push_refused(page, number, fault)?;
            Ok(true)
        }
    }
}

/// Prints the lines of a text. Answers whether it has no canonical URL.
fn show_line<O: Sink>(
    alloc: Global,
    number: u64,
    line: &[u8],
    out: &mut O,
    page: &mut Bytes,
) -> Result<bool, Stop>
    ensures text { OnOk result (IsOnItsWay (O.contents out.old) (O.contents out.new) page.new
        (page.old ++ shown_lines number (canonical_of line.now))) }
    ensures refused { IfOk result (λ refused. refused ≡ is_refused_url (canonical_of line.now)) }
    ensures kept { OnOk result (O.faults out.new ≡ O.faults out.old) }
    ensures stopped { IfErr result (λ stop. IsWritingStopped stop (O.faults out.old) (O.faults out.new)) }
    ensures err { OnErr result (HasFront (O.contents out.old) (O.contents out.new)
        (page.old ++ shown_lines number (canonical_of line.now))) }
{
    let Ok(refused) = push_line(alloc, page, number, line) else {
        return Err(Stop::OutOfMemory);
    };
    match flush_if_full(out, page) {
        Ok(()) => Ok(refused),
        Err(failed) => Err(Stop::from(failed)),
    }
}

/// Prints the lines of an input in order. Answers whether one has no canonical URL.
fn show_lines<O: Sink>(
    alloc: Global,
    input: &[u8],
    out: &mut O,
    page: &mut Bytes,
) -> Result<bool, Stop>
    requires page { page.old ≡ [] }
    requires within { length input.now ≤ MAX_INPUT }
    ensures refused { IfOk result (λ refused. refused ≡ has_refused_url (lines_of input.now)) }
    ensures text { OnOk result (IsOnItsWay (O.contents out.old) (O.contents out.new) page.new (show_text input.now)) }
    ensures kept { OnOk result (O.faults out.new ≡ O.faults out.old) }
    ensures stopped { IfErr result (λ stop. IsWritingStopped stop (O.faults out.old) (O.faults out.new)) }
    ensures err { OnErr result (HasFront (O.contents out.old) (O.contents out.new) (show_text input.now)) }
{
    let mut refused = false;
    let mut number = 1;
    let mut rest = input;
    while !rest.is_empty() {
        let (line, tail) = first_line(rest);
        match show_line(alloc, number, line, out, page) {
            Ok(is_refused) => refused |= is_refused,
            Err(stop) => return Err(stop),
        }
        number += 1;
        rest = tail;
    }
    Ok(refused)
}

/// Shows the lines of an input.
fn show_input<O: Sink>(alloc: Global, input: &[u8], out: &mut O) -> Result<bool, Stop>
    requires { length input.now ≤ MAX_INPUT }
    ensures refused { IfOk result (λ refused. refused ≡ has_refused_url (lines_of input.now)) }
    ensures text { OnOk result (O.contents out.new ≡ appended (O.contents out.old) (show_text input.now)) }
    ensures kept { OnOk result (O.faults out.new ≡ O.faults out.old) }
    ensures stopped { IfErr result (λ stop. IsWritingStopped stop (O.faults out.old) (O.faults out.new)) }
    ensures err { OnErr result (HasFront (O.contents out.old) (O.contents out.new) (show_text input.now)) }
{
    let mut page = Bytes::new(alloc);
    let refused = match show_lines(alloc, input, out, &mut page) {
        Ok(refused) => refused,
        Err(stop) => return Err(stop),
    };
    match flush(out, &mut page) {
        Ok(()) => Ok(refused),
        Err(failed) => Err(Stop::from(failed)),
    }
}

/// Shows the URLs of an input, which is read to its end first: each with its canonical text and its
/// expressions. Answers whether one has no canonical URL.
pub(crate) fn show<S: Source, O: Sink>(
    alloc: Global,
    input: &mut S,
    out: &mut O,
) -> Result<bool, Stop>
    ensures shown { IfOk result (λ refused. IsShown refused (S.left input.old) (S.left input.new) (O.contents out.old) (O.contents out.new)) }
    ensures read_fault { IsErrOf result Stop.ReadFault → Rose (S.faults input.old) (S.faults input.new)
        × GivesWithin (S.left input.old) (S.left input.new) × (out.new ≡ out.old) }
    ensures past { IsErrOf result Stop.PastLimits → GivesPast (S.left input.old) (S.left input.new) × (out.new ≡ out.old) }
    ensures write_fault { IsErrOf result Stop.WriteFault → Rose (O.faults out.old) (O.faults out.new)
        × IsPartlyShown (S.left input.old) (S.left input.new) (O.contents out.old) (O.contents out.new) }
    ensures memory { IsErrOf result Stop.OutOfMemory → (O.contents out.new ≡ O.contents out.old)
        ⊎ IsPartlyShown (S.left input.old) (S.left input.new) (O.contents out.old) (O.contents out.new) }
    ensures input_kept { result ≢ Err Stop.ReadFault → S.faults input.new ≡ S.faults input.old }
    ensures output_kept { result ≢ Err Stop.WriteFault → O.faults out.new ≡ O.faults out.old }
{
    let text = match read_input(alloc, input) {
        Ok(text) => text,
        Err(fault) => return Err(Stop::from(fault)),
    };
    show_input(alloc, text.as_slice(), out)
}
