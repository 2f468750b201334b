ghost use Rattle.std.specs.Prelude.{◌≡◌, ◌++◌, ◌∷◌, ◌||◌, ◌<◌, ◌^◌, if◌then◌else◌, [], true, false, filter, length, IfOk, OnOk};
ghost use Rattle.std.specs.List.{list_any};
ghost use Rattle.std.specs.Str.Lines.{lines};
ghost use Rattle.url_canon.specs.Canonical.{canonical_of};
ghost use Rattle.journal_run.specs.Found.{has_reply, is_hit, is_expression_listed, is_url_refused, is_some_listed, line_verdict, listed_in, listed_text, spaced, verdict_of_url, verdicts};
ghost use Rattle.journal_run.specs.Stops.{is_end_of_reply, journal_run_status};

use crate::reply::Reply;
use crate::stop::Stop;
use hash_prefixes::full_hash;
use list_versions::History;
use sb_journal::{next_line, push_refusal};
use sb_model::{Bytes, ListName, OutOfMemory};
use std::alloc::Global;
use url_canon::{CanonicalUrl, UrlFault, canonical};
use url_expressions::expressions;

/// What the lines so far came to.
#[derive(Debug, Drop)]
struct Verdicts {
    page: Bytes,
    has_listed: bool,
    has_refused: bool,
}

/// Whether a list has the full hash of an expression now.
fn is_listed(history: &History, list: ListName, expression: &[u8]) -> bool
    ensures { result ≡ is_expression_listed history.now.versions list expression.now }
{
    history.holds(list, &full_hash(expression))
}

/// Appends an expression if a list has it. Answers whether it has.
fn push_if_listed(
    page: &mut Bytes,
    history: &History,
    list: ListName,
    expression: &[u8],
) -> Result<bool, OutOfMemory>
    ensures page { OnOk result (page.new
        ≡ page.old ++ spaced (filter (is_expression_listed history.now.versions list) (expression.now ∷ []))) }
    ensures any { IfOk result (λ any. any ≡ is_expression_listed history.now.versions list expression.now) }
{
    if !is_listed(history, list, expression) {
        return Ok(false);
    }
    page.push(b' ')?;
    page.append(expression)?;
    Ok(true)
}

/// Appends the expressions that a list has, each after a space. Answers whether there is one.
fn push_listed(
    page: &mut Bytes,
    history: &History,
    list: ListName,
    expressions: &[Bytes],
) -> Result<bool, OutOfMemory>
    ensures page { OnOk result (page.new
        ≡ page.old ++ spaced (filter (is_expression_listed history.now.versions list) expressions.now)) }
    ensures any { IfOk result (λ any. any
        ≡ is_some_listed (filter (is_expression_listed history.now.versions list) expressions.now)) }
{
    let mut any = false;
    for expression in expressions {
        any |= push_if_listed(page, history, list, expression.as_slice())?;
    }
    Ok(any)
}

/// Appends what is said of a URL. Answers whether it is listed.
fn push_verdict(
    alloc: Global,
    page: &mut Bytes,
    history: &History,
    list: ListName,
    url: &CanonicalUrl,
) -> Result<bool, OutOfMemory>
    ensures page { OnOk result (page.new
        ≡ page.old ++ listed_text (listed_in history.now.versions list url.now)) }
    ensures any { IfOk result (λ any. any ≡ is_some_listed (listed_in history.now.versions list url.now)) }
{
    let all = expressions(alloc, url)?;
    let mut listed = Bytes::new(alloc);
    let any = push_listed(&mut listed, history, list, all.as_slice())?;
    if any {
        page.append(b"listed")?;
        page.append(listed.as_slice())?;
    } else {
        page.append(b"not-listed")?;
    }
    Ok(any)
}

impl Verdicts {
    fn new(alloc: Global) -> Verdicts
        ensures page { result.page ≡ [] }
        ensures listed { result.has_listed ≡ false }
        ensures refused { result.has_refused ≡ false }
    {
        Verdicts {
            page: Bytes::new(alloc),
            has_listed: false,
            has_refused: false,
        }
    }

    /// Takes what a line is as a URL.
    fn take_url(
        &mut self,
        alloc: Global,
        history: &History,
        list: ListName,
        line: &[u8],
    ) -> Result<(), OutOfMemory>
        ensures page { OnOk result (self.new.page
            ≡ self.old.page ++ verdict_of_url history.now.versions list (canonical_of line.now)) }
        ensures listed { OnOk result (self.new.has_listed
            ≡ (self.old.has_listed || is_hit history.now.versions list (canonical_of line.now))) }
        ensures refused { OnOk result (self.new.has_refused
            ≡ (self.old.has_refused || is_url_refused (canonical_of line.now))) }
    {
        match canonical(alloc, line) {
            Ok(url) => {
                let any = push_verdict(alloc, &mut self.page, history, list, &url)?;
                self.has_listed |= any;
                Ok(())
            }
            Err(UrlFault::OutOfMemory) => Err(OutOfMemory),
            Err(fault) => {
                self.has_refused = true;
                push_refusal(&mut self.page, fault)
            }
        }
    }

    /// Takes a line of the input.
    fn take(
        &mut self,
        alloc: Global,
        history: &History,
        list: ListName,
        number: u64,
        line: &[u8],
    ) -> Result<(), OutOfMemory>
        ensures page { OnOk result (self.new.page
            ≡ self.old.page ++ line_verdict history.now.versions list (number, line.now)) }
        ensures listed { OnOk result (self.new.has_listed
            ≡ (self.old.has_listed || is_hit history.now.versions list (canonical_of line.now))) }
        ensures refused { OnOk result (self.new.has_refused
            ≡ (self.old.has_refused || is_url_refused (canonical_of line.now))) }
    {
        self.page.append_decimal(number)?;
        self.page.push(b' ')?;
        self.take_url(alloc, history, list, line)?;
        self.page.push(b'\n')
    }

    /// What ends a run that had these lines.
    fn stop(&self) -> Stop
        ensures status { journal_run_status result ≡ (if self.now.has_listed then 20 else if self.now.has_refused then 21 else 0) }
        ensures answered { is_end_of_reply result ≡ true }
    {
        if self.has_listed {
            return Stop::Listed;
        }
        if self.has_refused {
            return Stop::Refused;
        }
        Stop::Done
    }
}

/// What is said of the lines of an input.
#[tactic(auto, unfolding(crate::specs::Found::verdicts))]
fn verdicts_of(
    alloc: Global,
    history: &History,
    list: ListName,
    input: &[u8],
) -> Result<Verdicts, OutOfMemory>
    requires { length input.now < 2 ^ 32 }
    ensures page { IfOk result (λ found. found.page ≡ verdicts history.now.versions list input.now) }
    ensures listed { IfOk result (λ found. found.has_listed
        ≡ list_any (λ url. is_hit history.now.versions list (canonical_of url)) (lines input.now)) }
    ensures refused { IfOk result (λ found. found.has_refused
        ≡ list_any (λ url. is_url_refused (canonical_of url)) (lines input.now)) }
{
    let mut verdicts = Verdicts::new(alloc);
    let mut number = 1;
    let mut rest = input;
    while !rest.is_empty() {
        let (line, tail) = next_line(rest);
        verdicts.take(alloc, history, list, number, line)?;
        number += 1;
        rest = tail;
    }
    Ok(verdicts)
}

/// Which URLs of an input a list has.
pub(crate) fn has_reply(
    alloc: Global,
    list: ListName,
    input: &[u8],
    history: &History,
) -> Result<Reply, OutOfMemory>
    requires { length input.now < 2 ^ 32 }
    ensures { IfOk result (λ reply. reply ≡ has_reply list input.now history.now) }
{
    if history.declared(list).is_none() {
        return Reply::of_unknown_list(alloc);
    }
    let verdicts = verdicts_of(alloc, history, list, input)?;
    let stop = verdicts.stop();
    let Verdicts { page, .. } = verdicts;
    Ok(Reply { text: page, stop })
}
