ghost use Rattle.std.specs.Prelude.{◌≡◌, ◌≢◌, ◌⊎◌, ℕ, List, [], ◌++◌, ◌≤◌, length, map, codes, IfOk, IfErr, OnOk, OnErr, IsErrOf};
ghost use Rattle.std.specs.List.{flat_map, list_any};
ghost use Rattle.sb_outside.specs.Outside.{Rose, appended};
ghost use Rattle.sb_outside.specs.Writing.{IsOnItsWay, HasFront};
ghost use Rattle.sb_json.specs.Printed.{message_cause_text};
ghost use Rattle.update_client.specs.Held.{most_lists, nothing_held_of};
ghost use Rattle.update_client.specs.Step.{after_updates, is_refused, results_of};
ghost use Rattle.sb_round.specs.Printed.{taken_text};
ghost use Rattle.sb_round.specs.Run.{lists_after};
ghost use Rattle.input_lines.specs.Lines.{numbered, lines_of};
ghost use Rattle.input_lines.specs.declared.input.TheConstants.{MAX_INPUT};
ghost use Rattle.update_replay.specs.Readings.{ResponseReading as ReadingOf, updates_of_reading, bodies_of, IsReader};
ghost use Rattle.update_replay.specs.Printed.{taken_lines, body_lines, outcome_lines, list_lines, prefix_line, replay_text};
ghost use Rattle.input_lines.specs.Input.{GivesWithin, GivesPast};
ghost use Rattle.input_lines.specs.Writing.{IsWritingStopped, HasPart};
ghost use Rattle.update_replay.specs.Replay.{is_body_refused, is_any_body_refused, IsPrinted, IsPartlyPrinted};

use crate::lines::{Reading, read_line};
use crate::printing::{push_prefix_line, push_taken_line, push_unreadable_line};
use input_lines::{Stop, first_line, read_input};
use sb_json::MessageFault;
use sb_model::{Bytes, ListName};
use sb_outside::{Sink, Source, flush, flush_if_full};
use std::alloc::Global;
use update_client::{ClientLists, HeldList, ListResult};
use update_messages::{FetchResponse, ListUpdate, values_read_or_have_a_fault};
use update_run::push_list_line;

/// Whether one of several updates is told with status 5.
fn any_refused(outcomes: &[ListResult]) -> bool
    ensures { result ≡ list_any is_refused outcomes.now }
{
    outcomes.iter().any(|outcome| outcome.is_refused())
}

/// Prints the line of an update.
fn print_taken<O: Sink>(
    number: u64,
    name: ListName,
    outcome: &ListResult,
    out: &mut O,
    page: &mut Bytes,
) -> Result<(), Stop>
    ensures text { OnOk result (IsOnItsWay (O.contents out.old) (O.contents out.new) page.new
        (page.old ++ numbered number (taken_text name outcome.now))) }
    ensures kept { OnOk result (O.faults out.new ≡ O.faults out.old) }
    ensures stopped { IfErr result (λ stop. IsWritingStopped stop (O.faults out.old) (O.faults out.new)) }
    ensures err { OnErr result (HasFront (O.contents out.old) (O.contents out.new)
        (page.old ++ numbered number (taken_text name outcome.now))) }
{
    match push_taken_line(page, number, name, outcome) {
        Ok(()) => Ok(flush_if_full(out, page)?),
        Err(_) => Err(Stop::OutOfMemory),
    }
}

/// Prints the line of a body that has no reading.
fn print_unreadable<O: Sink>(
    number: u64,
    fault: &MessageFault,
    out: &mut O,
    page: &mut Bytes,
) -> Result<(), Stop>
    ensures text { OnOk result (IsOnItsWay (O.contents out.old) (O.contents out.new) page.new
        (page.old ++ numbered number (codes "unreadable " ++ message_cause_text fault.now))) }
    ensures kept { OnOk result (O.faults out.new ≡ O.faults out.old) }
    ensures stopped { IfErr result (λ stop. IsWritingStopped stop (O.faults out.old) (O.faults out.new)) }
    ensures err { OnErr result (HasFront (O.contents out.old) (O.contents out.new)
        (page.old ++ numbered number (codes "unreadable " ++ message_cause_text fault.now))) }
{
    match push_unreadable_line(page, number, fault) {
        Ok(()) => Ok(flush_if_full(out, page)?),
        Err(_) => Err(Stop::OutOfMemory),
    }
}

/// Prints a line for each update of a body.
fn print_body<O: Sink>(
    number: u64,
    updates: &[ListUpdate],
    outcomes: &[ListResult],
    out: &mut O,
    page: &mut Bytes,
) -> Result<(), Stop>
    requires { length outcomes.now ≡ length updates.now }
    ensures text { OnOk result (IsOnItsWay (O.contents out.old) (O.contents out.new) page.new
        (page.old ++ taken_lines number updates.now outcomes.now)) }
    ensures kept { OnOk result (O.faults out.new ≡ O.faults out.old) }
    ensures stopped { IfErr result (λ stop. IsWritingStopped stop (O.faults out.old) (O.faults out.new)) }
    ensures err { OnErr result (HasPart (O.contents out.old) (O.contents out.new)
        (page.old ++ taken_lines number updates.now outcomes.now)) }
{
    for (i, outcome) in outcomes.iter().enumerate() {
        let update = &updates[i];
        if let Err(stop) = print_taken(number, update.name, outcome, out, page) {
            return Err(stop);
        }
    }
    Ok(())
}

/// Takes the updates of a body, and prints what became of each. Answers whether one was refused.
fn take_body<O: Sink>(
    alloc: Global,
    lists: &mut ClientLists,
    number: u64,
    body: &FetchResponse,
    out: &mut O,
    page: &mut Bytes,
) -> Result<bool, Stop>
    ensures lists { OnOk result (lists.new ≡ after_updates lists.old body.now.items) }
    ensures refused { IfOk result (λ refused. refused ≡ list_any is_refused (results_of lists.old body.now.items)) }
    ensures text { OnOk result (IsOnItsWay (O.contents out.old) (O.contents out.new) page.new
        (page.old ++ taken_lines number body.now.items (results_of lists.old body.now.items))) }
    ensures kept { OnOk result (O.faults out.new ≡ O.faults out.old) }
    ensures stopped { IfErr result (λ stop. IsWritingStopped stop (O.faults out.old) (O.faults out.new)) }
    ensures err { OnErr result (HasPart (O.contents out.old) (O.contents out.new)
        (page.old ++ taken_lines number body.now.items (results_of lists.old body.now.items))) }
{
    let Ok(outcomes) = lists.take(alloc, body) else {
        return Err(Stop::OutOfMemory);
    };
    match print_body(
        number,
        body.items.as_slice(),
        outcomes.as_slice(),
        out,
        page,
    ) {
        Ok(()) => Ok(any_refused(outcomes.as_slice())),
        Err(stop) => Err(stop),
    }
}

/// Takes what a line is, and prints what became of it. Answers whether it has no reading or an update that
/// was refused.
fn take_reading<O: Sink>(
    alloc: Global,
    lists: &mut ClientLists,
    number: u64,
    reading: &Reading,
    out: &mut O,
    page: &mut Bytes,
) -> Result<bool, Stop>
    ensures lists { OnOk result (lists.new ≡ after_updates lists.old (updates_of_reading reading.now)) }
    ensures refused { IfOk result (λ refused. refused ≡ is_body_refused lists.old reading.now) }
    ensures text { OnOk result (IsOnItsWay (O.contents out.old) (O.contents out.new) page.new
        (page.old ++ body_lines number lists.old reading.now)) }
    ensures kept { OnOk result (O.faults out.new ≡ O.faults out.old) }
    ensures stopped { IfErr result (λ stop. IsWritingStopped stop (O.faults out.old) (O.faults out.new)) }
    ensures err { OnErr result (HasPart (O.contents out.old) (O.contents out.new)
        (page.old ++ body_lines number lists.old reading.now)) }
{
    match reading {
        Ok(body) => take_body(alloc, lists, number, body, out, page),
        Err(fault) => match print_unreadable(number, fault, out, page) {
            Ok(()) => Ok(true),
            Err(stop) => Err(stop),
        },
    }
}

/// Takes a line as a response body, and prints what became of it.
fn take_line<O: Sink>(
    alloc: Global,
    lists: &mut ClientLists,
    number: u64,
    line: &[u8],
    out: &mut O,
    page: &mut Bytes,
) -> Result<bool, Stop>
    ensures lists { (read : List ℕ → ReadingOf) → IsReader read →
        OnOk result (lists.new ≡ after_updates lists.old (updates_of_reading (read line.now))) }
    ensures refused { (read : List ℕ → ReadingOf) → IsReader read →
        IfOk result (λ refused. refused ≡ is_body_refused lists.old (read line.now)) }
    ensures text { (read : List ℕ → ReadingOf) → IsReader read →
        OnOk result (IsOnItsWay (O.contents out.old) (O.contents out.new) page.new
        (page.old ++ body_lines number lists.old (read line.now))) }
    ensures kept { OnOk result (O.faults out.new ≡ O.faults out.old) }
    ensures stopped { IfErr result (λ stop. IsWritingStopped stop (O.faults out.old) (O.faults out.new)) }
    ensures err { (read : List ℕ → ReadingOf) → IsReader read →
        OnErr result (HasPart (O.contents out.old) (O.contents out.new)
        (page.old ++ body_lines number lists.old (read line.now))) }
{
    let Ok(reading) = read_line(alloc, line) else {
        return Err(Stop::OutOfMemory);
    };
    take_reading(alloc, lists, number, &reading, out, page)
}

/// Takes the lines of an input in order, and prints what became of each. Answers whether one has no
/// reading or an update that was refused.
fn take_lines<O: Sink>(
    alloc: Global,
    lists: &mut ClientLists,
    input: &[u8],
    out: &mut O,
    page: &mut Bytes,
) -> Result<bool, Stop>
    requires page { page.old ≡ [] }
    requires within { length input.now ≤ MAX_INPUT }
    ensures lists { (read : List ℕ → ReadingOf) → IsReader read →
        OnOk result (lists.new ≡ lists_after lists.old (bodies_of (map read (lines_of input.now)))) }
    ensures refused { (read : List ℕ → ReadingOf) → IsReader read →
        IfOk result (λ refused. refused ≡ is_any_body_refused lists.old (map read (lines_of input.now))) }
    ensures text { (read : List ℕ → ReadingOf) → IsReader read →
        OnOk result (IsOnItsWay (O.contents out.old) (O.contents out.new) page.new
        (outcome_lines 1 lists.old (map read (lines_of input.now)))) }
    ensures kept { OnOk result (O.faults out.new ≡ O.faults out.old) }
    ensures stopped { IfErr result (λ stop. IsWritingStopped stop (O.faults out.old) (O.faults out.new)) }
    ensures err { (read : List ℕ → ReadingOf) → IsReader read →
        OnErr result (HasPart (O.contents out.old) (O.contents out.new)
        (outcome_lines 1 lists.old (map read (lines_of input.now)))) }
{
    let mut refused = false;
    let mut number = 1;
    let mut rest = input;
    while !rest.is_empty() {
        let (line, tail) = first_line(rest);
        match take_line(alloc, lists, number, line, out, page) {
            Ok(is_refused) => refused |= is_refused,
            Err(stop) => return Err(stop),
        }
        number += 1;
        rest = tail;
    }
    Ok(refused)
}

/// Prints the line of a prefix.
fn print_prefix<O: Sink>(prefix: &[u8], out: &mut O, page: &mut Bytes) -> Result<(), Stop>
    ensures text { OnOk result (IsOnItsWay (O.contents out.old) (O.contents out.new) page.new
        (page.old ++ prefix_line prefix.now)) }
    ensures kept { OnOk result (O.faults out.new ≡ O.faults out.old) }
    ensures stopped { IfErr result (λ stop. IsWritingStopped stop (O.faults out.old) (O.faults out.new)) }
    ensures err { OnErr result (HasFront (O.contents out.old) (O.contents out.new)
        (page.old ++ prefix_line prefix.now)) }
{
    match push_prefix_line(page, prefix) {
        Ok(()) => Ok(flush_if_full(out, page)?),
        Err(_) => Err(Stop::OutOfMemory),
    }
}

/// Prints the prefixes of a list.
fn print_prefixes<O: Sink>(held: &HeldList, out: &mut O, page: &mut Bytes) -> Result<(), Stop>
    ensures text { OnOk result (IsOnItsWay (O.contents out.old) (O.contents out.new) page.new
        (page.old ++ flat_map prefix_line held.now.set)) }
    ensures kept { OnOk result (O.faults out.new ≡ O.faults out.old) }
    ensures stopped { IfErr result (λ stop. IsWritingStopped stop (O.faults out.old) (O.faults out.new)) }
    ensures err { OnErr result (HasFront (O.contents out.old) (O.contents out.new)
        (page.old ++ flat_map prefix_line held.now.set)) }
{
    for prefix in held.set.iter() {
        if let Err(stop) = print_prefix(prefix, out, page) {
            return Err(stop);
        }
    }
    Ok(())
}

/// Prints a list with its prefixes.
fn print_list<O: Sink>(held: &HeldList, out: &mut O, page: &mut Bytes) -> Result<(), Stop>
    ensures text { OnOk result (IsOnItsWay (O.contents out.old) (O.contents out.new) page.new
        (page.old ++ list_lines held.now)) }
    ensures kept { OnOk result (O.faults out.new ≡ O.faults out.old) }
    ensures stopped { IfErr result (λ stop. IsWritingStopped stop (O.faults out.old) (O.faults out.new)) }
    ensures err { OnErr result (HasFront (O.contents out.old) (O.contents out.new)
        (page.old ++ list_lines held.now)) }
{
    let Ok(()) = push_list_line(page, held) else {
        return Err(Stop::OutOfMemory);
    };
    print_prefixes(held, out, page)
}

/// Prints lists with their prefixes.
fn print_lists<O: Sink>(lists: &[HeldList], out: &mut O, page: &mut Bytes) -> Result<(), Stop>
    ensures text { OnOk result (IsOnItsWay (O.contents out.old) (O.contents out.new) page.new
        (page.old ++ flat_map list_lines lists.now)) }
    ensures kept { OnOk result (O.faults out.new ≡ O.faults out.old) }
    ensures stopped { IfErr result (λ stop. IsWritingStopped stop (O.faults out.old) (O.faults out.new)) }
    ensures err { OnErr result (HasFront (O.contents out.old) (O.contents out.new)
        (page.old ++ flat_map list_lines lists.now)) }
{
    for held in lists {
        if let Err(stop) = print_list(held, out, page) {
            return Err(stop);
        }
    }
    Ok(())
}

/// Prints lists with their prefixes after what waits in the page, and nothing waits any more.
fn finish<O: Sink>(lists: &[HeldList], out: &mut O, page: &mut Bytes) -> Result<(), Stop>
    ensures text { OnOk result (O.contents out.new
        ≡ appended (O.contents out.old) (page.old ++ flat_map list_lines lists.now)) }
    ensures kept { OnOk result (O.faults out.new ≡ O.faults out.old) }
    ensures stopped { IfErr result (λ stop. IsWritingStopped stop (O.faults out.old) (O.faults out.new)) }
    ensures err { OnErr result (HasFront (O.contents out.old) (O.contents out.new)
        (page.old ++ flat_map list_lines lists.now)) }
{
    match print_lists(lists, out, page) {
        Ok(()) => Ok(flush(out, page)?),
        Err(stop) => Err(stop),
    }
}

/// Replays the bodies of an input to lists of which nothing is held before. Answers whether a body has no
/// reading or an update that was refused.
fn replay_input<O: Sink>(
    alloc: Global,
    names: &[ListName],
    input: &[u8],
    out: &mut O,
) -> Result<bool, Stop>
    requires some { names.now ≢ [] }
    requires few { length names.now ≤ most_lists }
    requires within { length input.now ≤ MAX_INPUT }
    ensures refused { (read : List ℕ → ReadingOf) → IsReader read →
        IfOk result (λ refused. refused ≡ is_any_body_refused (nothing_held_of names.now) (map read (lines_of input.now))) }
    ensures text { (read : List ℕ → ReadingOf) → IsReader read →
        OnOk result (O.contents out.new
        ≡ appended (O.contents out.old) (replay_text names.now (map read (lines_of input.now)))) }
    ensures kept { OnOk result (O.faults out.new ≡ O.faults out.old) }
    ensures stopped { IfErr result (λ stop. IsWritingStopped stop (O.faults out.old) (O.faults out.new)) }
    ensures err { (read : List ℕ → ReadingOf) → IsReader read →
        OnErr result (HasFront (O.contents out.old) (O.contents out.new)
        (replay_text names.now (map read (lines_of input.now)))) }
{
    let Ok(mut lists) = ClientLists::new(alloc, names) else {
        return Err(Stop::OutOfMemory);
    };
    let mut page = Bytes::new(alloc);
    let refused = match take_lines(alloc, &mut lists, input, out, &mut page) {
        Ok(refused) => refused,
        Err(stop) => return Err(stop),
    };
    match finish(lists.lists(), out, &mut page) {
        Ok(()) => Ok(refused),
        Err(stop) => Err(stop),
    }
}

/// Replays the bodies of an input to lists with these names, of which nothing is held before. The input is read to its next end
/// first: at most 201,326,592 bytes and 65,536 lines. Answers whether a body has no reading or an update that was refused.
///
/// # Errors
///
/// `ReadFault` and `PastLimits` where the input is not read to its end, and then nothing is written; `WriteFault` where the output
/// failed, and `OutOfMemory`.
pub fn replay<S: Source, O: Sink>(
    alloc: Global,
    names: &[ListName],
    input: &mut S,
    out: &mut O,
) -> Result<bool, Stop>
    requires some { names.now ≢ [] }
    requires few { length names.now ≤ most_lists }
    ensures printed { IfOk result (λ refused. IsPrinted names.now refused (S.left input.old) (S.left input.new) (O.contents out.old) (O.contents out.new)) }
    ensures read_fault { IsErrOf result Stop.ReadFault → Rose (S.faults input.old) (S.faults input.new)
        × GivesWithin (S.left input.old) (S.left input.new) × (out.new ≡ out.old) }
    ensures past { IsErrOf result Stop.PastLimits → GivesPast (S.left input.old) (S.left input.new) × (out.new ≡ out.old) }
    ensures write_fault { IsErrOf result Stop.WriteFault → Rose (O.faults out.old) (O.faults out.new)
        × IsPartlyPrinted names.now (S.left input.old) (S.left input.new) (O.contents out.old) (O.contents out.new) }
    ensures memory { IsErrOf result Stop.OutOfMemory → (O.contents out.new ≡ O.contents out.old)
        ⊎ IsPartlyPrinted names.now (S.left input.old) (S.left input.new) (O.contents out.old) (O.contents out.new) }
    ensures input_kept { result ≢ Err Stop.ReadFault → S.faults input.new ≡ S.faults input.old }
    ensures output_kept { result ≢ Err Stop.WriteFault → O.faults out.new ≡ O.faults out.old }
{
    values_read_or_have_a_fault();
    let text = match read_input(alloc, input) {
        Ok(text) => text,
        Err(fault) => return Err(Stop::from(fault)),
    };
    replay_input(alloc, names, text.as_slice(), out)
}
