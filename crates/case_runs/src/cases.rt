//! Cases one after the other.
use crate::running::{Programs, run};
use case_texts::{
    Book, CaseFault, Differences, Left, Met, Page, Place, Reader, Scope, Sheet, Span, between,
    check, compare_parts, field, given, numbers, size_of_number,
};
use sb_model::{Bytes, Row};
use std::alloc::Global;
use std::sync::Wait;
use std::thread::Threads;

/// How many cases there were, and what is printed.
#[derive(Drop)]
struct Summary {
    page: Page,
    cases: u64,
    differing: u64,
}

/// A case that was begun: its lines, and those under the heading of its group.
#[derive(Clone, Copy)]
struct Open {
    group: Span,
    case: Option<Span>,
}

/// A case: its lines, and those under the heading of its group. Its objects give and take at most so many bytes at once.
#[derive(Clone, Copy)]
struct Case<'a> {
    book: &'a Book,
    group: Span,
    span: Span,
    step: usize,
}

/// Runs all cases of a book, and says what is printed.
pub fn run_book<R: Threads + Wait + Sync, P: Programs>(
    rt: &R,
    programs: &P,
    alloc: Global,
    book: &Book,
) -> Result<Bytes, CaseFault> {
    let mut summary = Summary {
        page: Page::new(alloc),
        cases: 0,
        differing: 0,
    };
    run_cases(rt, programs, alloc, book, &mut summary);
    summary.end();
    summary.into_page().into_bytes()
}

fn run_cases<R: Threads + Wait + Sync, P: Programs>(
    rt: &R,
    programs: &P,
    alloc: Global,
    book: &Book,
    summary: &mut Summary,
) {
    let mut open = Open {
        group: Span { from: 0, to: 0 },
        case: None,
    };
    for number in 0..book.sheet.len() {
        if is_heading(book.sheet.line(number)) {
            end_case(rt, programs, alloc, book, open, number, summary);
            open = next_open(open, book.sheet.line(number).starts_with(b"## "), number);
        }
    }
    end_case(rt, programs, alloc, book, open, book.sheet.len(), summary);
}

/// Whether a line begins a group or a case.
fn is_heading(line: &[u8]) -> bool {
    line.starts_with(b"# ") || line.starts_with(b"## ")
}

/// What is open after the heading of a case or of a group.
fn next_open(open: Open, is_case: bool, number: usize) -> Open {
    let span = Span {
        from: number.saturating_add(1),
        to: number,
    };
    if !is_case {
        return Open {
            group: span,
            case: None,
        };
    }
    let group = match open.case {
        Some(_) => open.group,
        None => Span {
            from: open.group.from,
            to: number,
        },
    };
    Open {
        group,
        case: Some(span),
    }
}

/// Runs the case that is open, and tells how it differs. After a fault nothing is run.
fn end_case<R: Threads + Wait + Sync, P: Programs>(
    rt: &R,
    programs: &P,
    alloc: Global,
    book: &Book,
    open: Open,
    end: usize,
    summary: &mut Summary,
) {
    let Some(begun) = open.case else {
        return;
    };
    if !summary.page.faults.is_none() {
        return;
    }
    let from = begun.from;
    let case = Case {
        book,
        group: open.group,
        span: Span { from, to: end },
        step: usize::MAX,
    };
    let mut differences = Differences::new(alloc);
    run_case(rt, programs, alloc, case, &mut differences);
    summary.add(book.sheet.line(from.saturating_sub(1)), &differences);
}

impl Summary {
    /// Adds a case with this heading.
    fn add(&mut self, heading: &[u8], differences: &Differences) {
        self.cases = self.cases.saturating_add(1);
        self.page.faults.join(&differences.page.faults);
        if !differences.page.bytes.is_empty() {
            self.tell(heading, differences);
        }
    }

    /// Tells of a case with this heading, and of its differences.
    fn tell(&mut self, heading: &[u8], differences: &Differences) {
        self.differing = self.differing.saturating_add(1);
        self.page.put(between(heading, 3, heading.len()));
        self.page.put(b"\n");
        self.page.put(differences.page.bytes.as_slice());
    }

    /// Tells how many cases there were.
    fn end(&mut self) {
        self.page.put_number(self.cases);
        self.page.put(b" cases, ");
        self.page.put_number(self.differing);
        if self.differing == 1 {
            self.page.put(b" differs\n");
        } else {
            self.page.put(b" differ\n");
        }
    }

    fn into_page(self) -> Page {
        let Self { page, .. } = self;
        page
    }
}

/// The lines of a case are parted in runs by `again`: where the run ends that begins at a line.
fn run_end(sheet: &Sheet, from: usize, end: usize) -> usize {
    for line in from..end {
        if sheet.line(line) == b"again".as_slice() {
            return line;
        }
    }
    end
}

/// The first differences of a case, over each step and each round.
fn run_case<R: Threads + Wait + Sync, P: Programs>(
    rt: &R,
    programs: &P,
    alloc: Global,
    case: Case<'_>,
    differences: &mut Differences,
) {
    let mut reader = Reader::new(alloc, 0);
    let steps = case.steps(&mut reader);
    differences.page.faults.join(&reader.faults);
    let mut met = Met::new(alloc);
    for step in steps.iter() {
        if differences.is_decided() {
            break;
        }
        run_rounds(
            rt,
            programs,
            alloc,
            case.with_step(*step),
            &mut met,
            differences,
        );
    }
    if !differences.is_decided() {
        met.tell(&case.book.sheet, case.span, differences);
    }
}

impl<'a> Case<'a> {
    /// The steps of its objects, of which the greatest number is all at once. The lines of its group are looked at, too.
    fn steps(&self, reader: &mut Reader) -> Row<u64> {
        check(reader, &self.book.sheet, self.group);
        let scope = self.scope(self.span.from, self.span.to);
        let line = field(&self.book.sheet, &scope, b"steps");
        let mut steps = numbers(reader, &self.book.sheet, line);
        if steps.is_empty() {
            let done = steps.push(u64::MAX);
            reader.faults.note(done);
        }
        steps
    }

    fn with_step(self, step: u64) -> Self {
        Case {
            book: self.book,
            group: self.group,
            span: self.span,
            step: size_of_number(step),
        }
    }

    /// The lines of a run of it.
    fn scope(&self, from: usize, to: usize) -> Scope {
        Scope {
            own: Span { from, to },
            before: Span {
                from: self.span.from,
                to: from,
            },
            group: self.group,
        }
    }
}

/// The first differences of a case at a step, over each round.
fn run_rounds<R: Threads + Wait + Sync, P: Programs>(
    rt: &R,
    programs: &P,
    alloc: Global,
    case: Case<'_>,
    met: &mut Met,
    differences: &mut Differences,
) {
    let mut cut = 0;
    for _ in 0..u64::MAX {
        let mut reader = Reader::new(alloc, cut);
        run_runs(rt, programs, &mut reader, case, met, differences);
        differences.page.faults.join(&reader.faults);
        cut = cut.saturating_add(1);
        if differences.is_decided() || !reader.goes_on() {
            break;
        }
    }
}

/// The differences of the runs of a case. Each but the first begins with what the keeper kept in the one before.
fn run_runs<R: Threads + Wait + Sync, P: Programs>(
    rt: &R,
    programs: &P,
    reader: &mut Reader,
    case: Case<'_>,
    met: &mut Met,
    differences: &mut Differences,
) {
    let mut store: Option<Bytes> = None;
    let mut from = case.span.from;
    for _ in 0..u64::MAX {
        let to = run_end(&case.book.sheet, from, case.span.to);
        let place = Place {
            book: case.book,
            scope: case.scope(from, to),
            step: case.step,
        };
        run_one(rt, programs, reader, &place, &mut store, met, differences);
        from = to.saturating_add(1);
        if to >= case.span.to || !reader.faults.is_none() {
            break;
        }
    }
}

/// Makes a run, which begins with this store and leaves another, and compares what it left.
fn run_one<R: Threads + Wait + Sync, P: Programs>(
    rt: &R,
    programs: &P,
    reader: &mut Reader,
    place: &Place<'_>,
    store: &mut Option<Bytes>,
    met: &mut Met,
    differences: &mut Differences,
) {
    check(reader, &place.book.sheet, place.scope.own);
    if let Some(left) = run(rt, programs, reader, &given(place), store.take()) {
        compare_left(reader, place, &left, met, differences);
        *store = copy_of(reader, left.objects.keep.kept());
    }
}

/// Compares what a run left, if there was no fault.
fn compare_left(
    reader: &mut Reader,
    place: &Place<'_>,
    left: &Left,
    met: &mut Met,
    differences: &mut Differences,
) {
    if reader.faults.is_none() {
        compare_parts(reader, place, left, met, differences);
    }
}

fn copy_of(reader: &mut Reader, text: Option<&Bytes>) -> Option<Bytes> {
    match text {
        Some(text) => Some(reader.copy_of(text.as_slice())),
        None => None,
    }
}
