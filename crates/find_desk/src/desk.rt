ghost use Rattle.std.specs.Prelude.{◌≡◌, ◌≤◌, ◌<◌, Bool, false, List, [], ◌∷◌, ◌++◌, Some, None, is_some, length, IfOk, IfSome, OnErr, OnOk};
ghost use Rattle.client_line.specs.Lines.{LineView};
ghost use Rattle.find_desk.specs.Desk.{desk_start, looked_up, BreaksOffAsking, DeskStart, EndsDeskFind, HasBegunAsking, HasDeskOpen, HasKeptDesk, StopsAtItsBeginning, StopsAtItsEnd};
ghost use Rattle.find_desk.specs.Events.{DeskEvent, Forgot};
ghost use Rattle.find_desk.specs.Verdicts.{is_left_undecided, IsLookIn, IsVerdictByLook, IsVerdictIn};
ghost use Rattle.hash_messages.specs.Messages.{most_prefixes};
ghost use Rattle.http_edge.specs.Exchanges.{IsTarget};
ghost use Rattle.http_edge.specs.declared.messages.Target.{Target as Asked};
ghost use Rattle.url_checker.specs.Hits.{prefixes_hit, AreAskable};
ghost use Rattle.url_checker.specs.Resolving.{looked_up_pairs};
ghost use Rattle.url_checker.specs.Several.{AreTogether, IsLookOf};
ghost use Rattle.url_checker.specs.declared.findings.Hit.{Hit as SeenHit};
ghost use Rattle.url_checker.specs.declared.looking.Looks.{Looks as SeenLooks};
ghost use Rattle.wait_rules.specs.Waits.{may_send_at};

use client_line::Line;
use hash_messages::FindResponse;
use http_edge::Target;
use sb_model::{Bytes, Moment, OutOfMemory, Row};
use std::alloc::Global;
use std::marker::Model;
use timed_sessions::traces_go_on;
use url_checker::{
    Finds, Hit, Looks, OpenFind, Together, begin_find_for, end_find_for,
    finds_for_several_begin_with_one, hits_together, look, verdict_by_answer,
};
use verdict_report::{Cause, Verdict};
use wait_rules::WaitState;

/// A find whose session is open: the hits that it asks for, the states that it carries, what the clock read before it, and the find.
#[derive(Drop)]
pub struct OpenDeskFind {
    pub asked: Row<Hit>,
    pub states: Row<Bytes>,
    pub now: Moment,
    pub find: OpenFind,
}

/// A find that was ended: the hits that it asked for, how many prefixes these have, when its session began, and the message that came, or why
/// none did.
#[derive(Drop)]
pub struct EndedFind {
    pub asked: Row<Hit>,
    pub prefixes: usize,
    pub at: Moment,
    pub answer: Result<FindResponse, Cause>,
}

/// A desk of finds: the answers that are kept, when the session of the next find may begin, and the find that is open.
#[derive(Drop)]
pub struct FindDesk {
    finds: Finds,
    opened: Option<OpenDeskFind>,
}

impl Model for FindDesk {
    ghost use Rattle.find_desk.specs.Desk.{DeskSeen};

    ghost Value = { DeskSeen };

    ghost view = { λ d. record { kept = d.finds.cache; waits = d.finds.waits; opened = d.opened } };
}

// A find that was begun, and for how many of the first looks it asks.
#[derive(Drop)]
struct Asking {
    count: usize,
    find: OpenDeskFind,
}

// Begins a find for the open hits of as many of the first looks as it may ask for, with these states, in this state of waiting.
fn begin_asking<N: Line>(
    alloc: Global,
    looks: &[Looks],
    states: Row<Bytes>,
    waits: WaitState,
    target: &Target,
    line: &mut N,
) -> Result<Asking, OutOfMemory>
    requires { IsTarget target.now }
    ensures begun { IfOk result (λ asking. HasBegunAsking target.now waits (N.view line.old) (N.view line.new) asking.find) }
    ensures carries { IfOk result (λ asking. asking.find.states ≡ states) }
    ensures asks { IfOk result (λ asking. AreTogether looks.now (record { count = asking.count; asked = asking.find.asked })) }
    ensures stopped { OnErr result (BreaksOffAsking target.now waits states looks.now (N.view line.old) (N.view line.new)) }
    ensures counted { (N.view line.old).told.faults ≤ (N.view line.new).told.faults }
    ensures same { (N.view line.new).objects ≡ (N.view line.old).objects }
{
    let now = line.now();
    let Together { count, asked } = hits_together(alloc, looks)?;
    let find = begin_find_for(alloc, now, asked.as_slice(), &states, waits, target, line)?;
    Ok(Asking {
        count,
        find: OpenDeskFind {
            asked,
            states,
            now,
            find,
        },
    })
}

// How many prefixes a find asks for.
fn count_asked(find: &OpenFind) -> usize
    ensures { result ≡ length find.now.request.prefixes }
{
    find.request.prefixes.len()
}

// When the session of a find began.
fn begun_at(find: &OpenFind) -> Moment
    ensures { result ≡ find.now.opening.begun }
{
    find.opening.begun
}

impl FindDesk {
    // Drops what is kept.
    fn forget(&mut self)
        ensures { self.new ≡ record self.old { kept = [] } }
    {
        self.finds.cache.clear();
    }

    // Holds a find open.
    fn hold(&mut self, find: OpenDeskFind)
        ensures { self.new ≡ record self.old { opened = Some find } }
    {
        self.opened = Some(find);
    }

    /// Nothing is kept and no find is made yet: the first may begin when this state of waiting says so.
    pub fn new(alloc: Global, waits: WaitState) -> Result<FindDesk, OutOfMemory>
        ensures first { IfOk result (λ desk. desk ≡ record { kept = []; waits = waits; opened = None }) }
        ensures begins { (target : Asked) (need : Bool) (line : LineView)
            → IfOk result (λ desk. HasKeptDesk target need (desk_start desk line) [] desk line) }
    {
        traces_go_on();
        let finds = Finds::new(alloc, waits)?;
        Ok(FindDesk {
            finds,
            opened: None,
        })
    }

    /// Whether a find is open.
    pub fn is_open(&self) -> bool
        ensures { result ≡ is_some self.now.opened }
    {
        self.opened.is_some()
    }

    /// Whether the session of the next find may begin now.
    pub fn may_send(&self, now: Moment) -> bool
        ensures { result ≡ may_send_at self.now.waits now }
    {
        self.finds.waits.may_send(now)
    }

    /// The first moment at which the session of the next find may begin.
    pub fn allowed_at(&self) -> Moment
        ensures { result ≡ self.now.waits.allowed_at }
    {
        self.finds.waits.allowed_at
    }

    /// Looks hits up in what is kept, as it stands at a moment, also while a find is open. If memory is refused, what was kept is dropped.
    pub fn look(&mut self, alloc: Global, now: Moment, hits: &[Hit]) -> Result<Looks, OutOfMemory>
        requires { AreAskable hits.now }

        // This is what is said of each hit, and one find may ask for those that are open.
        ensures is { IfOk result (IsLookOf self.old.kept now hits.now) }
        ensures few { IfOk result (λ look. length (prefixes_hit look.asked) ≤ most_prefixes) }

        // The look is one more event.
        ensures looked { (target : Asked) (need : Bool) (start : DeskStart) (events : List DeskEvent) (line : LineView)
            → HasKeptDesk target need start events self.old line
            → IfOk result (λ look. HasKeptDesk target need start (events ++ looked_up now hits.now ∷ []) self.new line
            × IsLookIn start (events ++ looked_up now hits.now ∷ []) hits.now look) }

        // If memory was refused, what is kept was dropped, as one more event.
        ensures forgot { (target : Asked) (need : Bool) (start : DeskStart) (events : List DeskEvent) (line : LineView)
            → HasKeptDesk target need start events self.old line
            → OnErr result (HasKeptDesk target need start (events ++ Forgot ∷ []) self.new line) }

        // Nothing else changes.
        ensures after { OnOk result (self.new ≡ record self.old { kept = looked_up_pairs self.old.kept hits.now }) }
        ensures dropped { OnErr result (self.new ≡ record self.old { kept = [] }) }
    {
        match look(alloc, now, hits, &mut self.finds.cache) {
            Ok(looks) => Ok(looks),
            Err(OutOfMemory) => {
                self.forget();
                Err(OutOfMemory)
            }
        }
    }

    /// The verdict of a look by what was kept alone. Hits that it left open are open until the allowed moment.
    pub fn verdict_at_once(&self, alloc: Global, look: &Looks) -> Result<Verdict, OutOfMemory>
        ensures given { (target : Asked) (need : Bool) (start : DeskStart) (events : List DeskEvent) (line : LineView) (hits : List SeenHit)
            → HasKeptDesk target need start events self.now line → IsLookIn start events hits look.now
            → IfOk result (IsVerdictIn start events hits) }
        ensures by_look { (start : DeskStart) (events : List DeskEvent) (hits : List SeenHit)
            → IsLookIn start events hits look.now → IfOk result (IsVerdictByLook start events hits) }

        // A look that left no hit open leaves no verdict open.
        ensures decided { (start : DeskStart) (events : List DeskEvent) (hits : List SeenHit)
            → IsLookIn start events hits look.now → look.now.asked ≡ [] → IfOk result (λ verdict. is_left_undecided verdict ≡ false) }
    {
        let unasked = Err(Cause::NotBefore(self.finds.waits.allowed_at));
        verdict_by_answer(alloc, look, &unasked)
    }

    /// Begins a find for the open hits of as many of the first looks as have at most 1,024 prefixes together, and says for how many looks it
    /// asks. It carries these states. The clock is read, and the session begins when it may and stays open ("Request Frequency" of the
    /// Safe Browsing Update API, version 4). The line waits for the allowed moment if it did not come yet. If memory is refused, no session is
    /// open, the find is stopped, and a further one may be begun.
    pub fn begin<N: Line>(
        &mut self,
        alloc: Global,
        looks: &[Looks],
        states: Row<Bytes>,
        target: &Target,
        line: &mut N,
    ) -> Result<usize, OutOfMemory>
        requires closed { self.old.opened ≡ None }
        requires target { IsTarget target.now }

        // After some events a find is open, which asks for exactly these open hits, with these states.
        ensures begun { (need : Bool) (start : DeskStart) (events : List DeskEvent)
            → HasKeptDesk target.now need start events self.old (N.view line.old)
            → OnOk result (HasKeptDesk target.now need start events self.new (N.view line.new)) }
        ensures opened { OnOk result (HasDeskOpen target.now self.new (N.view line.new)) }
        ensures asks { IfOk result (λ count. IfSome self.new.opened (λ find. (find.states ≡ states)
            × AreTogether looks.now (record { count = count; asked = find.asked }))) }

        // It asks for the first look at least, if one find may ask for it.
        ensures some { (look : SeenLooks) (looks' : List SeenLooks) → looks.now ≡ look ∷ looks' → length (prefixes_hit look.asked) ≤ most_prefixes
            → IfOk result (λ count. 0 < count) }

        // If memory was refused, the find is one more event.
        ensures stopped { (need : Bool) (start : DeskStart) (events : List DeskEvent)
            → HasKeptDesk target.now need start events self.old (N.view line.old)
            → OnErr result (StopsAtItsBeginning target.now need start events self.new (N.view line.new) states looks.now) }

        // Nothing else changes.
        ensures kept { self.new.kept ≡ self.old.kept }
        ensures waits { self.new.waits ≡ self.old.waits }
        ensures as_before { OnErr result (self.new ≡ self.old) }

        // A fault of the link is counted.
        ensures counted { (N.view line.old).told.faults ≤ (N.view line.new).told.faults }

        // The line's objects are the same.
        ensures same { (N.view line.new).objects ≡ (N.view line.old).objects }
    {
        traces_go_on();
        finds_for_several_begin_with_one();
        let Asking { count, find } = begin_asking(
            alloc,
            looks,
            states,
            self.finds.waits,
            target,
            line,
        )?;
        self.hold(find);
        Ok(count)
    }

    /// Ends the find that is open, and gives what came, which is kept. Since it was begun nothing of the line may have been used. If memory is
    /// refused, the find is stopped and what was kept is dropped: its session was closed, the state of waiting is as before, and a further
    /// find may be begun.
    pub fn end<N: Line>(
        &mut self,
        alloc: Global,
        target: &Target,
        need_digest: bool,
        line: &mut N,
    ) -> Result<EndedFind, OutOfMemory>
        requires session { HasDeskOpen target.now self.old (N.view line.old) }

        // It says how many prefixes the hits have that were asked, and when its session began.
        ensures told { IfOk result (λ ended. IfSome self.old.opened (λ find. (ended.at ≡ find.find.opening.begun)
            × (ended.prefixes ≡ length (prefixes_hit find.asked)))) }

        // It is one more event.
        ensures ended { (start : DeskStart) (events : List DeskEvent)
            → HasKeptDesk target.now need_digest start events self.old (N.view line.old)
            → IfOk result (λ ended. IfSome self.old.opened (λ find.
            EndsDeskFind target.now need_digest start events self.new (N.view line.new) find ended)) }

        // If memory was refused, it was stopped and what was kept is dropped.
        ensures stopped { (start : DeskStart) (events : List DeskEvent)
            → HasKeptDesk target.now need_digest start events self.old (N.view line.old)
            → OnErr result (IfSome self.old.opened (λ find.
            StopsAtItsEnd target.now need_digest start events self.new (N.view line.new) find)) }
        ensures closed { self.new.opened ≡ None }
        ensures waits_kept { OnErr result (self.new.waits ≡ self.old.waits) }
        ensures dropped { OnErr result (self.new.kept ≡ []) }
        ensures counted { (N.view line.old).told.faults ≤ (N.view line.new).told.faults }

        // The line's objects are the same.
        ensures same { (N.view line.new).objects ≡ (N.view line.old).objects }
    {
        traces_go_on();
        let Some(begun) = self.opened.take() else {
            unreachable!()
        };
        let OpenDeskFind {
            asked,
            states: _,
            now: _,
            find,
        } = begun;
        let prefixes = count_asked(&find);
        let at = begun_at(&find);
        match end_find_for(
            alloc,
            asked.as_slice(),
            find,
            &mut self.finds,
            need_digest,
            line,
        ) {
            Ok(answer) => Ok(EndedFind {
                asked,
                prefixes,
                at,
                answer,
            }),
            Err(OutOfMemory) => {
                self.forget();
                Err(OutOfMemory)
            }
        }
    }
}
