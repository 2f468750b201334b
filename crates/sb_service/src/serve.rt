ghost use Rattle.std.specs.Prelude.{◌≡◌, ◌≢◌, ◌⊎◌, ◌+◌, ◌≤◌, ℕ, List, Option, None, Some, Ok, Err, false, true, IfNone, IfSome, IfErr};
ghost use Rattle.sb_outside.specs.Outside.{Rose};
ghost use Rattle.sb_outside.specs.declared.doors.Connection.{Connection};
ghost use Rattle.list_versions.specs.declared.fault.JournalFault.{JournalFault};
ghost use Rattle.http_serving.specs.Returning.{IsFresh};
ghost use Rattle.sb_service.specs.Kept.{AreKeptOf};
ghost use Rattle.sb_service.specs.Serving.{HasGrown, HasHeld, HasHeldOn, HasRun, HasStayed, HeldEnds, IsLined, IsOpened, IsJournalRefusal, IsServeRun, IsTaken, IsConnectionTold, IsTurn, StopsAtTurn, serve_view};
ghost use Rattle.sb_service.specs.Stops.{status_of};
ghost use Rattle.sb_service.specs.declared.serve.Further.{Further as Goes};

use crate::answer::answer_fault;
use crate::connection::ListServer;
use crate::kept::{Wishes, nothing_kept};
use crate::stop::Stop;
use delta_server::Settings;
use http_edge::ResponseFault;
use http_serving::{ConnectionEnd, KeptAnswers, give_back, print_connection, serve_wire};
use list_versions::{History, JournalFault, cuts_make_no_difference};
use sb_model::OutOfMemory;
use sb_outside::{Door, Failed, Sink, Source};
use std::alloc::Global;
use std::mem;

/// How to serve.
#[derive(Clone, Copy, Debug)]
pub(crate) struct ServePlan {
    pub settings: Settings,
    /// How many connections, at least one.
    pub connections: u32,
    /// Whether a bad line of the journal that is met later is told, and the lists served on as they are.
    pub hold: bool,
    /// Whether no line is printed for a connection.
    pub quiet: bool,
}

/// How a run goes on after a connection.
#[derive(Clone, Copy, Debug, PartialEq, Eq)]
enum Further {
    /// The journal is looked at before the next one.
    Looking,
    /// A bad line was told. The lists are held as they are.
    Holding,
}

/// What is served: the history that the journal told so far, and the answers that are kept of it.
#[derive(Drop)]
struct Served {
    history: History,
    kept: KeptAnswers<Wishes>,
}

/// Prints the line of a connection that ended. Answers `Done`, or what ends the run.
fn print_end<O: Sink>(alloc: Global, number: u32, end: &ConnectionEnd, out: &mut O) -> Stop
    ensures lined { IsLined false number end.now (status_of result) (O.contents out.old) (O.contents out.new) }
    ensures failed { result ≡ Stop.WriteFault → Rose (O.faults out.old) (O.faults out.new) }
    ensures kept { result ≢ Stop.WriteFault → O.faults out.new ≡ O.faults out.old }
{
    match print_connection(alloc, number, end, out) {
        Ok(()) => Stop::Done,
        Err(ResponseFault::WriteFault) => Stop::WriteFault,
        Err(ResponseFault::OutOfMemory) => Stop::OutOfMemory,
    }
}

/// The same, unless the run is quiet.
fn tell_end<O: Sink>(
    alloc: Global,
    quiet: bool,
    number: u32,
    end: &ConnectionEnd,
    out: &mut O,
) -> Stop
    ensures lined { IsLined quiet number end.now (status_of result) (O.contents out.old) (O.contents out.new) }
    ensures ends { (result ≡ Stop.Done) ⊎ (result ≡ Stop.WriteFault) ⊎ (result ≡ Stop.OutOfMemory) }
    ensures failed { result ≡ Stop.WriteFault → Rose (O.faults out.old) (O.faults out.new) }
    ensures kept { result ≢ Stop.WriteFault → O.faults out.new ≡ O.faults out.old }
{
    if quiet {
        return Stop::Done;
    }
    print_end(alloc, number, end, out)
}

/// Serves a connection by what is kept or anew, gives it back, and prints its line unless the plan is quiet. Answers `Done`, or
/// what ends the run.
fn serve_taken<O: Sink, D: Door>(
    alloc: Global,
    history: &History,
    plan: &ServePlan,
    kept: &mut KeptAnswers<Wishes>,
    number: u32,
    out: &mut O,
    door: &mut D,
    wire: D::Wire,
) -> Stop
    requires { AreKeptOf history.now.versions plan.now.settings kept.old }
    ensures told { (before : Option (List Connection)) (pieces : List (List ℕ))
        → IsOpened before (D.log door.old) (D.Wire.number wire)
        → IsFresh pieces (D.Wire.start wire) (D.Wire.left wire) (D.Wire.contents wire) (D.Wire.Source.faults wire) (D.Wire.Sink.faults wire)
        → IsConnectionTold history.now.versions plan.now number (status_of result) pieces before (D.log door.new)
        (O.contents out.old) (O.contents out.new) }
    ensures ends { (result ≡ Stop.Done) ⊎ (result ≡ Stop.WriteFault) ⊎ (result ≡ Stop.OutOfMemory) }
    ensures failed { result ≡ Stop.WriteFault → Rose (O.faults out.old) (O.faults out.new) }
    ensures kept { result ≢ Stop.WriteFault → O.faults out.new ≡ O.faults out.old }
    ensures door_kept { D.faults door.new ≡ D.faults door.old }
    ensures coming { D.coming door.new ≡ D.coming door.old }
    ensures answers { AreKeptOf history.now.versions plan.now.settings kept.new }
{
    let mut server = ListServer {
        history,
        settings: &plan.settings,
        kept: mem::replace(kept, nothing_kept(alloc)),
    };
    let end = serve_wire(alloc, &mut server, door, wire);
    *kept = server.into_kept();
    tell_end(alloc, plan.quiet, number, &end, out)
}

/// Says why the journal was refused, and answers what ends the run.
fn refuse<O: Sink>(alloc: Global, fault: JournalFault, out: &mut O) -> Stop
    ensures refusal { IsJournalRefusal fault (status_of result) (O.contents out.old) (O.contents out.new) }
    ensures ends { (result ≡ Stop.ReadFault) ⊎ (result ≡ Stop.WriteFault) ⊎ (result ≡ Stop.BadJournal) ⊎ (result ≡ Stop.OutOfMemory) }
    ensures journal_failed { result ≡ Stop.ReadFault → fault ≡ JournalFault.ReadFault }
    ensures journal_kept { result ≢ Stop.ReadFault → fault ≢ JournalFault.ReadFault }
    ensures failed { result ≡ Stop.WriteFault → Rose (O.faults out.old) (O.faults out.new) }
    ensures kept { result ≢ Stop.WriteFault → O.faults out.new ≡ O.faults out.old }
{
    match answer_fault(alloc, fault, out) {
        Ok(stop) => stop,
        Err(OutOfMemory) => Stop::OutOfMemory,
    }
}

/// Whether the journal has a bad line, of which the cause was told.
fn is_bad_journal(stop: Stop) -> bool
    ensures bad { result ≡ true → stop ≡ Stop.BadJournal }
    ensures other { result ≡ false → stop ≢ Stop.BadJournal }
{
    match stop {
        Stop::BadJournal => true,
        _ => false,
    }
}

/// How a run goes on, unless this ends it.
fn goes_on(stop: Stop, further: Further) -> Result<Further, Stop>
    ensures ok { (other : Goes) → result ≡ Ok other → (other ≡ further) × (stop ≡ Stop.Done) }
    ensures err { IfErr result (λ other. (other ≡ stop) × (stop ≢ Stop.Done)) }
{
    match stop {
        Stop::Done => Ok(further),
        stop => Err(stop),
    }
}

/// Lets the history grow from the journal, and serves a connection that the door gave. If the journal told a change or
/// declared a list, nothing is kept any more: a list that it declares now was left out of what was kept. A record that has
/// only begun changes no answer. A bad line is told; if the plan says so, the connection is served over the history as it
/// was, and else it goes back. Answers how the run goes on, or what ends it.
fn take_turn<J: Source, O: Sink, D: Door>(
    alloc: Global,
    served: &mut Served,
    plan: &ServePlan,
    number: u32,
    journal: &mut J,
    out: &mut O,
    door: &mut D,
    wire: D::Wire,
) -> Result<Further, Stop>
    requires { AreKeptOf served.old.history.versions plan.now.settings served.old.kept }
    ensures looking { (before : Option (List Connection)) (coming : Option (List (List (List ℕ)))) (pieces : List (List ℕ))
        → IsOpened before (D.log door.old) (D.Wire.number wire) → IsTaken pieces coming (D.coming door.old)
        → IsFresh pieces (D.Wire.start wire) (D.Wire.left wire) (D.Wire.contents wire) (D.Wire.Source.faults wire) (D.Wire.Sink.faults wire)
        → result ≡ Ok Further.Looking → HasGrown plan.now number 0
        (record { left = J.left journal.old; kept = served.old.history; held = O.contents out.old; log = before; coming = coming })
        (record { left = J.left journal.new; kept = served.new.history; held = O.contents out.new; log = D.log door.new; coming = D.coming door.new }) }
    ensures holding { (before : Option (List Connection)) (coming : Option (List (List (List ℕ)))) (pieces : List (List ℕ))
        → IsOpened before (D.log door.old) (D.Wire.number wire) → IsTaken pieces coming (D.coming door.old)
        → IsFresh pieces (D.Wire.start wire) (D.Wire.left wire) (D.Wire.contents wire) (D.Wire.Source.faults wire) (D.Wire.Sink.faults wire)
        → result ≡ Ok Further.Holding → (plan.now.hold ≡ true) × HasHeld plan.now number 0
        (record { left = J.left journal.old; kept = served.old.history; held = O.contents out.old; log = before; coming = coming })
        (record { left = J.left journal.new; kept = served.new.history; held = O.contents out.new; log = D.log door.new; coming = D.coming door.new }) }
    ensures stops { (before : Option (List Connection)) (coming : Option (List (List (List ℕ)))) (pieces : List (List ℕ))
        → IsOpened before (D.log door.old) (D.Wire.number wire) → IsTaken pieces coming (D.coming door.old)
        → IsFresh pieces (D.Wire.start wire) (D.Wire.left wire) (D.Wire.contents wire) (D.Wire.Source.faults wire) (D.Wire.Sink.faults wire)
        → IfErr result (λ stop. IsTurn plan.now.hold plan.now number (status_of stop)
        (record { left = J.left journal.old; kept = served.old.history; held = O.contents out.old; log = before; coming = coming })
        (record { left = J.left journal.new; kept = served.new.history; held = O.contents out.new; log = D.log door.new; coming = D.coming door.new })) }
    ensures ends { IfErr result (λ stop. (stop ≡ Stop.ReadFault) ⊎ (stop ≡ Stop.WriteFault) ⊎ (stop ≡ Stop.BadJournal) ⊎ (stop ≡ Stop.OutOfMemory)) }
    ensures read_failed { result ≡ Err Stop.ReadFault → Rose (J.faults journal.old) (J.faults journal.new) }
    ensures read_kept { result ≢ Err Stop.ReadFault → J.faults journal.new ≡ J.faults journal.old }
    ensures failed { result ≡ Err Stop.WriteFault → Rose (O.faults out.old) (O.faults out.new) }
    ensures kept { result ≢ Err Stop.WriteFault → O.faults out.new ≡ O.faults out.old }
    ensures door_kept { D.faults door.new ≡ D.faults door.old }
    ensures coming { D.coming door.new ≡ D.coming door.old }
    ensures answers { AreKeptOf served.new.history.versions plan.now.settings served.new.kept }
{
    match served.history.grow_if_more(alloc, journal) {
        Ok(grown) => {
            served.kept.forget_if(grown);
            let stop = serve_taken(
                alloc,
                &served.history,
                plan,
                &mut served.kept,
                number,
                out,
                door,
                wire,
            );
            goes_on(stop, Further::Looking)
        }
        Err(fault) => {
            let stop = refuse(alloc, fault, out);
            if plan.hold && is_bad_journal(stop) {
                let stop = serve_taken(
                    alloc,
                    &served.history,
                    plan,
                    &mut served.kept,
                    number,
                    out,
                    door,
                    wire,
                );
                return goes_on(stop, Further::Holding);
            }
            give_back(door, wire);
            Err(stop)
        }
    }
}

/// Takes the next connection, and what follows on it. Answers how the run goes on, or what ends it.
fn take_next<J: Source, O: Sink, D: Door>(
    alloc: Global,
    served: &mut Served,
    plan: &ServePlan,
    number: u32,
    journal: &mut J,
    out: &mut O,
    door: &mut D,
) -> Result<Further, Stop>
    requires { AreKeptOf served.old.history.versions plan.now.settings served.old.kept }
    ensures looking { result ≡ Ok Further.Looking → HasGrown plan.now number 0
        (record { left = J.left journal.old; kept = served.old.history; held = O.contents out.old; log = D.log door.old; coming = D.coming door.old })
        (record { left = J.left journal.new; kept = served.new.history; held = O.contents out.new; log = D.log door.new; coming = D.coming door.new }) }
    ensures holding { result ≡ Ok Further.Holding → (plan.now.hold ≡ true) × HasHeld plan.now number 0
        (record { left = J.left journal.old; kept = served.old.history; held = O.contents out.old; log = D.log door.old; coming = D.coming door.old })
        (record { left = J.left journal.new; kept = served.new.history; held = O.contents out.new; log = D.log door.new; coming = D.coming door.new }) }
    ensures stops { IfErr result (λ stop. StopsAtTurn plan.now.hold plan.now number (status_of stop)
        (record { left = J.left journal.old; kept = served.old.history; held = O.contents out.old; log = D.log door.old; coming = D.coming door.old })
        (record { left = J.left journal.new; kept = served.new.history; held = O.contents out.new; log = D.log door.new; coming = D.coming door.new })) }
    ensures ends { IfErr result (λ stop.
        (stop ≡ Stop.Done) ⊎ (stop ≡ Stop.ReadFault) ⊎ (stop ≡ Stop.WriteFault) ⊎ (stop ≡ Stop.BadJournal) ⊎ (stop ≡ Stop.OutOfMemory) ⊎ (stop ≡ Stop.DoorFault)) }
    ensures read_failed { result ≡ Err Stop.ReadFault → Rose (J.faults journal.old) (J.faults journal.new) }
    ensures read_kept { result ≢ Err Stop.ReadFault → J.faults journal.new ≡ J.faults journal.old }
    ensures failed { result ≡ Err Stop.WriteFault → Rose (O.faults out.old) (O.faults out.new) }
    ensures kept { result ≢ Err Stop.WriteFault → O.faults out.new ≡ O.faults out.old }
    ensures door_failed { result ≡ Err Stop.DoorFault → Rose (D.faults door.old) (D.faults door.new) }
    ensures door_kept { result ≢ Err Stop.DoorFault → D.faults door.new ≡ D.faults door.old }
    ensures answers { AreKeptOf served.new.history.versions plan.now.settings served.new.kept }
{
    match door.next() {
        Ok(Some(wire)) => take_turn(alloc, served, plan, number, journal, out, door, wire),
        Ok(None) => Err(Stop::Done),
        Err(Failed) => Err(Stop::DoorFault),
    }
}

/// Takes the next connection, and serves it over lists that are held. The journal is not looked at. Answers what ends the
/// run, or `None` if it goes on.
fn serve_one_held<O: Sink, D: Door>(
    alloc: Global,
    history: &History,
    plan: &ServePlan,
    kept: &mut KeptAnswers<Wishes>,
    number: u32,
    out: &mut O,
    door: &mut D,
) -> Option<Stop>
    requires { AreKeptOf history.now.versions plan.now.settings kept.old }
    ensures goes_on { (left : Option (List (List ℕ))) → IfNone result (HasStayed plan.now number 0
        (record { left = left; kept = history.now; held = O.contents out.old; log = D.log door.old; coming = D.coming door.old })
        (record { left = left; kept = history.now; held = O.contents out.new; log = D.log door.new; coming = D.coming door.new })) }
    ensures stops { (left : Option (List (List ℕ))) (connections before : ℕ) → before + 1 ≡ number → IfSome result (λ stop.
        HeldEnds plan.now connections before (status_of stop)
        (record { left = left; kept = history.now; held = O.contents out.old; log = D.log door.old; coming = D.coming door.old })
        (record { left = left; kept = history.now; held = O.contents out.new; log = D.log door.new; coming = D.coming door.new })) }
    ensures ends { IfSome result (λ stop.
        (stop ≡ Stop.WriteFault) ⊎ (stop ≡ Stop.BadJournal) ⊎ (stop ≡ Stop.OutOfMemory) ⊎ (stop ≡ Stop.DoorFault)) }
    ensures failed { result ≡ Some Stop.WriteFault → Rose (O.faults out.old) (O.faults out.new) }
    ensures kept { result ≢ Some Stop.WriteFault → O.faults out.new ≡ O.faults out.old }
    ensures door_failed { result ≡ Some Stop.DoorFault → Rose (D.faults door.old) (D.faults door.new) }
    ensures door_kept { result ≢ Some Stop.DoorFault → D.faults door.new ≡ D.faults door.old }
    ensures answers { AreKeptOf history.now.versions plan.now.settings kept.new }
{
    match door.next() {
        Ok(Some(wire)) => {
            match serve_taken(alloc, history, plan, kept, number, out, door, wire) {
                Stop::Done => None,
                stop => Some(stop),
            }
        }
        Ok(None) => Some(Stop::BadJournal),
        Err(Failed) => Some(Stop::DoorFault),
    }
}

/// Serves connections over lists that are held, after so many of those that the plan says. Answers what ends the run:
/// `BadJournal`, unless an object fails or memory is refused.
fn serve_held<O: Sink, D: Door>(
    alloc: Global,
    history: &History,
    plan: &ServePlan,
    kept: &mut KeptAnswers<Wishes>,
    taken: u32,
    out: &mut O,
    door: &mut D,
) -> Stop
    requires answers { AreKeptOf history.now.versions plan.now.settings kept.old }
    requires few { taken ≤ plan.now.connections }
    ensures run { (left : Option (List (List ℕ))) → HasHeldOn plan.now plan.now.connections taken (status_of result)
        (record { left = left; kept = history.now; held = O.contents out.old; log = D.log door.old; coming = D.coming door.old })
        (record { left = left; kept = history.now; held = O.contents out.new; log = D.log door.new; coming = D.coming door.new }) }
    ensures ends { (result ≡ Stop.WriteFault) ⊎ (result ≡ Stop.BadJournal) ⊎ (result ≡ Stop.OutOfMemory) ⊎ (result ≡ Stop.DoorFault) }
    ensures failed { result ≡ Stop.WriteFault → Rose (O.faults out.old) (O.faults out.new) }
    ensures kept { result ≢ Stop.WriteFault → O.faults out.new ≡ O.faults out.old }
    ensures door_failed { result ≡ Stop.DoorFault → Rose (D.faults door.old) (D.faults door.new) }
    ensures door_kept { result ≢ Stop.DoorFault → D.faults door.new ≡ D.faults door.old }
{
    for before in taken..plan.connections {
        if let Some(stop) = serve_one_held(alloc, history, plan, kept, before + 1, out, door) {
            return stop;
        }
    }
    Stop::BadJournal
}

/// Serves the connections that the plan says, and answers what ends the run.
fn serve_connections<J: Source, O: Sink, D: Door>(
    alloc: Global,
    served: &mut Served,
    plan: &ServePlan,
    journal: &mut J,
    out: &mut O,
    door: &mut D,
) -> Stop
    requires { AreKeptOf served.old.history.versions plan.now.settings served.old.kept }
    ensures run { HasRun plan.now.hold plan.now plan.now.connections (status_of result)
        (record { left = J.left journal.old; kept = served.old.history; held = O.contents out.old; log = D.log door.old; coming = D.coming door.old })
        (record { left = J.left journal.new; kept = served.new.history; held = O.contents out.new; log = D.log door.new; coming = D.coming door.new }) }
    ensures ends { (result ≡ Stop.Done) ⊎ (result ≡ Stop.ReadFault) ⊎ (result ≡ Stop.WriteFault) ⊎ (result ≡ Stop.BadJournal) ⊎ (result ≡ Stop.OutOfMemory) ⊎ (result ≡ Stop.DoorFault) }
    ensures read_failed { result ≡ Stop.ReadFault → Rose (J.faults journal.old) (J.faults journal.new) }
    ensures read_kept { result ≢ Stop.ReadFault → J.faults journal.new ≡ J.faults journal.old }
    ensures failed { result ≡ Stop.WriteFault → Rose (O.faults out.old) (O.faults out.new) }
    ensures kept { result ≢ Stop.WriteFault → O.faults out.new ≡ O.faults out.old }
    ensures door_failed { result ≡ Stop.DoorFault → Rose (D.faults door.old) (D.faults door.new) }
    ensures door_kept { result ≢ Stop.DoorFault → D.faults door.new ≡ D.faults door.old }
{
    for taken in 0..plan.connections {
        match take_next(alloc, served, plan, taken + 1, journal, out, door) {
            Ok(Further::Looking) => {}
            Ok(Further::Holding) => {
                return serve_held(
                    alloc,
                    &served.history,
                    plan,
                    &mut served.kept,
                    taken + 1,
                    out,
                    door,
                );
            }
            Err(stop) => return stop,
        }
    }
    Stop::Done
}

/// Loads the journal, and serves connections by the plan. Answers what ends the run.
pub(crate) fn serve<J: Source, O: Sink, D: Door>(
    alloc: Global,
    plan: &ServePlan,
    journal: &mut J,
    out: &mut O,
    door: &mut D,
) -> Stop
    ensures run { IsServeRun plan.now (status_of result)
        (serve_view (J.left journal.old) (O.contents out.old) (D.log door.old) (D.coming door.old))
        (serve_view (J.left journal.new) (O.contents out.new) (D.log door.new) (D.coming door.new)) }
    ensures ends { (result ≡ Stop.Done) ⊎ (result ≡ Stop.ReadFault) ⊎ (result ≡ Stop.WriteFault) ⊎ (result ≡ Stop.BadJournal) ⊎ (result ≡ Stop.OutOfMemory) ⊎ (result ≡ Stop.DoorFault) }
    ensures read_failed { result ≡ Stop.ReadFault → Rose (J.faults journal.old) (J.faults journal.new) }
    ensures read_kept { result ≢ Stop.ReadFault → J.faults journal.new ≡ J.faults journal.old }
    ensures failed { result ≡ Stop.WriteFault → Rose (O.faults out.old) (O.faults out.new) }
    ensures kept { result ≢ Stop.WriteFault → O.faults out.new ≡ O.faults out.old }
    ensures door_failed { result ≡ Stop.DoorFault → Rose (D.faults door.old) (D.faults door.new) }
    ensures door_kept { result ≢ Stop.DoorFault → D.faults door.new ≡ D.faults door.old }
{
    cuts_make_no_difference();
    match History::load(alloc, journal) {
        Ok(history) => {
            let mut served = Served {
                history,
                kept: nothing_kept(alloc),
            };
            serve_connections(alloc, &mut served, plan, journal, out, door)
        }
        Err(fault) => refuse(alloc, fault, out),
    }
}
