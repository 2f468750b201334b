ghost use Rattle.std.specs.Prelude.{◌≡◌, ◌↔◌, take, None, IfSome, IfNone, IsSomeAnd, IsTrue, OnOk, OnErr};
ghost use Rattle.gathering.specs.Wires.{IsFreshWire, HasItsTurn, all_left};
ghost use Rattle.tcp_door.specs.Guests.{gathered_with, left_of, IsSettled, StandsForGuest};
ghost use Rattle.tcp_door.specs.Houses.{BeginsAnswer as AnswersIn, HandsOut, IsOut, GathersPiece, MovesToPhase, OnlyCloses, OnlyClosesOthers, Settles, TakesBack, WorksFor, WorksForAll};
ghost use Rattle.slab.specs.Slab.{get, Updates};

use crate::answers::Answers;
use crate::guests::{Guest, is_held};
use crate::line::Line;
use crate::losses::Untold;
use gathering::{
    Address, Candidate, Crowd, DoorLimits, Ending, Gathered, GatheredWire, Heard, HouseRoom,
    InLine, Outgoing, Phase, Rows, Step, after_answer, after_no_room, after_read, after_write,
    first_to_yield, risen, whole_room,
};
use mio::event::Event;
use mio::net::TcpStream;
use mio::{Registry, Token};
use sb_model::OutOfMemory;
use slab::Slab;
use std::alloc::Global;
use std::collections::VecDeque;
use std::net::Shutdown;

/// How many bytes of a peer are read in one turn.
const READ_A_TURN: usize = 65_536;

/// The front of a buffer, of so many bytes.
fn front_of(buffer: &[u8], count: u64) -> &[u8]
    ensures { result.now ≡ take count buffer.now }
{
    match usize::try_from(count) {
        Ok(size) if size <= buffer.len() => &buffer[..size],
        _ => buffer,
    }
}

/// Keeps so many bytes of a buffer for a connection, and says whether they decide its request.
fn keep_piece(guest: &mut Guest, buffer: &[u8], count: u64) -> Result<bool, OutOfMemory>
    ensures ok { OnOk result (guest.new ≡ record guest.old {
      gathered = gathered_with guest.old.gathered (take count buffer.now);
      held = guest.new.held;
    }) }
    ensures err { OnErr result (guest.new ≡ guest.old) }
{
    let decides = guest.gather(front_of(buffer, count))?;
    guest.held = guest.held.saturating_add(count);
    Ok(decides)
}

/// What a connection has gathered, in its turn, as a wire of this number.
fn turn_of(alloc: Global, guest: &mut Guest, slot: usize, number: u64) -> Option<GatheredWire>
    ensures fresh { IfSome result (λ wire. IsFreshWire number wire) }
    ensures turn { IfSome result HasItsTurn }
    ensures slot { IfSome result (λ wire. wire.slot ≡ slot) }
    ensures stands { IfSome result (λ wire. StandsForGuest wire guest.old) }
    ensures took { guest.new ≡ record guest.old { gathered = None } }
{
    let gathered = guest.gathered.take()?;
    let (serial, has_ended, ending) = (guest.serial, guest.has_ended, guest.ending);
    GatheredWire::in_turn(alloc, number, slot, serial, gathered, has_ended, ending)
}

/// All connections of a door, by their slots.
#[derive(Drop)]
pub(crate) struct House {
    alloc: Global,
    limits: DoorLimits,
    guests: Slab<Guest>,
    rows: Rows,
    // those whose sockets may have something, in order
    ready: VecDeque<usize>,
    // those that wait for their turn, and how many wait for it or have it
    pub(crate) line: Line,
    held: usize,
    // how many connections of each address are open, and how many may be in all
    crowd: Crowd,
    room: HouseRoom,
    // who may give way, while that is looked for
    candidates: Vec<Candidate>,
    // how many bytes are gathered, and the answers that wait
    gathered: u64,
    answers: Answers,
    // the number of the next connection that is admitted
    serial: u64,
    buffer: Vec<u8>,
    // who was lost, and was not yet told of
    pub(crate) untold: Untold,
}

impl House {
    pub(crate) fn new(alloc: Global, limits: DoorLimits) -> Result<House, OutOfMemory> {
        Ok(House {
            alloc,
            limits,
            guests: Slab::new(alloc),
            rows: Rows::new(alloc),
            ready: VecDeque::new(alloc),
            line: Line::new(alloc),
            held: 0,
            crowd: Crowd::new(alloc),
            room: whole_room(&limits),
            candidates: Vec::new(alloc),
            gathered: 0,
            answers: Answers::new(alloc),
            serial: 0,
            buffer: Vec::from_elem(alloc, 0, READ_A_TURN)?,
            untold: Untold::default(),
        })
    }

    /// Whether no further connection may be open.
    fn is_full(&self) -> bool {
        let open = self.guests.len();
        open >= self.room.most || open >= self.limits.connections
    }

    /// Whether a connection may be admitted: there is room, or one gives way.
    pub(crate) fn can_admit(&self) -> bool {
        !self.is_full() || self.held < self.guests.len()
    }

    /// Whether there is something to do without a wait.
    pub(crate) fn is_busy(&self) -> bool {
        !self.ready.is_empty() || !self.line.is_empty()
    }

    /// When the time of some connection is up first.
    pub(crate) fn first_due(&self) -> Option<u64> {
        match self.rows.first_due() {
            Some((at, _)) => Some(at),
            None => None,
        }
    }

    /// What passes with time: how many may be open rises, and the shares are halved.
    pub(crate) fn pass_time(&mut self, now: u64)
        ensures { self.new.guests ≡ self.old.guests }
    {
        self.room = risen(&self.limits, self.room, now);
        self.line.pass_time(now);
    }

    /// Closes a connection.
    fn close(&mut self, slot: usize)
        ensures closed { Updates self.old.guests self.new.guests slot None }
        ensures buffer { self.new.buffer ≡ self.old.buffer }
    {
        if let Some(guest) = self.guests.try_remove(slot) {
            self.rows.leave(&self.limits, guest.phase, guest.serial);
            self.crowd.left(guest.address);
            self.gathered = self.gathered.saturating_sub(guest.held);
            if let Some(answer) = &guest.answer {
                self.answers.leave(answer);
            }
            if guest.is_held() {
                self.held = self.held.saturating_sub(1);
                self.line.leave(guest.serial);
            }
        }
    }

    /// The slot of the connection that gives way, where there is one. All are looked at: this is for a full house.
    fn first_to_yield(&mut self) -> Option<usize>
        ensures { self.new.guests ≡ self.old.guests }
    {
        self.candidates.clear();
        for (slot, guest) in self.guests.iter() {
            if self.candidates.push(guest.candidate(slot)).is_err() {
                break;
            }
        }
        let place = first_to_yield(&self.crowd, self.candidates.as_slice())?;
        Some(self.candidates.get(place)?.slot)
    }

    /// Closes the connection that gives way, where there is one.
    #[tactic(auto, using(crate::proofs::Rounds::nothing_closed, crate::proofs::Rounds::one_closed))]
    fn give_way(&mut self)
        ensures { OnlyCloses self.old.guests self.new.guests }
    {
        if let Some(slot) = self.first_to_yield() {
            self.untold.give_way();
            self.close(slot);
        }
    }

    /// The system has no room for a further connection: one gives way, and no more may be open than are left.
    pub(crate) fn make_room(&mut self, now: u64)
        ensures { OnlyCloses self.old.guests self.new.guests }
    {
        self.give_way();
        self.room = after_no_room(self.guests.len(), now);
    }

    /// Keeps a connection that came at this moment. Where memory is refused for it, it is closed.
    fn keep_guest(&mut self, stream: TcpStream, address: Address, now: u64) -> Option<usize> {
        let gathered = Gathered::new(self.alloc).ok()?;
        let serial = self.serial;
        let guest = Guest::new(stream, address, serial, gathered, now);
        let slot = self.guests.insert(guest).ok()?;
        self.serial = serial.saturating_add(1);
        Some(slot)
    }

    /// Takes a connection in that came from an address at this moment. Where it can be neither kept nor watched, it is closed.
    pub(crate) fn admit(
        &mut self,
        stream: TcpStream,
        address: Address,
        registry: &Registry,
        now: u64,
    ) {
        if self.is_full() {
            self.give_way();
        }
        if self.crowd.came(address).is_err() {
            return;
        }
        let serial = self.serial;
        let Some(slot) = self.keep_guest(stream, address, now) else {
            self.crowd.left(address);
            return;
        };
        let phase = Phase::Gathering { since: now };
        if self.rows.enter(&self.limits, phase, serial, slot).is_err() {
            self.close(slot);
            return;
        }
        self.work(slot, registry, now);
    }

    /// Has the system report what there is to wait for of a connection. Where it cannot, the connection is closed.
    fn watch(&mut self, slot: usize, registry: &Registry)
        ensures { Settles self.old.guests self.new.guests slot }
    {
        let Some(guest) = self.guests.get_mut(slot) else {
            return;
        };
        let token = Token(slot.saturating_add(1));
        if guest.be_watched(registry, token).is_err() {
            self.close(slot);
        }
    }

    /// Notes what the system reports of a connection.
    pub(crate) fn mark(&mut self, slot: usize, event: &Event)
        ensures { Settles self.old.guests self.new.guests slot }
    {
        let Some(guest) = self.guests.get_mut(slot) else {
            return;
        };
        guest.note(event);
        self.line_up(slot);
    }

    /// Puts a connection into the row of those that are ready, where a try may bring something.
    fn line_up(&mut self, slot: usize)
        ensures { Settles self.old.guests self.new.guests slot }
    {
        let Some(guest) = self.guests.get_mut(slot) else {
            return;
        };
        if guest.is_in_row || !guest.may_work() {
            return;
        }
        guest.is_in_row = true;
        if self.ready.push_back(slot).is_err() {
            self.close(slot);
        }
    }

    /// Works for a connection that stood in the row of those that are ready.
    #[tactic(auto, using(crate::proofs::Rounds::nothing_worked))]
    fn work_from_row(&mut self, slot: usize, registry: &Registry, now: u64)
        ensures { WorksFor self.old.guests self.new.guests slot }
    {
        let Some(guest) = self.guests.get_mut(slot) else {
            return;
        };
        guest.is_in_row = false;
        self.work(slot, registry, now);
    }

    /// Works once for each connection that is ready.
    #[tactic(auto, using(crate::proofs::Rounds::nobody_served, crate::proofs::Rounds::one_more_served))]
    pub(crate) fn work_ready(&mut self, registry: &Registry, now: u64)
        ensures { WorksForAll self.old.guests self.new.guests }
    {
        'ready: for _ in 0..self.ready.len() {
            let Some(slot) = self.ready.pop_front() else {
                return;
            };
            self.work_from_row(slot, registry, now);
        }
    }

    /// Tries the socket of a connection once more whose time is up.
    #[tactic(auto, using(crate::proofs::Rounds::nothing_worked))]
    fn work_late(&mut self, slot: usize, registry: &Registry, now: u64)
        ensures { WorksFor self.old.guests self.new.guests slot }
    {
        let Some(guest) = self.guests.get_mut(slot) else {
            return;
        };
        guest.can_read = true;
        guest.can_write = true;
        self.work(slot, registry, now);
    }

    /// Tries the socket of each connection once more whose time is up at this moment, and then looks at its time.
    #[tactic(auto, using(crate::proofs::Rounds::nobody_served, crate::proofs::Rounds::one_more_served))]
    pub(crate) fn work_due(&mut self, registry: &Registry, now: u64)
        ensures { WorksForAll self.old.guests self.new.guests }
    {
        'due: for _ in 0..self.guests.len() {
            let Some((at, slot)) = self.rows.first_due() else {
                return;
            };
            if at > now {
                return;
            }
            self.work_late(slot, registry, now);
        }
    }

    /// One try of a connection's socket, in its phase. What a peer sends beside its answer is read behind the try to send: so
    /// the peer waits for no read.
    #[tactic(auto, using(crate::proofs::Rounds::settles_works, crate::proofs::Rounds::works_settles, crate::proofs::Rounds::nothing_worked))]
    fn try_socket(&mut self, slot: usize, phase: Phase, now: u64)
        ensures { WorksFor self.old.guests self.new.guests slot }
    {
        match phase {
            Phase::Gathering { .. } => self.gather(slot, now),
            Phase::Decided { .. } => self.after_heard(slot, Heard::Nothing, false, now),
            Phase::InTurn => {}
            Phase::Sending { .. } => {
                self.send(slot, now);
                self.forget(slot, now);
            }
            Phase::Past { .. } => self.forget(slot, now),
        }
    }

    /// One try of a connection's socket, and what becomes of the connection.
    #[tactic(auto, using(crate::proofs::Rounds::nothing_worked))]
    fn work(&mut self, slot: usize, registry: &Registry, now: u64)
        ensures { WorksFor self.old.guests self.new.guests slot }
    {
        let Some(guest) = self.guests.get(slot) else {
            return;
        };
        let phase = guest.phase;
        self.try_socket(slot, phase, now);
        self.watch(slot, registry);
        self.line_up(slot);
    }

    /// Reads what a peer has sent of its request.
    fn gather(&mut self, slot: usize, now: u64)
        ensures { WorksFor self.old.guests self.new.guests slot }
    {
        let Some(guest) = self.guests.get_mut(slot) else {
            return;
        };
        let heard = guest.hear(&mut self.buffer);
        match self.keep_heard(slot, heard) {
            Ok(is_decided) => self.after_heard(slot, heard, is_decided, now),
            Err(OutOfMemory) => self.close(slot),
        }
    }

    /// Keeps what a read brought, and says whether it decides the request.
    fn keep_heard(&mut self, slot: usize, heard: Heard) -> Result<bool, OutOfMemory>
        ensures { WorksFor self.old.guests self.new.guests slot }
    {
        match heard {
            Heard::Bytes(count) => self.keep(slot, count),
            Heard::End | Heard::Nothing | Heard::Fault => Ok(false),
        }
    }

    /// Those that have gathered longest give way to so many bytes that come, until all are within their sum.
    #[tactic(auto, using(crate::proofs::Rounds::nothing_closed, crate::proofs::Rounds::closes_more))]
    fn drop_longest(&mut self, count: u64)
        ensures closes { OnlyCloses self.old.guests self.new.guests }
        ensures buffer { self.new.buffer ≡ self.old.buffer }
    {
        'drops: for _ in 0..self.guests.len() {
            match self.rows.first_to_drop(&self.limits, self.gathered, count) {
                Some(longest) => {
                    self.untold.give_way();
                    self.close(longest);
                }
                None => return,
            }
        }
    }

    /// Keeps so many bytes of the buffer for a connection, and says whether they decide its request. Where all that are
    /// gathered would pass their sum, those that have gathered longest give way: this one too.
    fn keep(&mut self, slot: usize, count: u64) -> Result<bool, OutOfMemory>
        ensures ok { OnOk result (GathersPiece self.old.guests self.new.guests slot (take count self.old.buffer.items)) }
        ensures err { OnErr result (OnlyCloses self.old.guests self.new.guests) }
    {
        self.drop_longest(count);
        let Some(guest) = self.guests.get_mut(slot) else {
            return Ok(false);
        };
        let decides = keep_piece(guest, self.buffer.as_slice(), count)?;
        self.gathered = self.gathered.saturating_add(count);
        Ok(decides)
    }

    /// Reads what a peer sends after its request, and forgets it.
    fn forget(&mut self, slot: usize, now: u64)
        ensures { Settles self.old.guests self.new.guests slot }
    {
        let Some(guest) = self.guests.get_mut(slot) else {
            return;
        };
        if guest.can_read {
            let heard = guest.hear(&mut self.buffer);
            self.after_heard(slot, heard, false, now);
        }
    }

    /// What becomes of a connection after a read.
    fn after_heard(&mut self, slot: usize, heard: Heard, is_decided: bool, now: u64)
        ensures { Settles self.old.guests self.new.guests slot }
    {
        if let Some(guest) = self.guests.get(slot) {
            let (phase, gathered) = (guest.phase, guest.held);
            let step = after_read(&self.limits, phase, heard, is_decided, gathered, now);
            if step == Step::Close || step == Step::HandOut(Ending::Fault) {
                self.untold.look_at(&self.limits, phase, now);
            }
            self.settle(slot, step, now);
        }
    }

    /// Writes what the system takes of an answer.
    fn send(&mut self, slot: usize, now: u64)
        ensures { WorksFor self.old.guests self.new.guests slot }
    {
        let Some(guest) = self.guests.get_mut(slot) else {
            return;
        };
        if !guest.can_write {
            return;
        }
        let before = guest.owned();
        let sent = guest.send();
        self.answers.move_on(before, guest.owned());
        let left = guest.left();
        let step = after_write(&self.limits, guest.phase, sent, left, now);
        self.untold.look_at_sending(step, sent, left);
        self.settle(slot, step, now);
    }

    /// The answer of a connection is over.
    fn end_answer(&mut self, slot: usize)
        ensures { Settles self.old.guests self.new.guests slot }
    {
        let Some(guest) = self.guests.get_mut(slot) else {
            return;
        };
        if let Some(answer) = guest.answer.take() {
            self.answers.leave(&answer);
        }
    }

    /// Says to a peer that its answer is over, and reads on for a while.
    fn rest(&mut self, slot: usize, phase: Phase)
        ensures { Settles self.old.guests self.new.guests slot }
    {
        self.end_answer(slot);
        let Some(guest) = self.guests.get(slot) else {
            return;
        };
        if guest.stream.shutdown(Shutdown::Write).is_ok() {
            self.move_to(slot, phase);
        } else {
            self.close(slot);
        }
    }

    /// Puts a connection in line, whose reads answer this after its bytes.
    fn line_up_for_turn(&mut self, slot: usize, ending: Ending, now: u64)
        ensures { Settles self.old.guests self.new.guests slot }
    {
        self.move_to(slot, Phase::Decided { since: now });
        let Some(guest) = self.guests.get_mut(slot) else {
            return;
        };
        guest.ending = ending;
        if self.line.push(guest.in_line(slot, now)).is_err() {
            self.close(slot);
        }
    }

    /// Carries out what becomes of a connection.
    fn settle(&mut self, slot: usize, step: Step, now: u64)
        ensures { Settles self.old.guests self.new.guests slot }
    {
        match step {
            Step::On(phase) => self.move_to(slot, phase),
            Step::Close => self.close(slot),
            Step::Rest(phase) => self.rest(slot, phase),
            Step::HandOut(ending) => self.line_up_for_turn(slot, ending, now),
        }
    }

    /// Counts how many wait for their turn or have it.
    fn count_held(&mut self, before: Phase, now: Phase)
        ensures { self.new.guests ≡ self.old.guests }
    {
        if is_held(now) && !is_held(before) {
            self.held = self.held.saturating_add(1);
        } else if is_held(before) && !is_held(now) {
            self.held = self.held.saturating_sub(1);
        }
    }

    /// Moves a connection to its rows in another phase. Where memory is refused for that, it is closed.
    fn move_to(&mut self, slot: usize, phase: Phase)
        ensures { MovesToPhase self.old.guests self.new.guests slot phase }
    {
        let Some(guest) = self.guests.get_mut(slot) else {
            return;
        };
        if guest.phase == phase {
            return;
        }
        let serial = guest.serial;
        let before = guest.phase;
        guest.phase = phase;
        self.rows.leave(&self.limits, before, serial);
        self.count_held(before, phase);
        if self.rows.enter(&self.limits, phase, serial, slot).is_err() {
            self.close(slot);
        }
    }

    /// Looks once more at a connection whose turn it is. It says whether it is still to have it.
    fn is_to_have_turn(&self, one: &InLine, now: u64) -> bool {
        match self.guests.get(one.slot) {
            Some(guest) => {
                let heard = guest.look();
                let step = after_read(&self.limits, guest.phase, heard, false, guest.held, now);
                step != Step::Close
            }
            None => false,
        }
    }

    /// A connection in its turn, as a wire of this number.
    fn wire_of(&mut self, one: &InLine, number: u64) -> Option<GatheredWire>
        ensures fresh { IfSome result (λ wire. IsFreshWire number wire) }
        ensures turn { IfSome result HasItsTurn }
        ensures stands { IfSome result (λ wire. HandsOut self.old.guests wire) }
        ensures out { IfSome result (λ wire. IsOut self.new.guests wire) }
        ensures others { OnlyClosesOthers self.old.guests self.new.guests one.now.slot }
    {
        self.move_to(one.slot, Phase::InTurn);
        let guest = self.guests.get_mut(one.slot)?;
        self.line.begin_turn(guest.serial, guest.address);
        turn_of(self.alloc, guest, one.slot, number)
    }

    /// The next connection whose turn it is, as a wire of this number. Those that have failed, or waited for too long, are
    /// closed. The moment is that of the door's clock.
    #[tactic(auto, using(crate::proofs::Rounds::nothing_closed, crate::proofs::Rounds::closes_more, crate::proofs::Rounds::out_before))]
    pub(crate) fn hand_out(&mut self, number: u64, now: u64) -> Option<GatheredWire>
        ensures fresh { IfSome result (λ wire. IsFreshWire number wire) }
        ensures turn { IfSome result HasItsTurn }
        ensures stands { IfSome result (λ wire. HandsOut self.old.guests wire) }
        ensures out { IfSome result (λ wire. IsOut self.new.guests wire) }
    {
        'line: for _ in 0..self.line.len() {
            let one = self.line.next()?;
            if self.is_to_have_turn(&one, now)
                && let Some(wire) = self.wire_of(&one, number)
            {
                return Some(wire);
            }
            self.close(one.slot);
        }
        None
    }

    /// An answer waits to be sent.
    fn begin_answer(&mut self, slot: usize, answer: Outgoing, now: u64)
        ensures { AnswersIn self.old.guests self.new.guests slot (all_left answer) }
    {
        if self.answers.enter(&answer).is_err() {
            self.close(slot);
            return;
        }
        let Some(guest) = self.guests.get_mut(slot) else {
            return;
        };
        let step = after_answer(answer.left(), guest.has_ended, now);
        guest.begin_answer(answer);
        self.settle(slot, step, now);
    }

    /// The turn of a connection is over after so much time had passed in all: what was gathered of it counts no more.
    fn end_turn(&mut self, slot: usize, passed: u64)
        ensures { Settles self.old.guests self.new.guests slot }
    {
        let Some(guest) = self.guests.get_mut(slot) else {
            return;
        };
        let (serial, address, held) = (guest.serial, guest.address, guest.held);
        guest.held = 0;
        self.line.end_turn(serial, address, passed);
        self.gathered = self.gathered.saturating_sub(held);
    }

    /// Sends what the system takes of an answer that begins.
    fn send_answer(&mut self, slot: usize, answer: Outgoing, registry: &Registry, now: u64)
        ensures { AnswersIn self.old.guests self.new.guests slot (all_left answer) }
    {
        self.begin_answer(slot, answer, now);
        self.work(slot, registry, now);
        self.cut_answers();
    }

    /// Whether the connection of this serial number has its turn, in this slot.
    fn has_turn(&self, slot: usize, serial: u64) -> bool
        ensures { IsTrue result ↔ IsSomeAnd (get self.now.guests slot) (λ guest. (guest.serial ≡ serial) × (guest.phase ≡ Phase.InTurn)) }
    {
        match self.guests.get(slot) {
            Some(guest) => guest.serial == serial && guest.phase == Phase::InTurn,
            None => false,
        }
    }

    /// Takes a connection back that had its turn until so much time had passed in all, and sends what the system takes of its
    /// answer.
    pub(crate) fn take_back(
        &mut self,
        wire: GatheredWire,
        registry: &Registry,
        now: u64,
        passed: u64,
    )
        ensures { TakesBack self.old.guests self.new.guests wire }
    {
        let slot = wire.slot();
        let serial = wire.serial();
        let answer = wire.into_answer();
        if !self.has_turn(slot, serial) {
            return;
        }
        self.end_turn(slot, passed);
        match answer {
            Some(answer) => self.send_answer(slot, answer, registry, now),
            None => self.close(slot),
        }
    }

    /// Closes those of whose answers no byte was taken for longest, until the answers hold their sum.
    #[tactic(auto, using(crate::proofs::Rounds::nothing_closed, crate::proofs::Rounds::closes_more))]
    fn cut_answers(&mut self)
        ensures { OnlyCloses self.old.guests self.new.guests }
    {
        'cuts: for _ in 0..self.guests.len() {
            match self.rows.first_to_cut(&self.limits, self.answers.bytes()) {
                Some(slot) => {
                    self.untold.cut();
                    self.close(slot);
                }
                None => return,
            }
        }
    }

    /// Closes the connections whose requests are gathered.
    #[tactic(auto, using(crate::proofs::Rounds::nothing_closed, crate::proofs::Rounds::closes_more))]
    fn close_gathering(&mut self)
        ensures { OnlyCloses self.old.guests self.new.guests }
    {
        'gathering: for _ in 0..self.guests.len() {
            match self.rows.first_gathering() {
                Some(slot) => self.close(slot),
                None => return,
            }
        }
    }

    /// Closes the connections that have no answer yet.
    #[tactic(auto, using(crate::proofs::Rounds::nothing_closed, crate::proofs::Rounds::closes_more))]
    pub(crate) fn close_unanswered(&mut self)
        ensures { OnlyCloses self.old.guests self.new.guests }
    {
        self.close_gathering();
        'line: for _ in 0..self.line.len() {
            if let Some(one) = self.line.next() {
                self.close(one.slot);
            }
        }
    }
}
