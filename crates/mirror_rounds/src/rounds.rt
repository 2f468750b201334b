ghost use Rattle.std.specs.Prelude.{◌≡◌, ◌≢◌, ◌≤◌, ◌<◌, List, [], None, is_some, IfErr, IfOk, OnErr, OnOk, IsErrOf, Err};
ghost use Rattle.client_line.specs.Lines.{LineView};
ghost use Rattle.http_edge.specs.Exchanges.{CountsSendFault, IsTarget};
ghost use Rattle.mirror_places.specs.Places.{mirror_of_one};
ghost use Rattle.mirror_rounds.specs.Ended.{round_view, EndsMirrorRound, StopsMirrorRound};
ghost use Rattle.mirror_rounds.specs.Rounds.{next_round_at, start_at, HasMadeRounds, HasRoundOpen, MirrorStart};
ghost use Rattle.sb_outside.specs.Outside.{Rose};
ghost use Rattle.sb_round.specs.Round.{Round, round_state, BreaksOff};
ghost use Rattle.update_run.specs.Saved.{Keeping, keeping};
ghost use Rattle.wait_rules.specs.Waits.{may_send_at};

use crate::ending::take_answer;
use crate::telling::tell_and_hold;
use client_line::Line;
use mirror_places::Mirror;
use sb_model::{Moment, OutOfMemory};
use sb_outside::{Keeper, Sink};
use sb_round::{begin_round, rounds_go_on};
use std::alloc::Global;
use std::marker::Model;
use timed_sessions::Opening;
use update_client::ClientLists;
use update_run::{Client, Plan, RunStop, saves_go_on};
use wait_rules::WaitState;

/// What is told of a round of a mirror.
#[derive(Clone, Copy, Debug, PartialEq, Eq)]
pub struct MirrorRoundTold {
    /// It brought no message, or an update that was refused.
    pub refused: bool,
    /// It installed a list, so that the lists were saved, and are held as a place.
    pub installed: bool,
    /// It brought a message.
    pub answered: bool,
}

/// The rounds of a mirror: what it holds as a client, the places that it came to, and the session of a round that is open.
#[derive(Drop)]
pub struct MirrorRounds {
    lists: ClientLists,
    waits: WaitState,
    mirror: Mirror,
    // how many rounds are over
    over: u32,
    opened: Option<Opening>,
}

impl Model for MirrorRounds {
    ghost use Rattle.mirror_rounds.specs.Rounds.{HasItsPlaces, MirrorSeen};
    ghost use Rattle.sb_round.specs.Round.{round_state};

    ghost Value = { MirrorSeen };

    ghost view = { λ m. record { state = round_state m.lists m.waits; places = m.mirror; over = m.over; opened = m.opened } };

    ghost invariant = { λ m. HasItsPlaces m.lists m.mirror m.over };
}

impl MirrorRounds {
    /// The rounds of a mirror that begins with these lists and this state of waiting, and of this epoch: none is made yet.
    #[tactic(auto, using(crate::proofs::ItsPlaces::first_place))]
    pub fn new(
        alloc: Global,
        lists: ClientLists,
        waits: WaitState,
        epoch: u64,
    ) -> Result<MirrorRounds, OutOfMemory>
        ensures first { IfOk result (λ rounds. rounds
            ≡ record { state = round_state lists waits; places = mirror_of_one epoch lists; over = 0; opened = None }) }
        ensures begins { IfOk result (λ rounds. (plan : Plan) (line : LineView) (keeper : Keeping)
            → HasMadeRounds plan (start_at rounds line keeper) [] rounds line keeper) }
    {
        rounds_go_on();
        saves_go_on();
        let mirror = Mirror::open(alloc, lists.copy(alloc)?, epoch);
        Ok(MirrorRounds {
            lists,
            waits,
            mirror,
            over: 0,
            opened: None,
        })
    }

    /// The places that it holds.
    pub fn mirror(&self) -> &Mirror
        ensures { result.now ≡ self.now.places }
    {
        &self.mirror
    }

    /// The lists that it holds.
    pub fn lists(&self) -> &ClientLists
        ensures { result.now ≡ self.now.state.lists }
    {
        &self.lists
    }

    /// Whether a round is open.
    pub fn is_open(&self) -> bool
        ensures { result ≡ is_some self.now.opened }
    {
        self.opened.is_some()
    }

    /// When the next round may begin: `None` if one is open, or if so many are over.
    pub fn next_at(&self, most: u32) -> Option<Moment>
        ensures { result ≡ next_round_at most self.now }
    {
        if self.opened.is_some() || self.over >= most {
            return None;
        }
        Some(self.waits.allowed_at)
    }

    /// Begins the next round: asks for updates of all lists in one session, which begins when it may, and stays open ("Request Frequency" of
    /// the Safe Browsing Update API, version 4). The line waits for the allowed moment if it did not come yet. If memory is refused, no
    /// session is open.
    pub fn begin<N: Line>(
        &mut self,
        alloc: Global,
        plan: &Plan,
        line: &mut N,
    ) -> Result<(), OutOfMemory>
        requires closed { self.old.opened ≡ None }
        requires target { IsTarget plan.now.target }

        // Of a mirror that made some rounds a further one is open.
        ensures begun { (start : MirrorStart) (rounds : List Round) (keeper : Keeping)
            → HasMadeRounds plan.now start rounds self.old (N.view line.old) keeper
            → OnOk result (HasMadeRounds plan.now start rounds self.new (N.view line.new) keeper) }
        ensures opened { OnOk result (HasRoundOpen plan.now self.new (N.view line.new)) }
        ensures broken_off { OnErr result (BreaksOff self.old.state.lists self.old.state.waits plan.now.options plan.now.target
            (N.view line.old).told (N.view line.new).told) }
        ensures state { self.new.state ≡ self.old.state }
        ensures places { self.new.places ≡ self.old.places }
        ensures over { self.new.over ≡ self.old.over }
        ensures kept { OnErr result (self.new ≡ self.old) }

        // A fault of the link is counted.
        ensures counted { (N.view line.old).told.faults ≤ (N.view line.new).told.faults }

        // The line's objects are the same.
        ensures same { (N.view line.new).objects ≡ (N.view line.old).objects }
    {
        let opening = begin_round(
            alloc,
            &self.lists,
            self.waits,
            &plan.options,
            &plan.target,
            line,
        )?;
        self.opened = Some(opening);
        Ok(())
    }

    /// Ends the round that is open: takes its answer, tells of it, saves the lists if it installed one, and then holds them as the newest
    /// place. Since it was begun nothing of the line may have been used.
    ///
    /// # Errors
    ///
    /// `WriteFault` and `KeepFault` if the output or the keeper fails, and `OutOfMemory`. Then no place is held.
    #[tactic(auto, using(crate::proofs::ItsPlaces::newest_named, crate::proofs::ItsPlaces::room_for_more, crate::proofs::ItsPlaces::held_its_places))]
    pub fn end<O: Sink, K: Keeper, N: Line>(
        &mut self,
        alloc: Global,
        plan: &Plan,
        out: &mut O,
        keep: &mut K,
        line: &mut N,
    ) -> Result<MirrorRoundTold, RunStop>
        requires session { HasRoundOpen plan.now self.old (N.view line.old) }
        requires more { self.old.over < plan.now.rounds }

        // Of a mirror that made some rounds this is one more, or it stopped in it.
        ensures ended { (start : MirrorStart) (rounds : List Round)
            → HasMadeRounds plan.now start rounds self.old (N.view line.old) (keeping (K.handed keep.old) (K.kept keep.old))
            → IfOk result (EndsMirrorRound plan.now start rounds self.old self.new
            (round_view (N.view line.old) (keeping (K.handed keep.old) (K.kept keep.old)) (O.contents out.old))
            (round_view (N.view line.new) (keeping (K.handed keep.new) (K.kept keep.new)) (O.contents out.new))) }
        ensures stopped { (start : MirrorStart) (rounds : List Round)
            → HasMadeRounds plan.now start rounds self.old (N.view line.old) (keeping (K.handed keep.old) (K.kept keep.old))
            → IfErr result (λ stop. StopsMirrorRound stop plan.now start rounds self.old
            (round_view (N.view line.old) (keeping (K.handed keep.old) (K.kept keep.old)) (O.contents out.old))
            (round_view (N.view line.new) (keeping (K.handed keep.new) (K.kept keep.new)) (O.contents out.new))) }
        ensures closed { self.new.opened ≡ None }

        // No place is held of a round that is not told and saved.
        ensures unheld { OnErr result (self.new.places ≡ self.old.places) }

        // A fault is counted, and nothing else is.
        ensures output_failed { IsErrOf result RunStop.WriteFault → Rose (O.faults out.old) (O.faults out.new) }
        ensures output_kept { result ≢ Err RunStop.WriteFault → O.faults out.new ≡ O.faults out.old }
        ensures keeper_failed { IsErrOf result RunStop.KeepFault → Rose (K.faults keep.old) (K.faults keep.new) }
        ensures keeper_kept { result ≢ Err RunStop.KeepFault → K.faults keep.new ≡ K.faults keep.old }

        // The line's objects are the same.
        ensures same { (N.view line.new).objects ≡ (N.view line.old).objects }
    {
        rounds_go_on();
        saves_go_on();
        let most = plan.rounds;
        if self.over >= most {
            unreachable!()
        }
        let Some(opening) = self.opened.take() else {
            unreachable!()
        };
        let end = match take_answer(alloc, plan, opening, &mut self.lists, &mut self.waits, line) {
            Ok(end) => end,
            Err(OutOfMemory) => return Err(RunStop::OutOfMemory),
        };
        self.over += 1;
        let number = u64::from(self.over);
        tell_and_hold(
            alloc,
            number,
            &end,
            &self.lists,
            &mut self.mirror,
            out,
            keep,
        )
    }
}
