ghost use Rattle.std.specs.Prelude.{◌≡◌, ◌≢◌, ◌≤◌, ◌<◌, List, [], None, is_some, IfErr, IfOk, OnErr, OnOk, IsErrOf, Err};
ghost use Rattle.client_line.specs.Lines.{LineView};
ghost use Rattle.client_rounds.specs.Ended.{client_round_view, EndsClientRound, StopsClientRound};
ghost use Rattle.client_rounds.specs.Rounds.{next_client_round_at, client_start_at, ClientStart, HasKeptRounds, HasClientRoundOpen};
ghost use Rattle.http_edge.specs.Exchanges.{IsTarget};
ghost use Rattle.sb_outside.specs.Outside.{Rose};
ghost use Rattle.sb_round.specs.Round.{Round, round_state, BreaksOff};
ghost use Rattle.update_run.specs.Saved.{Keeping, keeping};

use crate::ending::take_answer;
use crate::telling::tell_and_save;
use client_line::Line;
use sb_model::{Moment, OutOfMemory};
use sb_outside::{Keeper, Sink};
use sb_round::{begin_round, rounds_go_on};
use std::alloc::Global;
use std::marker::Model;
use timed_sessions::Opening;
use update_client::ClientLists;
use update_run::{Plan, RunStop, saves_go_on};
use wait_rules::WaitState;

/// What a client's caller is told of a round.
#[derive(Clone, Copy, Debug, PartialEq, Eq)]
pub struct ClientRoundTold {
    /// An update of it was refused, or no message came.
    pub refused: bool,
    /// An update of it was installed. Then the lists are saved.
    pub installed: bool,
    /// A message came.
    pub answered: bool,
}

/// A client that makes its rounds: its lists, when it may ask next, and the session of the round that is open, if one is.
#[derive(Drop)]
pub struct ClientRounds {
    lists: ClientLists,
    waits: WaitState,
    // how many rounds are over
    over: u32,
    opened: Option<Opening>,
}

impl Model for ClientRounds {
    ghost use Rattle.client_rounds.specs.Rounds.{ClientSeen};
    ghost use Rattle.sb_round.specs.Round.{round_state};

    ghost Value = { ClientSeen };

    ghost view = { λ c. record { state = round_state c.lists c.waits; over = c.over; opened = c.opened } };
}

impl ClientRounds {
    /// A client with these lists and this state of waiting that has made no round yet. The lists are moved and not copied.
    pub fn new(lists: ClientLists, waits: WaitState) -> ClientRounds
        ensures first { result ≡ record { state = round_state lists waits; over = 0; opened = None } }
        ensures begins { (plan : Plan) (line : LineView) (keeper : Keeping)
            → HasKeptRounds plan (client_start_at result line keeper) [] result line keeper }
    {
        rounds_go_on();
        saves_go_on();
        ClientRounds {
            lists,
            waits,
            over: 0,
            opened: None,
        }
    }

    /// The lists that it holds. While a round is open they are those that it asked for.
    pub fn lists(&self) -> &ClientLists
        ensures { result.now ≡ self.now.state.lists }
    {
        &self.lists
    }

    /// Whether a round was begun and not ended yet.
    pub fn is_open(&self) -> bool
        ensures { result ≡ is_some self.now.opened }
    {
        self.opened.is_some()
    }

    /// The moment from which its next round may begin, if it makes so many: `None` while one is open, and after the last.
    pub fn next_at(&self, most: u32) -> Option<Moment>
        ensures { result ≡ next_client_round_at most self.now }
    {
        if self.opened.is_some() || self.over >= most {
            return None;
        }
        Some(self.waits.allowed_at)
    }

    /// Begins a round: one session asks for updates of all lists. It begins when it may ("Request Frequency" of the Safe Browsing Update
    /// API, version 4), for which the line waits if need be, and stays open until `end`. After an `Err` there is no open session.
    pub fn begin<N: Line>(
        &mut self,
        alloc: Global,
        plan: &Plan,
        line: &mut N,
    ) -> Result<(), OutOfMemory>
        requires closed { self.old.opened ≡ None }
        requires target { IsTarget plan.now.target }

        // Whatever rounds were made before, they stay so, and a further one is open.
        ensures begun { (start : ClientStart) (rounds : List Round) (keeper : Keeping)
            → HasKeptRounds plan.now start rounds self.old (N.view line.old) keeper
            → OnOk result (HasKeptRounds plan.now start rounds self.new (N.view line.new) keeper) }
        ensures opened { OnOk result (HasClientRoundOpen plan.now self.new (N.view line.new)) }
        ensures broken_off { OnErr result (BreaksOff self.old.state.lists self.old.state.waits plan.now.options plan.now.target
            (N.view line.old).told (N.view line.new).told) }
        ensures state { self.new.state ≡ self.old.state }
        ensures over { self.new.over ≡ self.old.over }
        ensures kept { OnErr result (self.new ≡ self.old) }

        // A fault of the link is counted.
        ensures counted { (N.view line.old).told.faults ≤ (N.view line.new).told.faults }

        // The line's objects are the same.
        ensures same { (N.view line.new).objects ≡ (N.view line.old).objects }
    {
        let opening = begin_round(
            alloc,
            &self.lists,
            self.waits,
            &plan.options,
            &plan.target,
            line,
        )?;
        self.opened = Some(opening);
        Ok(())
    }

    /// Ends the open round: its answer is taken, its lines are written, and the lists are saved if it installed one. The line may not have
    /// been used since the round was begun.
    ///
    /// # Errors
    ///
    /// `WriteFault` if the output fails, `KeepFault` if the keeper does, and `OutOfMemory`. The lists are then what the answer made of them,
    /// or as they were if it was not taken.
    pub fn end<O: Sink, K: Keeper, N: Line>(
        &mut self,
        alloc: Global,
        plan: &Plan,
        out: &mut O,
        keep: &mut K,
        line: &mut N,
    ) -> Result<ClientRoundTold, RunStop>
        requires session { HasClientRoundOpen plan.now self.old (N.view line.old) }
        requires more { self.old.over < plan.now.rounds }

        // Whatever rounds were made before, this is one more of them, or the client stopped in it.
        ensures ended { (start : ClientStart) (rounds : List Round)
            → HasKeptRounds plan.now start rounds self.old (N.view line.old) (keeping (K.handed keep.old) (K.kept keep.old))
            → IfOk result (EndsClientRound plan.now start rounds self.old self.new
            (client_round_view (N.view line.old) (keeping (K.handed keep.old) (K.kept keep.old)) (O.contents out.old))
            (client_round_view (N.view line.new) (keeping (K.handed keep.new) (K.kept keep.new)) (O.contents out.new))) }
        ensures stopped { (start : ClientStart) (rounds : List Round)
            → HasKeptRounds plan.now start rounds self.old (N.view line.old) (keeping (K.handed keep.old) (K.kept keep.old))
            → IfErr result (λ stop. StopsClientRound stop plan.now start rounds self.old
            (client_round_view (N.view line.old) (keeping (K.handed keep.old) (K.kept keep.old)) (O.contents out.old))
            (client_round_view (N.view line.new) (keeping (K.handed keep.new) (K.kept keep.new)) (O.contents out.new))) }
        ensures closed { self.new.opened ≡ None }

        // A fault is counted, and nothing else is.
        ensures output_failed { IsErrOf result RunStop.WriteFault → Rose (O.faults out.old) (O.faults out.new) }
        ensures output_kept { result ≢ Err RunStop.WriteFault → O.faults out.new ≡ O.faults out.old }
        ensures keeper_failed { IsErrOf result RunStop.KeepFault → Rose (K.faults keep.old) (K.faults keep.new) }
        ensures keeper_kept { result ≢ Err RunStop.KeepFault → K.faults keep.new ≡ K.faults keep.old }

        // The line's objects are the same.
        ensures same { (N.view line.new).objects ≡ (N.view line.old).objects }
    {
        rounds_go_on();
        saves_go_on();
        let most = plan.rounds;
        if self.over >= most {
            unreachable!()
        }
        let Some(opening) = self.opened.take() else {
            unreachable!()
        };
        let end = match take_answer(alloc, plan, opening, &mut self.lists, &mut self.waits, line) {
            Ok(end) => end,
            Err(OutOfMemory) => return Err(RunStop::OutOfMemory),
        };
        self.over += 1;
        let number = u64::from(self.over);
        tell_and_save(alloc, number, &end, &self.lists, out, keep)
    }
}
