use client_line::Line;
use sb_outside::{Clock, Door, Keeper, Sink};
use std::marker::Model;

/// What stands outside a mirror: its output, its keeper, the lines of its updates and of its finds, the clock by which it knows what is due,
/// and the door at which its clients come in.
pub struct MirrorWorld<O: Sink, K: Keeper, N: Line, M: Line, C: Clock, D: Door> {
    pub out: O,
    pub keep: K,
    pub updates: N,
    pub finds: M,
    pub clock: C,
    pub door: D,
}

impl<O: Sink, K: Keeper, N: Line, M: Line, C: Clock, D: Door> Model
    for MirrorWorld<O, K, N, M, C, D> {
    ghost use Rattle.mirror_connections.specs.Over.{door_seen};
    ghost use Rattle.mirror_run.specs.SoFar.{MirrorOutside};
    ghost use Rattle.update_run.specs.Saved.{keeping};

    ghost Value = { MirrorOutside };

    ghost view = { λ w. record {
      updates = N.view w.updates;
      finds = M.view w.finds;
      keeper = keeping (K.handed w.keep) (K.kept w.keep);
      output = O.contents w.out;
      readings = C.answers w.clock;
      door = door_seen (D.log w.door) (D.coming w.door);
      faults = record { output = O.faults w.out; keeper = K.faults w.keep; door = D.faults w.door };
    } };
}
