use crate::looks_world::LookWorld;
use client_line::Line;
use sb_outside::{Clock, Door, Keeper, Sink};
use std::marker::Model;

/// What stands outside a proxy: its keeper, the line of its updates, the clock by which it knows what is due, and what its look-ups need: the
/// output, the line of its finds, and the door.
pub struct ProxyWorld<O: Sink, K: Keeper, N: Line, M: Line, C: Clock, D: Door> {
    pub keep: K,
    pub updates: N,
    pub clock: C,
    pub looks: LookWorld<O, M, D>,
}

impl<O: Sink, K: Keeper, N: Line, M: Line, C: Clock, D: Door> Model
    for ProxyWorld<O, K, N, M, C, D> {
    ghost use Rattle.proxy_run.specs.SoFar.{ProxyOutside};
    ghost use Rattle.update_run.specs.Saved.{keeping};

    ghost Value = { ProxyOutside };

    ghost view = { λ w. record {
      updates = N.view w.updates;
      keeper = keeping (K.handed w.keep) (K.kept w.keep);
      keeper_faults = K.faults w.keep;
      readings = C.answers w.clock;
      looks = w.looks;
    } };
}
