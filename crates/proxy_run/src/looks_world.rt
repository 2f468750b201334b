use client_line::Line;
use sb_outside::{Door, Sink};
use std::marker::Model;

/// What stands outside the look-ups of a proxy: the output, the line of its finds, and the door at which look-ups come in.
pub struct LookWorld<O: Sink, M: Line, D: Door> {
    pub out: O,
    pub finds: M,
    pub door: D,
}

impl<O: Sink, M: Line, D: Door> Model for LookWorld<O, M, D> {
    ghost use Rattle.held_connections.specs.Over.{door_view};
    ghost use Rattle.proxy_run.specs.LookSoFar.{LookOutside};

    ghost Value = { LookOutside };

    ghost view = { λ w. record {
      finds = M.view w.finds;
      output = O.contents w.out;
      door = door_view (D.log w.door) (D.coming w.door);
      output_faults = O.faults w.out;
      door_faults = D.faults w.door;
    } };
}
