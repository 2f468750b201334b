ghost use Rattle.std.specs.Prelude.{◌≡◌};
ghost use Rattle.mirror_connections.specs.Over.{door_seen};
ghost use Rattle.update_run.specs.Saved.{keeping};

use client_line::Line;
use mirror_run::MirrorWorld;
use sb_outside::{Clock, Door, Keeper, Sink};

/// What stands outside a mirror: its output, its keeper, the lines of its updates and of its finds, the clock by which it knows what is due,
/// and the door at which its clients come in.
pub fn mirror_world<O: Sink, K: Keeper, N: Line, M: Line, C: Clock, D: Door>(
    out: O,
    keep: K,
    updates: N,
    finds: M,
    clock: C,
    door: D,
) -> MirrorWorld<O, K, N, M, C, D>
    ensures { result ≡ record {
      updates = N.view updates;
      finds = M.view finds;
      keeper = keeping (K.handed keep) (K.kept keep);
      output = O.contents out;
      readings = C.answers clock;
      door = door_seen (D.log door) (D.coming door);
      faults = record { output = O.faults out; keeper = K.faults keep; door = D.faults door };
    } }
{
    MirrorWorld {
        out,
        keep,
        updates,
        finds,
        clock,
        door,
    }
}
