ghost use Rattle.std.specs.Prelude.{◌≡◌};
ghost use Rattle.held_connections.specs.Over.{door_view};
ghost use Rattle.update_run.specs.Saved.{keeping};

use client_line::Line;
use proxy_run::{LookWorld, ProxyWorld};
use sb_outside::{Clock, Door, Keeper, Sink};

/// What stands outside a proxy: its output, its keeper, the lines of its updates and of its finds, the clock by which it knows what is due,
/// and the door at which look-ups come in.
pub fn proxy_world<O: Sink, K: Keeper, N: Line, M: Line, C: Clock, D: Door>(
    out: O,
    keep: K,
    updates: N,
    finds: M,
    clock: C,
    door: D,
) -> ProxyWorld<O, K, N, M, C, D>
    ensures { result ≡ record {
      updates = N.view updates;
      keeper = keeping (K.handed keep) (K.kept keep);
      keeper_faults = K.faults keep;
      readings = C.answers clock;
      looks = record {
        finds = M.view finds;
        output = O.contents out;
        door = door_view (D.log door) (D.coming door);
        output_faults = O.faults out;
        door_faults = D.faults door;
      };
    } }
{
    ProxyWorld {
        keep,
        updates,
        clock,
        looks: LookWorld { out, finds, door },
    }
}
