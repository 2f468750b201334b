ghost use Rattle.std.specs.Prelude.{Bool, List};
ghost use Rattle.client_line.specs.Lines.{LineView};
ghost use Rattle.http_edge.specs.declared.messages.Target.{Target};
ghost use Rattle.mirror_finds.specs.Finds.{FindInTurn, FindsKeepToWaits, FindsSeen, FindsStart, HasPassedFinds};

/// The law of waits: no session of the finds of a mirror precedes its allowed moment, also none of a find that was stopped, and none that
/// comes after it.
pub fn mirror_finds_keep_to_waits()
    ensures { (target : Target) (need : Bool) (start : FindsStart) (finds : List FindInTurn) (now : FindsSeen) (line : LineView)
        → HasPassedFinds target need start finds now line → FindsKeepToWaits start.waits finds }
{}
