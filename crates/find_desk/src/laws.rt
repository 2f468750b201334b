ghost use Rattle.std.specs.Prelude.{Bool, List};
ghost use Rattle.client_line.specs.Lines.{LineView};
ghost use Rattle.find_desk.specs.Desk.{DeskSeen, DeskStart, HasKeptDesk};
ghost use Rattle.find_desk.specs.Events.{DeskEvent, DeskKeepsToWaits};
ghost use Rattle.find_desk.specs.Verdicts.{AskForFirstLooks, AskForOpenHits, LooksStay};
ghost use Rattle.http_edge.specs.declared.messages.Target.{Target};

/// The law of waits: no session of a desk precedes its allowed moment, also none of a find that was stopped, and none that comes after it.
pub fn desks_keep_to_waits()
    ensures { (target : Target) (need : Bool) (start : DeskStart) (events : List DeskEvent) (now : DeskSeen) (line : LineView)
        → HasKeptDesk target need start events now line → DeskKeepsToWaits start.waits events }
{}

/// The law of looks: one that is among the events of a desk stays among them, whatever comes after.
pub fn looks_stay()
    ensures { LooksStay }
{}

/// The law of what a find asks for: nothing but hits that looks left open, and all of those of each look for which it says that it asks.
pub fn finds_ask_for_open_hits()
    ensures were_open { AskForOpenHits }
    ensures all_open { AskForFirstLooks }
{}
