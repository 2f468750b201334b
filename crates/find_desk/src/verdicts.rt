ghost use Rattle.std.specs.Prelude.{List, ◌∷◌, ◌++◌, IfOk};
ghost use Rattle.find_desk.specs.Desk.{DeskStart};
ghost use Rattle.find_desk.specs.Events.{DeskEvent, Found, MadeFind};
ghost use Rattle.find_desk.specs.Verdicts.{HasAskedFor, IsEndOf, IsLookIn, IsVerdictByFind, IsVerdictIn};
ghost use Rattle.url_checker.specs.declared.findings.Hit.{Hit};

use crate::EndedFind;
use sb_model::OutOfMemory;
use std::alloc::Global;
use url_checker::{Looks, verdict_by_answer};
use verdict_report::Verdict;

/// The verdict of a look by a find that asked for each hit that it left open. The answer decides them whatever its times of keeping.
pub fn verdict_after(alloc: Global, look: &Looks, ended: &EndedFind) -> Result<Verdict, OutOfMemory>
    requires asked { HasAskedFor ended.now.asked look.now }

    // It goes back to the look and to this find, if the find is an event after it.
    ensures given { (start : DeskStart) (events more : List DeskEvent) (hits : List Hit) (one : MadeFind)
        → IsLookIn start events hits look.now → IsEndOf one ended.now
        → IfOk result (IsVerdictIn start (events ++ Found one ∷ more) hits) }
    ensures by_find { (start : DeskStart) (events more : List DeskEvent) (hits : List Hit) (one : MadeFind)
        → IsLookIn start events hits look.now → IsEndOf one ended.now
        → IfOk result (IsVerdictByFind start (events ++ Found one ∷ more) hits one) }
{
    verdict_by_answer(alloc, look, &ended.answer)
}
