//! Steps with a keeper of a file.
use crate::outcome::Outcome;
use crate::things::Held;
use crate::words::{cut, text_of};
use real_objects::{FileKeeper, KeptForm};
use sb_model::OutOfMemory;
use sb_outside::{KeepFault, Keeper};
use std::alloc::Global;

/// What the files of the steps may be.
pub(crate) const FORM: KeptForm = KeptForm {
    longest: 20,
    front: *b"KEPT",
};

pub(crate) fn step<'a>(rt: &'a HostRuntime, keeper: &mut Held<'a>, line: &str) -> Outcome {
    let (word, rest) = cut(line);
    match word.as_bytes() {
        b"open" => open(rt, keeper, rest, true),
        b"look" => open(rt, keeper, rest, false),
        b"read" => read(rt.alloc(), keeper),
        b"keep" => keep(rt.alloc(), keeper, rest),
        b"faults" => Outcome::Number(keeper.faults()),
        b"gone" => let_go(rt, keeper),
        _ => Outcome::NoStep,
    }
}

fn let_go<'a>(rt: &'a HostRuntime, keeper: &mut Held<'a>) -> Outcome {
    *keeper = FileKeeper::unusable(rt);
    Outcome::Done
}

/// Makes a keeper in the place of the one before, which is let go first.
fn open<'a>(rt: &'a HostRuntime, keeper: &mut Held<'a>, path: &str, replaces: bool) -> Outcome {
    let_go(rt, keeper);
    match FileKeeper::new(rt, rt.alloc(), path, FORM, replaces) {
        Ok(made) => *keeper = made,
        Err(OutOfMemory) => return Outcome::OutOfMemory,
    }
    match keeper.why() {
        Some(why) => Outcome::Cannot(Some(why)),
        None => Outcome::Done,
    }
}

fn read(alloc: Global, keeper: &mut Held<'_>) -> Outcome {
    match keeper.load(alloc) {
        Ok(Some(bytes)) => Outcome::Text(bytes),
        Ok(None) => Outcome::Word("nothing"),
        Err(KeepFault::OutOfMemory) => Outcome::OutOfMemory,
        Err(KeepFault::Failed) => Outcome::Cannot(keeper.why()),
    }
}

fn keep(alloc: Global, keeper: &mut Held<'_>, more: &str) -> Outcome {
    let Ok(bytes) = text_of(alloc, more) else {
        return Outcome::OutOfMemory;
    };
    match keeper.replace(bytes.as_slice()) {
        Ok(()) => Outcome::Done,
        Err(KeepFault::OutOfMemory) => Outcome::OutOfMemory,
        Err(KeepFault::Failed) => Outcome::Cannot(keeper.why()),
    }
}
