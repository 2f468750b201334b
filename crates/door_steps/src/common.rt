use crate::numbered::{PIECE, answer_tag, fill_piece, piece_of};
use crate::outcome::Outcome;
use crate::seen::Turn;
use crate::stage::Stage;
use sb_model::{Bytes, OutOfMemory};
use sb_outside::SharedText;
use std::alloc::Global;

/// So many bytes of the answer to a number.
fn answer_bytes(alloc: Global, number: u8, length: u64) -> Result<Bytes, OutOfMemory> {
    let mut bytes = Bytes::new(alloc);
    let mut piece = [0; PIECE];
    let mut made = 0u64;
    for _ in 0..length {
        let count = piece_of(length.saturating_sub(made));
        if count == 0 {
            break;
        }
        fill_piece(&mut piece[..count], answer_tag(number), made);
        bytes.append(&piece[..count])?;
        made = made.saturating_add(count as u64);
    }
    Ok(bytes)
}

/// Makes a text of so many bytes of the answer to a number, which several answers share.
pub(crate) fn make_common(stage: &mut Stage<'_>, number: u8, length: u64) -> Outcome {
    let alloc = stage.rt.alloc();
    let Ok(bytes) = answer_bytes(alloc, number, length) else {
        return Outcome::Cannot("out of memory");
    };
    match SharedText::new(alloc, number as u64, bytes) {
        Ok(text) => {
            stage.common = Some(text);
            Outcome::Done
        }
        Err(_) => Outcome::Cannot("out of memory"),
    }
}

/// Answers the kept wire of a number with that text.
pub(crate) fn lend(stage: &mut Stage<'_>, number: u8) -> Turn {
    match &stage.common {
        Some(text) => stage.gate.lend(number, text),
        None => Turn::Nobody,
    }
}
