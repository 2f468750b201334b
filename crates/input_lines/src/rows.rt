ghost use Rattle.std.specs.Prelude.{◌≡◌, ◌<◌, ◌++◌, ◌∷◌, [], length, map, slice_get, Some, IfOk, OnOk};
ghost use Rattle.input_lines.specs.Lines.{lines_of};

use crate::first_line;
use sb_model::OutOfMemory;
use std::alloc::Global;
use std::marker::Model;

/// Lines of a text that is lent, in order. Contracts see them as the list of the lines.
#[derive(Drop)]
pub struct Lines<'t> {
    items: Vec<&'t [u8]>,
}

impl<'t> Model for Lines<'t> {
    ghost use Rattle.std.specs.Prelude.{ℕ, List, map};

    ghost Value = { List (List ℕ) };

    ghost view = { λ lines. map (λ line. line.now) lines.items.items };
}

impl<'t> Lines<'t> {
    /// No lines. They take no memory.
    pub fn new(alloc: Global) -> Lines<'t>
        ensures { result ≡ [] }
    {
        Lines {
            items: Vec::new(alloc),
        }
    }

    /// Takes the next line.
    pub fn push(&mut self, line: &'t [u8]) -> Result<(), OutOfMemory>
        ensures { OnOk result (self.new ≡ self.old ++ line.now ∷ []) }
    {
        self.items.push(line)?;
        Ok(())
    }

    /// How many lines there are.
    pub fn len(&self) -> usize
        ensures { result ≡ length self.now }
    {
        self.items.len()
    }

    /// The line at a place.
    pub fn at(&self, i: usize) -> &'t [u8]
        requires { i < length self.now }
        ensures { slice_get self.now i ≡ Some result.now }
    {
        self.items[i]
    }
}

/// The lines of a text, in order, without a copy of them.
pub fn split_lines(alloc: Global, text: &[u8]) -> Result<Lines<'_>, OutOfMemory>
    ensures { IfOk result (λ lines. lines ≡ lines_of text.now) }
{
    let mut lines = Lines::new(alloc);
    let mut rest = text;
    while !rest.is_empty() {
        let (line, tail) = first_line(rest);
        lines.push(line)?;
        rest = tail;
    }
    Ok(lines)
}
