ghost use Rattle.std.specs.Prelude.{◌≡◌, ◌<◌, ◌≤◌, length, drop};
ghost use Rattle.std.specs.Iterator.{YieldsFirstRef, item_count};

use crate::packed::PackedPrefixes;
use std::marker::Model;

/// Lends prefixes as byte strings, one after the other. Contracts see it as the list of those that
/// are left.
#[derive(Drop)]
pub struct Members<'a> {
    list: &'a PackedPrefixes,
    next: usize,
    end: usize,
}

impl<'a> Model for Members<'a> {
    ghost use Rattle.std.specs.Prelude.{ℕ, List, ◌≡◌, ◌≤◌, length, drop};

    ghost Value = { List (List ℕ) };

    ghost view = { λ m. drop m.next m.list.now };

    ghost invariant = { λ m. (m.end ≡ length m.list.now) × (m.next ≤ m.end) };
}

impl<'a> Members<'a> {
    // All prefixes of a list.
    #[inline]
    pub(crate) fn of(list: &'a PackedPrefixes) -> Members<'a>
        ensures { result ≡ list.now }
    {
        Members {
            list,
            next: 0,
            end: list.len(),
        }
    }
}

impl<'a> Iterator for Members<'a> {
    type Item = &'a [u8];

    ghost next_gives = { YieldsFirstRef (λ m. m) };

    ghost remaining = { item_count (λ m. m) };

    #[inline]
    fn next(&mut self) -> Option<&'a [u8]> {
        if self.next == self.end {
            return None;
        }
        let list = self.list;
        let member = list.at(self.next);
        self.next += 1;
        Some(member)
    }

    fn size_hint(&self) -> (usize, Option<usize>) {
        let left = self.end - self.next;
        (left, Some(left))
    }
}

impl<'a> ExactSizeIterator for Members<'a> {
    #[inline]
    fn len(&self) -> usize {
        self.end - self.next
    }
}
