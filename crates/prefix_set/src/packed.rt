ghost use Rattle.std.specs.Prelude.{◌≡◌, ℕ, ◌+◌, ◌<◌, ◌≤◌, ◌-◌, ◌%◌, ◌↔◌, List, [], ◌∷◌, ◌++◌, length, take, drop, slice_get, slice_index_or, nat_eq, filter, false, All, Some, IsTrue, IfOk, OnOk, OnErr, Contains};
ghost use Rattle.std.specs.List.{list_any};
ghost use Rattle.std.specs.Cmp.{partial_equiv_from_equiv};
ghost use Rattle.std.specs.Cmp.Lexicographic.{pointwise, lists_equiv, nat_list_eq_equiv};
ghost use Rattle.sb_model.specs.Prefixes.{bytes_cmp, IsRising, set_of, concatenation};
ghost use Rattle.sb_model.specs.History.{IsPrefixSize};
ghost use Rattle.sha2.specs.Sha256.{sha256};
ghost use Rattle.prefix_set.specs.Pieces.{pieces_of};
ghost use Rattle.prefix_set.specs.Packing.{ends_from, cut_from};

use crate::iteration::Members;
use crate::layout::Layout;
use crate::sorting::{compare_quad, precedes, quads_of, quads_rise, sort_quads};
use hash_prefixes::Prefix;
use sb_model::{Bytes, OutOfMemory};
use sha2::{Digest, Sha256};
use std::alloc::Global;
use std::cmp::Ordering;
use std::marker::Model;

// The most bytes that a list holds: the ends are numbers of 32 bits.
const LIMIT: usize = u32::MAX as usize;

/// Hash prefixes one after the other, in any order and with repeats. Contracts see them as the list
/// of byte strings, each of 4 to 32 bytes.
///
/// They have fewer than 2^32 bytes in all: where more would come, a call answers `OutOfMemory`.
#[derive(Debug, Drop)]
pub(crate) struct PackedPrefixes {
    bytes: Vec<u8>,
    layout: Layout,
}

impl Model for PackedPrefixes {
    ghost use Rattle.std.specs.Prelude.{ℕ, List};

    ghost Value = { List (List ℕ) };

    ghost use Rattle.prefix_set.specs.Packing.{members_of, IsPacked};

    ghost view = { λ p. members_of p.bytes.items p.layout };

    ghost invariant = { λ p. IsPacked p.bytes.items p.layout };
}

impl PackedPrefixes {
    /// No prefix. It takes no memory.
    pub(crate) fn new(alloc: Global) -> Self
        ensures { result ≡ [] }
    {
        PackedPrefixes {
            bytes: Vec::new(alloc),
            layout: Layout::Even { size: 4 },
        }
    }

    /// No prefix, with room for so many bytes.
    pub(crate) fn with_capacity(alloc: Global, bytes: usize) -> Result<Self, OutOfMemory>
        ensures { IfOk result (λ empty. empty ≡ []) }
    {
        Ok(PackedPrefixes {
            bytes: Vec::with_capacity(alloc, bytes)?,
            layout: Layout::Even { size: 4 },
        })
    }

    /// These prefixes, in their order.
    pub(crate) fn from_prefixes(
        alloc: Global,
        prefixes: &[Prefix],
    ) -> Result<PackedPrefixes, OutOfMemory>
        ensures { IfOk result (λ packed. packed ≡ prefixes.now) }
    {
        let mut packed = PackedPrefixes::with_capacity(alloc, 4 * prefixes.len())?;
        for prefix in prefixes {
            packed.push_each(prefix.size(), prefix.as_bytes())?;
        }
        Ok(packed)
    }

    /// The prefixes of one size that stand one after the other in a string of bytes.
    pub(crate) fn from_bytes(
        alloc: Global,
        size: u8,
        bytes: &[u8],
    ) -> Result<PackedPrefixes, OutOfMemory>
        requires size { IsPrefixSize size }
        requires whole { length bytes.now % size ≡ 0 }
        ensures { IfOk result (λ packed. packed ≡ pieces_of size bytes.now) }
    {
        let mut packed = PackedPrefixes::new(alloc);
        packed.push_each(size, bytes)?;
        Ok(packed)
    }

    /// How many prefixes there are.
    #[inline]
    pub(crate) fn len(&self) -> usize
        ensures { result ≡ length self.now }
    {
        match &self.layout {
            Layout::Even { size } => self.bytes.len() / *size as usize,
            Layout::Mixed { ends } => ends.len(),
        }
    }

    pub(crate) fn is_empty(&self) -> bool
        ensures { IsTrue result ↔ (self.now ≡ []) }
    {
        self.bytes.is_empty()
    }

    /// How many bytes they have in all.
    #[inline]
    pub(crate) fn byte_len(&self) -> usize
        ensures { result ≡ length (concatenation self.now) }
    {
        self.bytes.len()
    }

    // Where the prefix at a place begins, or where the last one ends.
    #[inline]
    fn start(&self, i: usize) -> usize
        requires { i ≤ length self.now }
        ensures { result ≡ length (concatenation (take i self.now)) }
    {
        match &self.layout {
            Layout::Even { size } => i * *size as usize,
            Layout::Mixed { .. } if i == 0 => 0,
            Layout::Mixed { ends } => ends[i - 1] as usize,
        }
    }

    // The bytes of so many prefixes from a place on.
    #[inline]
    fn part(&self, from: usize, count: usize) -> &[u8]
        requires { from + count ≤ length self.now }
        ensures value { result.now ≡ concatenation (take count (drop from self.now)) }
        ensures sizes { All (λ member. IsPrefixSize (length member)) self.now }
    {
        let bytes = self.bytes.as_slice();
        let start = self.start(from);
        let end = self.start(from + count);
        &bytes[start..end]
    }

    /// The bytes of the prefix at a place.
    #[inline]
    pub(crate) fn at(&self, i: usize) -> &[u8]
        requires { i < length self.now }
        ensures value { slice_get self.now i ≡ Some result.now }
        ensures size { IsPrefixSize (length result.now) }
    {
        self.part(i, 1)
    }

    // The order of the prefix at a place and some bytes, each looked at.
    fn compare_bytes(&self, i: usize, bytes: &[u8]) -> Ordering
        requires { i < length self.now }
        ensures { result ≡ bytes_cmp (slice_index_or self.now i []) bytes.now }
    {
        self.at(i).cmp(bytes)
    }

    /// The order of the prefix at a place and some bytes. Four bytes are compared as a number.
    #[inline]
    pub(crate) fn compare(&self, i: usize, bytes: &[u8]) -> Ordering
        requires { i < length self.now }
        ensures { result ≡ bytes_cmp (slice_index_or self.now i []) bytes.now }
    {
        if let Layout::Even { size: 4 } = &self.layout
            && let [a, b, c, d] = bytes
        {
            return compare_quad(&quads_of(&self.bytes)[i], &[*a, *b, *c, *d]);
        }
        self.compare_bytes(i, bytes)
    }

    /// Makes room for so many further bytes.
    pub(crate) fn reserve(&mut self, bytes: usize) -> Result<(), OutOfMemory>
        ensures { self.new ≡ self.old }
    {
        self.bytes.reserve(bytes)?;
        Ok(())
    }

    /// Appends one prefix.
    #[inline]
    pub(crate) fn push(&mut self, prefix: &[u8]) -> Result<(), OutOfMemory>
        requires { IsPrefixSize (length prefix.now) }
        ensures ok { OnOk result (self.new ≡ self.old ++ prefix.now ∷ []) }
        ensures err { OnErr result (self.new ≡ self.old) }
    {
        self.push_each(prefix.len() as u8, prefix)
    }

    /// Appends the prefixes of one size that stand one after the other in a string of bytes.
    #[inline]
    pub(crate) fn push_each(&mut self, size: u8, bytes: &[u8]) -> Result<(), OutOfMemory>
        requires size { IsPrefixSize size }
        requires whole { length bytes.now % size ≡ 0 }
        ensures ok { OnOk result (self.new ≡ self.old ++ pieces_of size bytes.now) }
        ensures err { OnErr result (self.new ≡ self.old) }
    {
        let held = self.bytes.len();
        if bytes.len() > LIMIT - held {
            return Err(OutOfMemory);
        }
        self.bytes.reserve(bytes.len())?;
        let alloc = *self.bytes.allocator();
        self.layout
            .extend_even(alloc, held as u32, size, bytes.len())?;
        self.bytes.extend_from_slice(bytes)?;
        Ok(())
    }

    // Appends the prefixes that were cut at these ends out of a longer string, in which their bytes
    // begin at `from`.
    fn push_cut(&mut self, bytes: &[u8], cuts: &[u32], from: u32) -> Result<(), OutOfMemory>
        requires ends { cuts.now ≡ ends_from from (cut_from from cuts.now bytes.now) }
        requires joined { concatenation (cut_from from cuts.now bytes.now) ≡ bytes.now }
        requires sizes { All (λ member. IsPrefixSize (length member))
            (cut_from from cuts.now bytes.now) }
        ensures ok { OnOk result (self.new ≡ self.old ++ cut_from from cuts.now bytes.now) }
        ensures err { OnErr result (self.new ≡ self.old) }
    {
        let held = self.bytes.len();
        if bytes.len() > LIMIT - held {
            return Err(OutOfMemory);
        }
        self.bytes.reserve(bytes.len())?;
        let alloc = *self.bytes.allocator();
        self.layout.extend_cut(alloc, held as u32, cuts, from)?;
        self.bytes.extend_from_slice(bytes)?;
        Ok(())
    }

    /// Appends the prefixes of another list from a place on and before another place.
    pub(crate) fn push_range(
        &mut self,
        other: &PackedPrefixes,
        from: usize,
        to: usize,
    ) -> Result<(), OutOfMemory>
        requires order { from ≤ to }
        requires within { to ≤ length other.now }
        ensures ok { OnOk result (self.new ≡ self.old ++ take (to - from) (drop from other.now)) }
        ensures err { OnErr result (self.new ≡ self.old) }
    {
        let bytes = other.part(from, to - from);
        match &other.layout {
            Layout::Even { size } => self.push_each(*size, bytes),
            Layout::Mixed { ends } => {
                self.push_cut(bytes, &ends[from..to], other.start(from) as u32)
            }
        }
    }

    /// The same prefixes once more.
    pub(crate) fn copy(&self, alloc: Global) -> Result<PackedPrefixes, OutOfMemory>
        ensures { IfOk result (λ copy. copy ≡ self.now) }
    {
        let mut copy = PackedPrefixes::new(alloc);
        copy.push_range(self, 0, self.len())?;
        Ok(copy)
    }

    /// Whether some prefix has this many bytes. It takes no time in the number of prefixes where all
    /// have one size.
    pub(crate) fn has_size(&self, size: u8) -> bool
        ensures { IsTrue result ↔ ((member : List ℕ) × Contains self.now member × (length member ≡ size)) }
    {
        match &self.layout {
            Layout::Even { size: own } => *own == size && !self.bytes.is_empty(),
            Layout::Mixed { .. } => self.iter().any(|member| member.len() == size as usize),
        }
    }

    // For each number up to 32 whether some prefix has so many bytes, each looked at.
    fn sizes_met(&self) -> [bool; 33]
        ensures occurs { (size : ℕ) → size < 33 → slice_index_or result size false
            ≡ list_any (λ member. nat_eq (length member) size) self.now }
        ensures length { length result ≡ 33 }
    {
        let mut sizes = [false; 33];
        for i in 0..self.len() {
            sizes[self.at(i).len()] = true;
        }
        sizes
    }

    /// For each number up to 32 whether some prefix has so many bytes. It takes no time in the number
    /// of prefixes where all have one size.
    pub(crate) fn sizes(&self) -> [bool; 33]
        ensures occurs { (size : ℕ) → size < 33 → slice_index_or result size false
            ≡ list_any (λ member. nat_eq (length member) size) self.now }
        ensures length { length result ≡ 33 }
    {
        match &self.layout {
            Layout::Even { size } => {
                let mut sizes = [false; 33];
                sizes[*size as usize] = !self.bytes.is_empty();
                sizes
            }
            Layout::Mixed { .. } => self.sizes_met(),
        }
    }

    // The bytes of the prefixes of one size, each looked at.
    fn gathered(&self, alloc: Global, size: u8) -> Result<Bytes, OutOfMemory>
        ensures { IfOk result (λ bytes. bytes
            ≡ concatenation (filter (λ member. nat_eq (length member) size) self.now)) }
    {
        let mut bytes = Bytes::new(alloc);
        for i in 0..self.len() {
            let member = self.at(i);
            if member.len() == size as usize {
                bytes.append(member)?;
            }
        }
        Ok(bytes)
    }

    /// The bytes of the prefixes of one size, one after the other. Where all have one size they are
    /// copied at once.
    pub(crate) fn bytes_of_size(&self, alloc: Global, size: u8) -> Result<Bytes, OutOfMemory>
        ensures { IfOk result (λ bytes. bytes
            ≡ concatenation (filter (λ member. nat_eq (length member) size) self.now)) }
    {
        match &self.layout {
            Layout::Even { size: own } if *own == size => Bytes::from_slice(alloc, &self.bytes),
            Layout::Even { .. } => Ok(Bytes::new(alloc)),
            Layout::Mixed { .. } => self.gathered(alloc, size),
        }
    }

    /// The prefixes, in their order.
    #[inline]
    pub(crate) fn iter(&self) -> Members<'_>
        ensures rest { result ≡ self.now }
        ensures sizes { All (λ member. IsPrefixSize (length member)) self.now }
    {
        // looked at for the prover: what packed prefixes keep to
        let _ = &self.bytes;
        Members::of(self)
    }

    /// The SHA-256 of the prefixes one after the other.
    pub(crate) fn digest(&self) -> [u8; 32]
        ensures { result ≡ sha256 (concatenation self.now) }
    {
        Sha256::digest(self.bytes.as_slice())
    }

    /// The bytes of the prefixes one after the other, from a place in them on.
    #[inline]
    pub(crate) fn bytes_from(&self, from: usize) -> &[u8]
        requires { from ≤ length (concatenation self.now) }
        ensures { result.now ≡ drop from (concatenation self.now) }
    {
        let bytes = self.bytes.as_slice();
        &bytes[from..]
    }

    // Whether the prefixes are those of another list, one by one.
    fn has_members_of(&self, other: &PackedPrefixes) -> bool
        ensures { IsTrue result ↔ (self.now ≡ other.now) }
    {
        if self.len() != other.len() {
            return false;
        }
        for i in 0..self.len() {
            if self.at(i) != other.at(i) {
                return false;
            }
        }
        true
    }

    // Whether each prefix comes before the next.
    fn members_rise(&self) -> bool
        ensures { IsTrue result ↔ IsRising self.now }
    {
        for i in 1..self.len() {
            if !precedes(self.at(i - 1), self.at(i)) {
                return false;
            }
        }
        true
    }

    /// Whether the prefixes rise already, without repeats.
    pub(crate) fn rises(&self) -> bool
        ensures { IsTrue result ↔ IsRising self.now }
    {
        match &self.layout {
            Layout::Even { size: 4 } => quads_rise(quads_of(&self.bytes)),
            _ => self.members_rise(),
        }
    }

    // The prefixes one by one.
    fn to_prefixes(&self, alloc: Global) -> Result<Vec<Prefix>, OutOfMemory>
        ensures { IfOk result (λ prefixes. prefixes.items ≡ self.now) }
    {
        let mut prefixes = Vec::with_capacity(alloc, self.len())?;
        for i in 0..self.len() {
            prefixes.push(Prefix::from_bytes(self.at(i)).unwrap())?;
        }
        Ok(prefixes)
    }

    // The rising list of the prefixes, by way of a copy of each.
    fn sorted_members(&self, alloc: Global) -> Result<PackedPrefixes, OutOfMemory>
        ensures { IfOk result (λ rising. rising ≡ set_of self.now) }
    {
        let mut prefixes = self.to_prefixes(alloc)?;
        prefixes.sort_unstable();
        prefixes.dedup();
        PackedPrefixes::from_prefixes(alloc, &prefixes)
    }

    /// The rising list of the prefixes, without repeats. Where they rise already nothing is sorted
    /// and nothing is copied. Prefixes of four bytes are sorted in their place, by way of their
    /// numbers, which take four further bytes each.
    pub(crate) fn into_rising(self, alloc: Global) -> Result<PackedPrefixes, OutOfMemory>
        ensures { IfOk result (λ rising. rising ≡ set_of self) }
    {
        if self.rises() {
            return Ok(self);
        }
        let mut list = self;
        if let Layout::Even { size } = list.layout
            && size == 4
        {
            sort_quads(alloc, &mut list.bytes)?;
            return Ok(list);
        }
        list.sorted_members(alloc)
    }
}

impl PartialEq for PackedPrefixes {
    ghost eq = { pointwise (pointwise nat_eq) };

    ghost laws = { partial_equiv_from_equiv (lists_equiv nat_list_eq_equiv) };

    fn eq(&self, other: &PackedPrefixes) -> bool {
        if let Layout::Even { size } = self.layout
            && let Layout::Even { size: others } = other.layout
            && size == others
        {
            return self.bytes.as_slice() == other.bytes.as_slice();
        }
        self.has_members_of(other)
    }
}

impl Eq for PackedPrefixes {
    ghost laws = { lists_equiv nat_list_eq_equiv };
}
