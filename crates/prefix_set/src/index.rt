ghost use Rattle.std.specs.Prelude.{◌≡◌, ℕ, ◌<◌, ◌≤◌, List, [], length, slice_index, map, IfOk, OnOk};
ghost use Rattle.std.specs.List.{AllWithin};
ghost use Rattle.std.specs.List.Sorted.{IsNonDecreasing};
ghost use Rattle.sb_model.specs.Prefixes.{IsRising};
ghost use Rattle.prefix_set.specs.Index.{head_number, HaveHeads, ArePlacesOf, IsIndexOf};
ghost use Rattle.prefix_set.specs.Limits.{ArePrefixes};

use crate::packed::PackedPrefixes;
use sb_model::OutOfMemory;
use std::alloc::Global;

/// An index of rising prefixes by their heads, the first two bytes as a number.
#[derive(Debug, Drop)]
pub(crate) enum HeadIndex {
    /// The heads of all members in order, for small sets.
    Heads(Vec<u16>),
    /// Where the members with each head begin, and the end.
    Places(Vec<u32>),
}

// Sets with fewer members have the heads themselves as their index.
const FEW_MEMBERS: usize = 4096;

// A place for each head, and one for the end.
const PLACE_COUNT: usize = 65_537;

/// The first two bytes as a number.
pub(crate) fn head_of(bytes: &[u8]) -> u16
    requires { 2 ≤ length bytes.now }
    ensures value { result ≡ head_number bytes.now }
    ensures second { slice_index bytes.now 1 < 256 }
{
    u16::from(bytes[0]) * 256 + u16::from(bytes[1])
}

impl HeadIndex {
    /// The index of no member. It takes no memory.
    pub(crate) fn empty(alloc: Global) -> HeadIndex
        ensures { IsIndexOf result [] }
    {
        HeadIndex::Heads(Vec::new(alloc))
    }

    /// The index of rising members.
    pub(crate) fn of(alloc: Global, members: &PackedPrefixes) -> Result<HeadIndex, OutOfMemory>
        requires rising { IsRising members.now }
        requires count { length members.now ≤ 1_048_576 }
        ensures is { IfOk result (λ index. IsIndexOf index members.now) }
        ensures prefixes { OnOk result (ArePrefixes members.now) }
        ensures heads { OnOk result (HaveHeads members.now) }
    {
        if members.len() < FEW_MEMBERS {
            Ok(HeadIndex::Heads(heads(alloc, members)?))
        } else {
            Ok(HeadIndex::Places(places(alloc, members)?))
        }
    }

    /// The same index once more.
    pub(crate) fn copy(&self, alloc: Global) -> Result<HeadIndex, OutOfMemory>
        ensures { (members : List (List ℕ)) → IsIndexOf self.now members
            → IfOk result (λ copy. IsIndexOf copy members) }
    {
        match self {
            HeadIndex::Heads(heads) => Ok(HeadIndex::Heads(Vec::from_slice(alloc, heads)?)),
            HeadIndex::Places(places) => Ok(HeadIndex::Places(Vec::from_slice(alloc, places)?)),
        }
    }
}

// The heads of all members.
fn heads(alloc: Global, members: &PackedPrefixes) -> Result<Vec<u16>, OutOfMemory>
    ensures value { IfOk result (λ heads. heads.items ≡ map head_number members.now) }
    ensures prefixes { OnOk result (ArePrefixes members.now) }
    ensures heads { OnOk result (HaveHeads members.now) }
{
    let mut heads = Vec::with_capacity(alloc, members.len())?;
    for i in 0..members.len() {
        heads.push(head_of(members.at(i)))?;
    }
    Ok(heads)
}

// Where the members with each head begin, and the end.
fn places(alloc: Global, members: &PackedPrefixes) -> Result<Vec<u32>, OutOfMemory>
    requires rising { IsRising members.now }
    requires count { length members.now ≤ 1_048_576 }
    ensures value { IfOk result (λ places. ArePlacesOf places.items members.now) }
    ensures prefixes { OnOk result (ArePrefixes members.now) }
    ensures heads { OnOk result (HaveHeads members.now) }
{
    let mut places = Vec::with_capacity(alloc, PLACE_COUNT)?;
    for i in 0..members.len() {
        let head = head_of(members.at(i)) as usize;
        if head >= places.len() {
            places.resize(head + 1, i as u32)?;
        }
    }
    places.resize(PLACE_COUNT, members.len() as u32)?;
    Ok(places)
}

/// How many heads are below a number, where they stand in order.
pub(crate) fn heads_below(heads: &[u16], head: u32) -> usize
    requires { IsNonDecreasing heads.now }
    ensures within { result ≤ length heads.now }
    ensures front { AllWithin (λ other. other < head) heads.now 0 result }
    ensures back { AllWithin (λ other. head ≤ other) heads.now result (length heads.now) }
{
    heads.partition_point(|other| u32::from(*other) < head)
}
