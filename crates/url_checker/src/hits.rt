ghost use Rattle.std.specs.Prelude.{◌≡◌, ◌≢◌, ◌≤◌, ◌<◌, ◌↔◌, [], ◌∷◌, ◌++◌, length, map, Err, All, Contains, IsTrue, IfOk, OnOk};
ghost use Rattle.std.specs.List.{flat_map};
ghost use Rattle.url_canon.specs.Url.{text_of_url};
ghost use Rattle.url_canon.specs.Canonical.{canonical_of};
ghost use Rattle.url_hashes.specs.Hashes.{IsWholeHash};
ghost use Rattle.url_checker.specs.Hits.{hits_at, hits_with, hits_on, hits_of, AreAskable, prefixes_hit, Marks, MarksAll, IsPastMarks};
ghost use Rattle.url_checker.specs.Checking.{IsFindingOf};

use crate::sizes::{Sizes, past_marks, sizes_on};
use crate::{CheckFault, Finding, Hit};
use hash_prefixes::{FullHash, Prefix};
use prefix_set::{PrefixSet, sets_go_by_members};
use sb_model::{Bytes, OutOfMemory, Row, Steps};
use std::alloc::Global;
use std::marker::Brand;
use std::sync::ledger::{Blank, Ledger};
use update_client::{ClientLists, HeldList};
use url_canon::{CanonicalUrl, UrlFault, canonical};
use url_hashes::url_hashes;

// Whether a set has a prefix, in counted steps.
fn looked_up<L: Ledger>(blank: Blank, set: &PrefixSet, prefix: &Prefix) -> bool
    requires name { blank.name ≡ L.name }
    requires parts { blank.parts ≡ L.parts }
    requires some { 0 < blank.parts }
    ensures { IsTrue result ↔ Contains set.now prefix.now }
{
    let mut steps = Steps::<L>::new(blank);
    set.contains_counted(prefix, &mut steps)
}

// Whether a set has a prefix. Members that have its first two bytes are compared with it, as many as their count has binary
// digits, and no other member is read.
fn has(set: &PrefixSet, prefix: &Prefix) -> bool
    ensures { IsTrue result ↔ Contains set.now prefix.now }
{
    looked_up::<Brand>(Blank::new(1), set, prefix)
}

// Appends the hit of a hash on a list at a size, where the list has its first bytes, so many of them.
fn push_hit(
    hits: &mut Row<Hit>,
    held: &HeldList,
    hash: &FullHash,
    size: u8,
) -> Result<(), OutOfMemory>
    requires at_least { 4 ≤ size }
    requires at_most { size ≤ 32 }
    ensures { OnOk result (hits.new ≡ hits.old ++ hits_at held.now hash.now (size ∷ [])) }
{
    let prefix = hash.prefix(size);
    if has(&held.set, &prefix) {
        hits.push(Hit {
            list: held.name,
            prefix,
            hash: *hash,
        })?;
    }
    Ok(())
}

// Appends the hits of a hash on a list, one for each size at which the list has its first bytes.
//
// A size that no list has is not looked up.
fn push_hits(
    hits: &mut Row<Hit>,
    held: &HeldList,
    sizes: &[bool; 33],
    past: u8,
    hash: &FullHash,
) -> Result<(), OutOfMemory>
    requires marked { Marks sizes.now held.now }
    requires past { IsPastMarks sizes.now past }
    requires at_least { 4 ≤ past }
    requires at_most { past ≤ 33 }
    requires whole { IsWholeHash hash.now }
    ensures { OnOk result (hits.new ≡ hits.old ++ hits_with held.now hash.now) }
{
    for size in 4..past {
        if sizes[size as usize] {
            push_hit(hits, held, hash, size)?;
        }
    }
    Ok(())
}

// Appends the hits of some hashes on a list.
fn push_hits_on(
    hits: &mut Row<Hit>,
    held: &HeldList,
    sizes: &[bool; 33],
    past: u8,
    hashes: &[FullHash],
) -> Result<(), OutOfMemory>
    requires marked { Marks sizes.now held.now }
    requires past { IsPastMarks sizes.now past }
    requires at_least { 4 ≤ past }
    requires at_most { past ≤ 33 }
    requires whole { All IsWholeHash hashes.now }
    ensures { OnOk result (hits.new ≡ hits.old ++ hits_on hashes.now held.now) }
{
    for hash in hashes {
        push_hits(hits, held, sizes, past, hash)?;
    }
    Ok(())
}

// The hits of some hashes on each list.
fn hits_on_lists(
    alloc: Global,
    lists: &[HeldList],
    sizes: &[bool; 33],
    hashes: &[FullHash],
) -> Result<Row<Hit>, OutOfMemory>
    requires marked { MarksAll sizes.now lists.now }
    requires whole { All IsWholeHash hashes.now }
    ensures { IfOk result (λ hits. hits ≡ flat_map (hits_on hashes.now) lists.now) }
{
    let past = past_marks(sizes);
    let mut hits = Row::new(alloc);
    for held in lists {
        push_hits_on(&mut hits, held, sizes, past, hashes)?;
    }
    Ok(hits)
}

// The hits of a URL on some lists.
fn hits(
    alloc: Global,
    lists: &ClientLists,
    sizes: &Sizes,
    url: &CanonicalUrl,
) -> Result<Row<Hit>, OutOfMemory>
    requires marked { MarksAll sizes.now.marks lists.now }
    ensures value { IfOk result (λ hits. hits ≡ hits_of lists.now url.now) }
    ensures askable { IfOk result AreAskable }
    ensures few { IfOk result (λ hits. length (prefixes_hit hits) ≤ 870) }
{
    sets_go_by_members();
    let hashes = url_hashes(alloc, url)?;
    let hits = hits_on_lists(alloc, lists.lists(), &sizes.marks, hashes.as_slice())?;
    Ok(hits)
}

// What is found of a canonical URL on some lists.
fn finding(
    alloc: Global,
    lists: &ClientLists,
    sizes: &Sizes,
    number: u64,
    url: CanonicalUrl,
) -> Result<Finding, OutOfMemory>
    requires marked { MarksAll sizes.now.marks lists.now }
    ensures number { IfOk result (λ finding. finding.number ≡ number) }
    ensures text { IfOk result (λ finding. finding.text ≡ text_of_url url) }
    ensures hits { IfOk result (λ finding. finding.hits ≡ hits_of lists.now url) }
    ensures askable { IfOk result (λ finding. AreAskable finding.hits) }
    ensures few { IfOk result (λ finding. length (prefixes_hit finding.hits) ≤ 870) }
{
    let hits = hits(alloc, lists, sizes, &url)?;
    let text = url.into_text();
    Ok(Finding { number, text, hits })
}

/// Looks a URL up on the lists of a client, which are the publication of this number. `local_check_with` does so for many URLs
/// on the same lists.
///
/// The hits are, for each list in order, each expression of the URL in order and each size from 4 to 32 bytes, those where the
/// first bytes of the expression's full hash are on the list.
pub fn local_check_on(
    alloc: Global,
    lists: &ClientLists,
    number: u64,
    url: &[u8],
) -> Result<Finding, CheckFault>
    ensures finding { IfOk result (IsFindingOf lists.now number url.now) }

    // A fault of the URL comes exactly where it has no canonical form, and is the fault that stands there; unless memory is refused.
    ensures refused { (fault : UrlFault) → result ≡ Err (CheckFault.Url fault)
        → canonical_of url.now ≡ Err fault }
    ensures no_memory { result ≢ Err (CheckFault.Url UrlFault.OutOfMemory) }

    // One request can ask for the hits, and they have at most 870 prefixes: 29 sizes of 30 hashes.
    ensures askable { IfOk result (λ finding. AreAskable finding.hits) }
    ensures few { IfOk result (λ finding. length (prefixes_hit finding.hits) ≤ 870) }
{
    local_check_with(alloc, lists, &sizes_on(lists), number, url)
}

/// Looks a URL up as `local_check_on` does, where the sizes of the lists are known.
pub fn local_check_with(
    alloc: Global,
    lists: &ClientLists,
    sizes: &Sizes,
    number: u64,
    url: &[u8],
) -> Result<Finding, CheckFault>
    requires marked { MarksAll sizes.now.marks lists.now }
    ensures finding { IfOk result (IsFindingOf lists.now number url.now) }

    // A fault of the URL comes exactly where it has no canonical form, and is the fault that stands there; unless memory is refused.
    ensures refused { (fault : UrlFault) → result ≡ Err (CheckFault.Url fault)
        → canonical_of url.now ≡ Err fault }
    ensures no_memory { result ≢ Err (CheckFault.Url UrlFault.OutOfMemory) }

    // One request can ask for the hits, and they have at most 870 prefixes: 29 sizes of 30 hashes.
    ensures askable { IfOk result (λ finding. AreAskable finding.hits) }
    ensures few { IfOk result (λ finding. length (prefixes_hit finding.hits) ≤ 870) }
{
    let canonical = canonical(alloc, url)?;
    Ok(finding(alloc, lists, sizes, number, canonical)?)
}
