ghost use Rattle.std.specs.Prelude.{◌≡◌, ◌≢◌, true, Err, IfOk, IfSome};
ghost use Rattle.url_canon.specs.Canonical.{canonical_of};
ghost use Rattle.snapshot_publish.specs.Publications.{IsPrefixOf, IsLastOf};
ghost use Rattle.url_checker.specs.Checking.{IsFindingOf};
ghost use Rattle.url_checker.specs.Hits.{MarksAll};
ghost use Rattle.parallel_checks.specs.Checks.{Shows, GoesOn, IsCheckOn, IsLastFinding};

use sb_model::OutOfMemory;
use snapshot_publish::{Seat, Snapshot};
use std::alloc::Global;
use url_canon::UrlFault;
use url_checker::{
    CheckFault, Checked, Finding, Sizes, local_check_on, local_check_with, sizes_on,
};

/// Looks a URL up on the last publication, by a look that waits for nobody.
pub fn local_check(seat: &mut Seat, alloc: Global, url: &[u8]) -> Result<Finding, CheckFault>
    ensures finding { IfOk result (IsLastFinding seat.new.list url.now) }
    ensures looked { IfOk result (λ _. seat.new.looked ≡ true) }

    // A fault of the URL comes exactly where it has no canonical form, and is the fault that stands there; unless memory is refused.
    ensures refused { (fault : UrlFault) → result ≡ Err (CheckFault.Url fault)
        → canonical_of url.now ≡ Err fault }
    ensures no_memory { result ≢ Err (CheckFault.Url UrlFault.OutOfMemory) }

    // After an `Err` too.
    ensures goes_on { GoesOn seat.old seat.new }
{
    let last = seat.latest()?;
    local_check_on(alloc, &last.lists, last.number, url)
}

/// A publication with the sizes of its prefixes.
#[derive(Drop)]
pub(crate) struct Shown {
    pub(crate) last: Snapshot,
    sizes: Sizes,
    ghost marked: { MarksAll sizes.marks last.lists },
}

/// The publication with its sizes.
pub(crate) fn with_sizes(last: Snapshot) -> Shown
    ensures { result.last ≡ last }
{
    let sizes = sizes_on(&last.lists);
    Shown { last, sizes }
}

/// Looks once more, and makes sizes anew only where the publication is another one.
pub(crate) fn look(seat: &mut Seat, known: Option<Shown>) -> Result<Shown, OutOfMemory>
    requires { IfSome known (λ shown. Shows seat.old.list shown.last) }
    ensures last { IfOk result (λ shown. IsLastOf seat.new.list shown.last) }
    ensures goes_on { GoesOn seat.old seat.new }
{
    let last = seat.latest()?;
    if let Some(known) = known {
        if known.last.number == last.number {
            return Ok(known);
        }
    }
    Ok(with_sizes(last))
}

/// The check of a URL on a publication.
pub(crate) fn check_on(alloc: Global, shown: &Shown, url: &[u8]) -> Result<Checked, OutOfMemory>
    ensures { IfOk result (IsCheckOn shown.now.last url.now) }
{
    match local_check_with(
        alloc,
        &shown.last.lists,
        &shown.sizes,
        shown.last.number,
        url,
    ) {
        Ok(finding) => Ok(Checked::Found(finding)),
        Err(CheckFault::Url(fault)) => Ok(Checked::Refused(fault)),
        Err(CheckFault::OutOfMemory) => Err(OutOfMemory),
    }
}
