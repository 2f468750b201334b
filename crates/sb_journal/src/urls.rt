ghost use Rattle.std.specs.Prelude.{◌≡◌, ◌++◌, OnOk};
ghost use Rattle.sb_journal.specs.Feed.{hash_of_url};
ghost use Rattle.sb_journal.specs.Refusals.{refusal};
ghost use Rattle.sb_journal.specs.Urls.{IsAsDefined};

use hash_prefixes::full_hash;
use sb_model::{Bytes, OutOfMemory};
use std::alloc::Global;
use url_canon::{UrlFault, canonical, push_url_cause};

/// The full hash of the expression that a URL is itself, or why the text has no canonical form.
pub(crate) fn hash_of_url(alloc: Global, text: &[u8]) -> Result<[u8; 32], UrlFault>
    ensures { IsAsDefined result (hash_of_url text.now) }
{
    match canonical(alloc, text) {
        Ok(url) => {
            let hash = full_hash(url.without_scheme());
            Ok(hash.bytes)
        }
        Err(fault) => Err(fault),
    }
}

/// Appends that a URL is refused.
pub fn push_refusal(page: &mut Bytes, fault: UrlFault) -> Result<(), OutOfMemory>
    ensures { OnOk result (page.new ≡ page.old ++ refusal fault) }
{
    page.append(b"refused ")?;
    push_url_cause(page, fault)
}
