ghost use Rattle.std.specs.Prelude.{◌≡◌, ◌++◌, length, take, OnOk, OnErr};
ghost use Rattle.url_canon.specs.Printed.{url_cause};

use crate::UrlFault;
use sb_model::{Bytes, OutOfMemory};

/// Appends why a text has no canonical URL, as it is printed: nothing for refused memory, which is never
/// told. After an `Err`, which comes only where memory is refused, the page begins as it was.
pub fn push_url_cause(page: &mut Bytes, fault: UrlFault) -> Result<(), OutOfMemory>
    ensures ok { OnOk result (page.new ≡ page.old ++ url_cause fault) }
    ensures front { OnErr result (take (length page.old) page.new ≡ page.old) }
{
    match fault {
        UrlFault::Empty => page.append(b"empty"),
        UrlFault::NoHost => page.append(b"no-host"),
        UrlFault::TooLong(len) => {
            page.append(b"too-long ")?;
            page.append_decimal(len as u64)
        }
        UrlFault::OutOfMemory => Ok(()),
    }
}
