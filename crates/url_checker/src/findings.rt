use hash_prefixes::{FullHash, Prefix};
use sb_model::{Bytes, ListName, Row};
use url_canon::UrlFault;

/// A member of a list's set that begins the full hash of an expression of a URL.
#[derive(Clone, Copy, Debug, PartialEq, Eq)]
pub struct Hit {
    pub list: ListName,
    pub prefix: Prefix,
    pub hash: FullHash,
}

/// What the lists of one publication have of a URL.
#[derive(Debug, Drop)]
pub struct Finding {
    /// The number of the publication whose lists were looked at.
    pub number: u64,
    /// The text of the URL's canonical form.
    pub text: Bytes,
    /// Its hits on these lists.
    pub hits: Row<Hit>,
}

/// What a look at the lists gives of a URL.
#[derive(Debug, Drop)]
pub enum Checked {
    /// Its canonical form, and its hits.
    Found(Finding),
    /// It has no canonical form.
    Refused(UrlFault),
}
