//! Canonical URLs, as the Safe Browsing lists name them: a text becomes a scheme, a host, a path
//! and a query in one spelling.
#![tactic(auto)]

pub use address::address_has_four_bytes;
pub use canonicalize::canonical;
pub use fault::UrlFault;
pub use path::canonical_paths_are_normal;
pub use printing::push_url_cause;
pub use unescape::unescaping_has_one_end;
pub use url::CanonicalUrl;

mod address;
mod canonicalize;
mod escape;
mod fault;
mod host;
mod parts;
mod path;
mod printing;
mod split;
mod strip;
mod unescape;
mod url;
