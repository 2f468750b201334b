//! The expressions of a canonical URL: the hosts and paths that it lies under, by whose hashes the
//! lists are looked up.
#![tactic(auto)]

pub use combinations::{expression_spans, expressions};
pub use spans::Span;

mod combinations;
mod hosts;
mod paths;
mod places;
mod spans;
