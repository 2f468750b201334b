//! The store of a client: the text in which it keeps its lists between runs.
//!
//! `specs/Store.antt` has the text of lists, `Reading` what a text is read as and its first fault,
//! `Selected` the lists that a client begins with, and `Printed` the faults as they are printed.
#![tactic(auto)]

pub use fault::StoreFault;
pub use laws::{cut_stores_are_not_read, read_texts_are_stores};
pub use printing::push_store_cause;
pub use reading::{LONGEST_STORE, STORE_MAGIC, read_store};
pub use selecting::select;
pub use writing::write_store;

mod fault;
mod fields;
mod format;
mod gathered;
mod laws;
mod lists;
mod prefixes;
mod printing;
mod reading;
mod selecting;
mod writing;
