//! Cases as text: which lines belong to a case, the bytes that its texts stand for, the objects in memory that its fields
//! give, and what is printed where something else comes than they say. `docs/FORMATS.md` says how a case is written.
#![tactic(auto)]

pub use book::{Book, Reader};
pub use comparing::Left;
pub use fault::{CaseFault, FirstFault};
pub use fields::{check, field, lasting_field, numbers};
pub use frames::turned;
pub use names::Names;
pub use objects::{Objects, Place, Scripts, objects_of, push_text};
pub use page::Page;
pub use parts::{Met, compare_parts, given};
pub use plays::{Coming, Harm, Play, has_server, sessions};
pub use report::Differences;
pub use sheet::{Scope, Sheet, Span, between};
pub use words::{low_word, size_of_number, words_of};

mod book;
mod comparing;
mod fault;
mod fields;
mod frames;
mod names;
mod objects;
mod page;
mod parts;
mod pieces;
mod plays;
mod report;
mod sheet;
mod words;
