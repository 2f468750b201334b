//! Rice records: rising numbers of 32 bits as the Golomb-Rice codes of their differences, as the
//! message `RiceDeltaEncoding` of the Safe Browsing Update API, version 4, has them.
//!
//! `encode` makes the record of a list, `decode` gives the list of a record, and `RiceReader` gives
//! it one number at a time. `specs/Rice.antt` says which record stands for which list, and `laws`
//! that `encoding_of` and `decoding_of`, which the contracts cite, go by it.
#![tactic(auto)]

pub use decoding::decode;
pub use encoding::encode;
pub use fault::RiceFault;
pub use laws::{decoding_goes_by_the_record, encoding_is_decoded};
pub use reader::RiceReader;
pub use record::RiceRecord;

mod cursor;
mod decoding;
mod encoding;
mod fault;
mod laws;
mod parameter;
mod place;
mod reader;
mod record;
mod run;
mod window;
mod writer;
