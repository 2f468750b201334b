//! The words that the commands of clients share: the path of the store, the address of the server, the key, the limits and the flags
//! of what is asked for beside the lists. `specs/Asking.antt` has what command lines give of them.
#![tactic(auto)]

pub use laws::asked_targets_are_sound;
pub use options::{Asking, are_words, asking_in, number_in, target_of};

mod laws;
mod options;
