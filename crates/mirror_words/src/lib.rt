//! The words of a mirror's command line: `sbmirror serve`. Those that it shares with clients are read by `client_words`.
//! `specs/MirrorLine.antt` has what command lines give.
#![tactic(auto)]

pub use line::{MirrorLine, MirrorNumbers, mirror_line, mirrors_ask_sound_targets};

mod line;
