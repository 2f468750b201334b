//! The objects that steps are taken with.
use crate::peers::Ends;
use crate::scripts::{Reader, Writer};
use real_objects::{FileKeeper, JournalFile, StdSink, StdSource, TcpLink};

pub(crate) type Held<'a> = FileKeeper<&'a HostRuntime>;

pub(crate) type Journal<'a> = JournalFile<&'a HostRuntime>;

pub(crate) type LocalLink<'a> = TcpLink<&'a HostRuntime>;

/// One object of each kind, and two keepers. At first none can be used. All are let go where the program ends.
#[derive(Drop)]
pub(crate) struct Things<'a> {
    pub(crate) first: Held<'a>,
    pub(crate) second: Held<'a>,
    pub(crate) journal: Journal<'a>,
    pub(crate) source: StdSource<Reader>,
    pub(crate) sink: StdSink<Writer>,
    pub(crate) ends: Ends<'a>,
}

impl<'a> Things<'a> {
    pub(crate) fn new(rt: &'a HostRuntime) -> Self {
        Things {
            first: FileKeeper::unusable(rt),
            second: FileKeeper::unusable(rt),
            journal: JournalFile::unusable(rt),
            source: StdSource::unusable(),
            sink: StdSink::unusable(),
            ends: Ends::new(rt),
        }
    }
}
