use crate::Operator;
use real_objects::{FileKeeper, JournalFile, KeptForm, LinkTeller, TcpLimits, TcpLink, Why};
use sb_model::{OutOfMemory, Text};
use std::alloc::Global;

/// The keeper of the store at a path. Without one each call fails.
pub fn store_at<'a>(
    rt: &'a HostRuntime,
    alloc: Global,
    path: &Option<Text>,
    form: KeptForm,
    replaces: bool,
) -> Result<FileKeeper<&'a HostRuntime>, OutOfMemory> {
    match path {
        Some(path) => FileKeeper::new(rt, alloc, path.as_str(), form, replaces),
        None => Ok(FileKeeper::unusable(rt)),
    }
}

/// The journal at a path. Without one, and where it cannot be opened, each read fails.
pub fn journal_at<'a>(
    rt: &'a HostRuntime,
    path: &Option<Text>,
) -> Result<JournalFile<&'a HostRuntime>, OutOfMemory> {
    match path {
        Some(path) => JournalFile::open(rt, rt.alloc(), path.as_str()),
        None => Ok(JournalFile::unusable(rt)),
    }
}

/// The address of the server that a link goes to, and who is told when it goes out of reach.
#[derive(Clone, Copy)]
pub struct ServerWatch<'a> {
    operator: Operator<'a>,
    address: &'a str,
}

impl<'a> LinkTeller for ServerWatch<'a> {
    fn out_of_reach(&mut self, why: Why) {
        self.operator
            .say("the server", self.address, &"cannot be reached");
        self.operator.say("the server", self.address, &why);
    }

    fn in_reach(&mut self) {
        self.operator
            .say("the server", self.address, &"can be reached again");
    }
}

/// Who is told of the server at an address, if there is one.
pub fn watch_of<'a>(operator: Operator<'a>, address: &'a Option<Text>) -> ServerWatch<'a> {
    let address = match address {
        Some(address) => address.as_str(),
        None => "",
    };
    ServerWatch { operator, address }
}

/// A link that tells its operator when the server goes out of reach and when it is back.
pub type ServerLink<'a> = TcpLink<&'a HostRuntime, ServerWatch<'a>>;

/// The link to the server at an address. Without one each call fails.
pub fn link_to<'a>(
    rt: &'a HostRuntime,
    alloc: Global,
    operator: Operator<'a>,
    address: &'a Option<Text>,
) -> Result<ServerLink<'a>, OutOfMemory> {
    let watch = watch_of(operator, address);
    let address = match address {
        Some(address) => Some(address.as_str()),
        None => None,
    };
    TcpLink::telling(rt, alloc, address, TcpLimits::STANDARD, watch)
}
