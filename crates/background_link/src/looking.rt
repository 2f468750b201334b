use std::alloc::{AllocError, Global};
use std::net::{Net, SocketAddr, ToSocketAddrs};
use std::sync::{Arc, OnceLock, Wait};
use std::thread::{Parker, Threads};
use std::time::Duration;
use std::{io, thread};

/// The addresses of a host, once they are there.
#[derive(Drop)]
pub(crate) struct Addresses {
    found: OnceLock<io::Result<Vec<SocketAddr>>>,
    parker: Parker,
}

impl Addresses {
    fn new(alloc: Global) -> Result<Arc<Addresses, Global>, AllocError> {
        let unknown = Addresses {
            found: OnceLock::new(),
            parker: Parker::new(),
        };
        Ok(Arc::new(alloc, unknown)?)
    }

    /// What the system said of them, once it did.
    pub(crate) fn found(&self) -> Option<&io::Result<Vec<SocketAddr>>> {
        self.found.get()
    }

    /// Waits until it did, but no longer than so long. It may come back early.
    pub(crate) fn wait(&self, rt: &impl Wait, longest: Duration) {
        self.parker.park_timeout(rt, longest);
    }
}

/// Looks an address up.
fn look_up<N: Net>(net: &N, alloc: Global, address: &str) -> io::Result<Vec<SocketAddr>> {
    let mut found = Vec::new(alloc);
    for addr in address.to_socket_addrs(net)? {
        found.push(addr)?;
    }
    Ok(found)
}

/// The same on a thread of its own.
fn look(system: HostRuntime, alloc: Global, address: String, addresses: Arc<Addresses, Global>) {
    let found = look_up(&system, alloc, address.as_str());
    let _ = addresses.found.try_set(found);
    addresses.parker.unpark();
}

/// Has a thread look an address up. If none can be started, that is refused as memory is.
pub(crate) fn start<R>(
    rt: R,
    system: HostRuntime,
    alloc: Global,
    address: String,
) -> Result<Arc<Addresses, Global>, AllocError>
where
    R: Threads + Wait + Copy + Send + 'static,
{
    let addresses = Addresses::new(alloc)?;
    let theirs = Arc::try_clone(&addresses)?;
    thread::spawn(&rt, move || look(system, alloc, address, theirs))?;
    Ok(addresses)
}
