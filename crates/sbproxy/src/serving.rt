use background_link::BackgroundLink;
use client_store::{LONGEST_STORE, STORE_MAGIC};
use door_bell::Bell;
use door_main::ServerDoor;
use own_line::OwnLine;
use proxy_run::{LookWorld, ProxyWorld};
use real_objects::{FileKeeper, KeptForm, StdSink, SystemClock, SystemDice, TcpLimits};
use sb_mains::{Operator, ServerWatch, store_at, watch_of};
use sb_model::{OutOfMemory, Text};
use sb_proxy::{ProxyTargets, proxy_world, run_proxy};
use std::alloc::Global;
use std::io::Stdout;
use std::sync::Wait;
use std::thread::Threads;

/// How long the session of a find may take: 5 seconds for a call, and 30 in all.
const FIND_LIMITS: TcpLimits = TcpLimits {
    call: 5_000,
    connection: 30_000,
};

/// A link beside the turns, which tells its operator when the server goes out of reach and when it is back.
type ProxyLink<'a, R> = BackgroundLink<R, ServerWatch<'a>>;

/// A line of a proxy.
type ProxyLine<'a, R> = OwnLine<ProxyLink<'a, R>, SystemClock<&'a HostRuntime>, SystemDice>;

/// What stands outside the proxy.
type RealWorld<'a, R> = ProxyWorld<
    StdSink<Stdout>,
    FileKeeper<&'a HostRuntime>,
    ProxyLine<'a, R>,
    ProxyLine<'a, R>,
    SystemClock<&'a HostRuntime>,
    ServerDoor<'a>,
>;

/// A line to the server at an address, whose link rings this bell, if there is one. Without an address each call fails.
fn line_to<'a, R: Threads + Wait + Copy + Send + 'static>(
    threads: R,
    rt: &'a HostRuntime,
    operator: Operator<'a>,
    address: &'a Option<Text>,
    limits: TcpLimits,
    bell: Option<Bell>,
) -> Result<ProxyLine<'a, R>, OutOfMemory> {
    let watch = watch_of(operator, address);
    let address = match address {
        Some(address) => Some(address.as_str()),
        None => None,
    };
    let link = BackgroundLink::telling(threads, *rt, rt.alloc(), address, limits, bell, watch)?;
    Ok(OwnLine {
        link,
        clock: SystemClock::new(rt),
        dice: SystemDice::new(rt),
    })
}

/// Runs the proxy that the words are, and tells why an object failed. What is left of answers is sent before it ends, whatever its status
/// is.
fn run_in<'a, R: Threads + Wait + Copy + Send + 'static>(
    alloc: Global,
    operator: Operator<'a>,
    words: &[String],
    targets: &ProxyTargets,
    mut world: RealWorld<'a, R>,
) -> u8 {
    let status = run_proxy(alloc, words, &mut world);
    let ProxyWorld {
        keep,
        updates: _updates,
        clock: _clock,
        looks,
    } = world;
    let LookWorld {
        out,
        finds: _finds,
        door,
    } = looks;
    match status {
        3 => operator.tell("standard output", out.why()),
        4 => operator.tell_of("the store", &targets.store, keep.why()),
        9 => operator.tell_of("the address", &targets.listen, door.why()),
        _ => {}
    }
    door.finish();
    status
}

/// The store, and the lines of rounds and of finds.
#[derive(Drop)]
struct Parts<'a, R> {
    keep: FileKeeper<&'a HostRuntime>,
    updates: ProxyLine<'a, R>,
    finds: ProxyLine<'a, R>,
}

/// The store and the lines that the words name. The links ring this bell.
fn parts_of<'a, R: Threads + Wait + Copy + Send + 'static>(
    threads: R,
    rt: &'a HostRuntime,
    operator: Operator<'a>,
    targets: &'a ProxyTargets,
    bell: Option<Bell>,
) -> Result<Parts<'a, R>, OutOfMemory> {
    let form = KeptForm {
        longest: LONGEST_STORE,
        front: *STORE_MAGIC,
    };
    let again = match &bell {
        Some(bell) => Some(bell.again()?),
        None => None,
    };
    let server = &targets.server;
    let updates = line_to(threads, rt, operator, server, TcpLimits::STANDARD, bell)?;
    let finds = line_to(threads, rt, operator, server, FIND_LIMITS, again)?;
    let keep = store_at(rt, rt.alloc(), &targets.store, form, true)?;
    Ok(Parts {
        keep,
        updates,
        finds,
    })
}

/// Runs the proxy that the words are, with these parts, at this door.
fn run_with<'a, R: Threads + Wait + Copy + Send + 'static>(
    rt: &'a HostRuntime,
    operator: Operator<'a>,
    words: &[String],
    targets: &ProxyTargets,
    parts: Parts<'a, R>,
    door: ServerDoor<'a>,
) -> u8 {
    let Parts {
        keep,
        updates,
        finds,
    } = parts;
    let out = StdSink::new(rt.stdout());
    let world = proxy_world(out, keep, updates, finds, SystemClock::new(rt), door);
    run_in(rt.alloc(), operator, words, targets, world)
}

/// Runs the proxy that the words are, at this door, whose bell its links ring.
pub(crate) fn run_at<'a, R: Threads + Wait + Copy + Send + 'static>(
    threads: R,
    rt: &'a HostRuntime,
    operator: Operator<'a>,
    words: &[String],
    targets: &'a ProxyTargets,
    door: ServerDoor<'a>,
    bell: Option<Bell>,
) -> Result<u8, OutOfMemory> {
    match parts_of(threads, rt, operator, targets, bell) {
        Ok(parts) => Ok(run_with(rt, operator, words, targets, parts, door)),
        Err(OutOfMemory) => Err(OutOfMemory),
    }
}
