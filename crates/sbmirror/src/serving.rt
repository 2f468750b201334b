use background_link::BackgroundLink;
use client_store::{LONGEST_STORE, STORE_MAGIC};
use door_bell::Bell;
use door_main::ServerDoor;
use mirror_run::MirrorWorld;
use own_line::OwnLine;
use real_objects::{FileKeeper, KeptForm, StdSink, SystemClock, SystemDice, TcpLimits};
use sb_mains::{Operator, ServerWatch, store_at, watch_of};
use sb_mirror::{MirrorTargets, mirror_world, run_mirror};
use sb_model::{OutOfMemory, Text};
use std::alloc::Global;
use std::io::Stdout;
use std::sync::Wait;
use std::thread::Threads;

/// How long the session of a find may take: 5 seconds for a call, and 30 in all.
const FIND_LIMITS: TcpLimits = TcpLimits {
    call: 5_000,
    connection: 30_000,
};

/// A link beside the turns, which tells its operator when the server goes out of reach and when it is back.
type MirrorLink<'a, R> = BackgroundLink<R, ServerWatch<'a>>;

/// A line of a mirror.
type MirrorLine<'a, R> = OwnLine<MirrorLink<'a, R>, SystemClock<&'a HostRuntime>, SystemDice>;

/// What stands outside the mirror.
type RealWorld<'a, R> = MirrorWorld<
    StdSink<Stdout>,
    FileKeeper<&'a HostRuntime>,
    MirrorLine<'a, R>,
    MirrorLine<'a, R>,
    SystemClock<&'a HostRuntime>,
    ServerDoor<'a>,
>;

/// A line to the server at an address, whose link rings this bell, if there is one. Without an address each call fails.
fn line_to<'a, R: Threads + Wait + Copy + Send + 'static>(
    threads: R,
    rt: &'a HostRuntime,
    operator: Operator<'a>,
    address: &'a Option<Text>,
    limits: TcpLimits,
    bell: Option<Bell>,
) -> Result<MirrorLine<'a, R>, OutOfMemory> {
    let watch = watch_of(operator, address);
    let address = match address {
        Some(address) => Some(address.as_str()),
        None => None,
    };
    let link = BackgroundLink::telling(threads, *rt, rt.alloc(), address, limits, bell, watch)?;
    Ok(OwnLine {
        link,
        clock: SystemClock::new(rt),
        dice: SystemDice::new(rt),
    })
}

/// Runs the mirror that the words are, and tells why an object failed. What is left of answers is sent before it ends, whatever its status
/// is.
fn run_in<'a, R: Threads + Wait + Copy + Send + 'static>(
    alloc: Global,
    operator: Operator<'a>,
    words: &[String],
    targets: &MirrorTargets,
    mut world: RealWorld<'a, R>,
) -> u8 {
    let status = run_mirror(alloc, words, &mut world);
    let MirrorWorld {
        out,
        keep,
        updates: _updates,
        finds: _finds,
        clock: _clock,
        door,
    } = world;
    match status {
        3 => operator.tell("standard output", out.why()),
        4 => operator.tell_of("the store", &targets.store, keep.why()),
        9 => operator.tell_of("the address", &targets.listen, door.why()),
        _ => {}
    }
    door.finish();
    status
}

/// The store, and the lines of rounds and of finds.
#[derive(Drop)]
struct Parts<'a, R> {
    keep: FileKeeper<&'a HostRuntime>,
    updates: MirrorLine<'a, R>,
    finds: MirrorLine<'a, R>,
}

/// The store and the lines that the words name. The links ring this bell.
fn parts_of<'a, R: Threads + Wait + Copy + Send + 'static>(
    threads: R,
    rt: &'a HostRuntime,
    operator: Operator<'a>,
    targets: &'a MirrorTargets,
    bell: Option<Bell>,
) -> Result<Parts<'a, R>, OutOfMemory> {
    let form = KeptForm {
        longest: LONGEST_STORE,
        front: *STORE_MAGIC,
    };
    let again = match &bell {
        Some(bell) => Some(bell.again()?),
        None => None,
    };
    let server = &targets.server;
    let updates = line_to(threads, rt, operator, server, TcpLimits::STANDARD, bell)?;
    let finds = line_to(threads, rt, operator, server, FIND_LIMITS, again)?;
    let keep = store_at(rt, rt.alloc(), &targets.store, form, true)?;
    Ok(Parts {
        keep,
        updates,
        finds,
    })
}

/// Runs the mirror that the words are, with these parts, at this door.
fn run_with<'a, R: Threads + Wait + Copy + Send + 'static>(
    rt: &'a HostRuntime,
    operator: Operator<'a>,
    words: &[String],
    targets: &MirrorTargets,
    parts: Parts<'a, R>,
    door: ServerDoor<'a>,
) -> u8 {
    let Parts {
        keep,
        updates,
        finds,
    } = parts;
    let out = StdSink::new(rt.stdout());
    let world = mirror_world(out, keep, updates, finds, SystemClock::new(rt), door);
    run_in(rt.alloc(), operator, words, targets, world)
}

/// Runs the mirror that the words are, at this door, whose bell its links ring.
pub(crate) fn run_at<'a, R: Threads + Wait + Copy + Send + 'static>(
    threads: R,
    rt: &'a HostRuntime,
    operator: Operator<'a>,
    words: &[String],
    targets: &'a MirrorTargets,
    door: ServerDoor<'a>,
    bell: Option<Bell>,
) -> Result<u8, OutOfMemory> {
    match parts_of(threads, rt, operator, targets, bell) {
        Ok(parts) => Ok(run_with(rt, operator, words, targets, parts, door)),
        Err(OutOfMemory) => Err(OutOfMemory),
    }
}
