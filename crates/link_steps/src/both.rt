//! One exchange over a link of each kind, with a peer that goes by the same script.
use crate::outcome::Outcome;
use crate::scripts::{BODY, play};
use crate::stage::{PATIENCE, Stage, pass};
use crate::timed::{Call, Timed};
use background_link::BackgroundLink;
use http_edge::{
    ExchangeFault, Exchanged, Target, begin_exchange, end_exchange, push_exchange_cause,
};
use real_objects::{SystemClock, TcpLink, Why};
use sb_model::{Bytes, OutOfMemory, Text};
use sb_outside::{Clock, Door, Kind, Link};
use std::alloc::Global;
use std::io;
use std::net::TcpListener;
use std::sync::Wait;
use std::thread::{self, Threads};
use std::time::Instant;

/// How long a text is that is printed as it stands.
const SHOWN: usize = 60;

/// The body that came, or why none did.
type Came = Result<Bytes, ExchangeFault>;

fn target(alloc: Global) -> Result<Target, OutOfMemory> {
    Ok(Target {
        host: Text::from_str(alloc, "host")?,
        key: Text::new(alloc),
    })
}

/// What came of an exchange, and for how many milliseconds its second part went on.
#[derive(Drop)]
pub(crate) struct Held {
    pub(crate) came: Came,
    pub(crate) took: u64,
}

/// The second part of an exchange, which is timed.
fn end<L: Link>(
    rt: &HostRuntime,
    link: &mut L,
    clock: &mut SystemClock<HostRuntime>,
    sent: bool,
) -> Result<Held, OutOfMemory> {
    let begun = Instant::now(rt);
    let Exchanged { answer, .. } = end_exchange(rt.alloc(), link, clock, sent, false)?;
    Ok(Held {
        came: answer,
        took: millis_since(rt, begun),
    })
}

/// How many milliseconds passed since then.
fn millis_since(rt: &HostRuntime, begun: io::Result<Instant>) -> u64 {
    let Ok(begun) = begun else {
        return u64::MAX;
    };
    match begun.elapsed(rt) {
        Ok(passed) => u64::try_from(passed.as_millis()).unwrap_or(u64::MAX),
        Err(_) => u64::MAX,
    }
}

/// Holds one exchange over a link. While it is not answered, the door is asked.
pub(crate) fn hold<L: Link, D: Door>(
    rt: HostRuntime,
    door: &mut D,
    link: &mut L,
) -> Result<Held, OutOfMemory> {
    let alloc = rt.alloc();
    let to = target(alloc)?;
    let mut clock = SystemClock::new(rt);
    let at = clock.now();
    if !to.is_sound() {
        return Err(OutOfMemory);
    }
    let sent = begin_exchange(alloc, link, &mut clock, at, &to, Kind::Update, BODY)?;
    for _ in 0..1_000 {
        if link.is_answered() {
            break;
        }
        pass(rt, door, PATIENCE);
    }
    end(&rt, link, &mut clock, sent)
}

/// The same beside a peer.
fn hold_beside<R: Threads + Sync, L: Link, D: Door>(
    threads: &R,
    rt: HostRuntime,
    door: &mut D,
    port: Option<&TcpListener>,
    link: &mut L,
    script: &str,
) -> Result<Held, OutOfMemory> {
    let alloc = rt.alloc();
    let (_, held) = thread::join(
        threads,
        || play(rt, alloc, port, script),
        || hold(rt, door, link),
    );
    held
}

/// Appends a body as it is printed.
fn push_body(page: &mut Bytes, body: &[u8]) -> Result<(), OutOfMemory> {
    if body.len() <= SHOWN {
        page.append(b"\"")?;
        page.append(body)?;
        return page.append(b"\"");
    }
    page.append_decimal(body.len() as u64)?;
    if body.iter().all(|byte| *byte == b'x') {
        return page.append(b" times x");
    }
    page.append(b" other bytes")
}

/// Appends why a link failed.
fn push_why(page: &mut Bytes, alloc: Global, why: Option<Why>) -> Result<(), OutOfMemory> {
    let Some(why) = why else {
        return Ok(());
    };
    let text = format!(in alloc; ": {why}")?;
    page.append(text.as_str().as_bytes())
}

/// What came of an exchange as it is printed, with why the link failed where that is to be shown.
fn told(
    alloc: Global,
    held: Result<Held, OutOfMemory>,
    why: Option<Why>,
) -> Result<Bytes, OutOfMemory> {
    let mut page = Bytes::new(alloc);
    match held?.came {
        Ok(body) => push_body(&mut page, body.as_slice())?,
        Err(fault) => {
            push_exchange_cause(&mut page, &fault)?;
            push_why(&mut page, alloc, why)?;
        }
    }
    Ok(page)
}

/// What comes of it over a link that waits in its calls.
fn by_waiting<R>(stage: &mut Stage<R>, script: &str, is_shown: bool) -> Result<Bytes, OutOfMemory>
where
    R: Threads + Wait + Copy + Send + Sync + 'static,
{
    let alloc = stage.rt.alloc();
    let mut link = TcpLink::new(stage.rt, alloc, stage.address.as_str(), stage.limits)?;
    let held = hold_beside(
        &stage.threads,
        stage.rt,
        &mut stage.door,
        stage.port.as_ref(),
        &mut link,
        script,
    );
    told(alloc, held, if is_shown { link.why() } else { None })
}

/// What comes of it over a link beside its caller, and which call waited, where one did.
fn beside<R>(
    stage: &mut Stage<R>,
    script: &str,
    is_shown: bool,
) -> Result<(Bytes, Option<Call>), OutOfMemory>
where
    R: Threads + Wait + Copy + Send + Sync + 'static,
{
    let alloc = stage.rt.alloc();
    let Some(link) = stage.fresh() else {
        return Err(OutOfMemory);
    };
    let mut timed = Timed::new(stage.rt, link);
    let held = hold_beside(
        &stage.threads,
        stage.rt,
        &mut stage.door,
        stage.port.as_ref(),
        &mut timed,
        script,
    );
    let why = if is_shown { timed.link.why() } else { None };
    Ok((told(alloc, held, why)?, timed.waited()))
}

/// How both are printed.
fn compared(one: Bytes, two: Bytes, waited: Option<Call>) -> Outcome {
    if let Some(call) = waited {
        return Outcome::Word(call.word());
    }
    if one.as_slice() == two.as_slice() {
        return Outcome::Text(one);
    }
    Outcome::Two(one, two)
}

/// An exchange over each, which comes to the same.
pub(crate) fn ask<R>(stage: &mut Stage<R>, script: &str, is_shown: bool) -> Outcome
where
    R: Threads + Wait + Copy + Send + Sync + 'static,
{
    match (
        by_waiting(stage, script, is_shown),
        beside(stage, script, is_shown),
    ) {
        (Ok(one), Ok((two, waited))) => compared(one, two, waited),
        _ => Outcome::OutOfMemory,
    }
}

/// For how many milliseconds the second part of an exchange over a link beside its caller goes on.
pub(crate) fn took<R>(stage: &mut Stage<R>, script: &str) -> Outcome
where
    R: Threads + Wait + Copy + Send + Sync + 'static,
{
    let Some(mut link) = stage.fresh() else {
        return Outcome::OutOfMemory;
    };
    match hold_beside(
        &stage.threads,
        stage.rt,
        &mut stage.door,
        stage.port.as_ref(),
        &mut link,
        script,
    ) {
        Ok(Held { took, .. }) => Outcome::Number(took),
        Err(OutOfMemory) => Outcome::OutOfMemory,
    }
}
