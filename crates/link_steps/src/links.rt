//! Steps of the link.
use crate::outcome::{Outcome, given, truth};
use crate::stage::Stage;
use crate::words::{bytes_of, cut, number_of};
use background_link::BackgroundLink;
use sb_model::{Bytes, Moment, OutOfMemory};
use sb_outside::{Failed, Kind, Link};
use std::alloc::Global;
use std::sync::Wait;

pub(crate) fn step<R: Wait + Drop>(stage: &mut Stage<R>, line: &str) -> Outcome {
    let (word, rest) = cut(line);
    let alloc = stage.rt.alloc();
    let link = &mut stage.link;
    match word.as_bytes() {
        b"begin" => begin(link),
        b"send" => send(alloc, link, rest),
        b"answered" => truth(link.is_answered()),
        b"receive" => receive(alloc, link, number_of(rest)),
        b"close" => close(link),
        b"faults" => Outcome::Number(link.faults()),
        _ => Outcome::NoStep,
    }
}

/// What a call that answers nothing comes to.
fn called<R: Drop>(link: &BackgroundLink<R>, call: Result<(), Failed>) -> Outcome {
    match call {
        Ok(()) => Outcome::Done,
        Err(Failed) => Outcome::Cannot(link.why()),
    }
}

fn begin<R: Wait + Drop>(link: &mut BackgroundLink<R>) -> Outcome {
    let call = link.begin(Moment(0), Kind::Find);
    called(link, call)
}

fn send<R: Wait + Drop>(alloc: Global, link: &mut BackgroundLink<R>, rest: &str) -> Outcome {
    match bytes_of(alloc, rest) {
        Ok(bytes) => {
            let call = link.send(bytes.as_slice());
            called(link, call)
        }
        Err(OutOfMemory) => Outcome::OutOfMemory,
    }
}

fn receive<R: Wait + Drop>(alloc: Global, link: &mut BackgroundLink<R>, count: u64) -> Outcome {
    let mut buffer = [0; 64];
    let size = count.min(64) as usize;
    match link.recv(&mut buffer[..size]) {
        Ok(count) => given(Bytes::from_slice(alloc, &buffer[..count])),
        Err(Failed) => Outcome::Cannot(link.why()),
    }
}

fn close<R: Wait + Drop>(link: &mut BackgroundLink<R>) -> Outcome {
    link.close(Moment(1));
    Outcome::Done
}
