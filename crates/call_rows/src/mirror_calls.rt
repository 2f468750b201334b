//! A mirror that takes responses and answers fetch requests, and a client that follows it.
use crate::printing::{push_fault, push_hex, push_name};
use crate::words::{cut, number};
use mirror_places::{Mirror, answer_mirror, follow, mirror_token, taken_lists_keep_their_names};
use sb_model::{Bytes, ListName, OutOfMemory, Row, read_list_name};
use std::alloc::Global;
use update_client::{ClientLists, FetchOptions, HeldList};
use update_messages::{FetchResponse, read_request, read_response, write_response};

/// The greatest number of a place.
const LAST_PLACE: u64 = 1 << 63;

/// Prints a token of a mirror, or what the steps of a mirror and of its client come to.
pub fn call(alloc: Global, name: &[u8], text: &[u8], out: &mut Bytes) -> Result<bool, OutOfMemory> {
    match name {
        b"mirror-token" => push_token(alloc, text, out)?,
        b"mirror" => run(alloc, text, out)?,
        _ => return Ok(false),
    }
    Ok(true)
}

/// Prints the token of an epoch, a place and a list, which spaces part.
fn push_token(alloc: Global, text: &[u8], out: &mut Bytes) -> Result<(), OutOfMemory> {
    let (epoch, rest) = cut(text, b' ');
    let (place, name) = cut(rest, b' ');
    match read_list_name(name) {
        Ok(name) => push_hex(
            alloc,
            out,
            &mirror_token(number(epoch), name, number(place)),
        ),
        Err(fault) => out.append(format!(in alloc; "{fault}")?.as_bytes()),
    }
}

/// The names that a text has, which commas part. What is no name is left out.
fn names_in(alloc: Global, text: &[u8]) -> Result<Row<ListName>, OutOfMemory> {
    let mut names = Row::new(alloc);
    for word in text.split(|byte| *byte == b',') {
        if let Ok(name) = read_list_name(word) {
            names.push(name)?;
        }
    }
    Ok(names)
}

/// The first eight lists of these names, of which nothing was installed yet.
fn nothing_held(alloc: Global, names: &[ListName]) -> Result<ClientLists, OutOfMemory> {
    ClientLists::new(alloc, &names[..names.len().min(8)])
}

/// Opens a mirror of an epoch, with its lists and those of its client, and makes the steps that follow. Spaces part all.
fn run(alloc: Global, text: &[u8], out: &mut Bytes) -> Result<(), OutOfMemory> {
    let (epoch, rest) = cut(text, b' ');
    let (names, steps) = cut(rest, b' ');
    let names = names_in(alloc, names)?;
    let lists = nothing_held(alloc, names.as_slice())?;
    let mut mirror = Mirror::open(alloc, lists, number(epoch));
    let mut client = nothing_held(alloc, names.as_slice())?;
    out.append(b"mirror")?;
    for word in steps.split(|byte| *byte == b' ') {
        step(alloc, names.as_slice(), &mut mirror, &mut client, word, out)?;
    }
    Ok(())
}

/// Makes a step: its name, a colon, and what follows.
fn step(
    alloc: Global,
    names: &[ListName],
    mirror: &mut Mirror,
    client: &mut ClientLists,
    word: &[u8],
    out: &mut Bytes,
) -> Result<(), OutOfMemory> {
    let (name, rest) = cut(word, b':');
    match name {
        b"again" => again(alloc, names, mirror, number(rest)),
        b"took" => take_place(alloc, mirror, rest, out),
        b"kept" => push_kept(mirror, out),
        b"ask" => push_answer(alloc, mirror, rest, out),
        b"follow" => follow_once(alloc, mirror, client, out),
        _ => out.append(b" unknown"),
    }
}

/// Opens another mirror in the place of this one, of whose lists nothing was installed yet.
fn again(
    alloc: Global,
    names: &[ListName],
    mirror: &mut Mirror,
    epoch: u64,
) -> Result<(), OutOfMemory> {
    *mirror = Mirror::open(alloc, nothing_held(alloc, names)?, epoch);
    Ok(())
}

/// Has the newest lists of a mirror take a response that a text is, appends what they are then as a place, and prints its number.
fn take_place(
    alloc: Global,
    mirror: &mut Mirror,
    text: &[u8],
    out: &mut Bytes,
) -> Result<(), OutOfMemory> {
    match read_response(alloc, text) {
        Ok(response) => {
            append_place(alloc, mirror, &response)?;
            out.append(b" place=")?;
            out.append_decimal(mirror.newest())
        }
        Err(fault) => {
            out.push(b' ')?;
            push_fault(alloc, out, &fault)
        }
    }
}

/// Appends the place of the newest lists after a response, unless there is no further place.
fn append_place(
    alloc: Global,
    mirror: &mut Mirror,
    response: &FetchResponse,
) -> Result<(), OutOfMemory> {
    taken_lists_keep_their_names();
    let place = mirror.newest();
    if place >= LAST_PLACE {
        return Ok(());
    }
    let Some(newest) = mirror.kept(place) else {
        return Ok(());
    };
    let mut lists = newest.copy(alloc)?;
    lists.take(alloc, response)?;
    mirror.push(lists);
    Ok(())
}

/// Prints the places that are kept, with a comma behind each.
fn push_kept(mirror: &Mirror, out: &mut Bytes) -> Result<(), OutOfMemory> {
    out.append(b" kept=")?;
    for place in 0..mirror.newest() + 1 {
        if mirror.kept(place).is_some() {
            out.append_decimal(place)?;
            out.push(b',')?;
        }
    }
    Ok(())
}

/// Prints the answer to a request that a text is, with no wait.
fn push_answer(
    alloc: Global,
    mirror: &Mirror,
    text: &[u8],
    out: &mut Bytes,
) -> Result<(), OutOfMemory> {
    out.push(b' ')?;
    match read_request(alloc, text) {
        Ok(request) => {
            let answer = answer_mirror(alloc, mirror, 0, &request)?;
            out.append(write_response(alloc, &answer)?.as_slice())
        }
        Err(fault) => push_fault(alloc, out, &fault),
    }
}

/// Has the client ask for its lists and take what is answered, and prints what it holds then.
fn follow_once(
    alloc: Global,
    mirror: &Mirror,
    client: &mut ClientLists,
    out: &mut Bytes,
) -> Result<(), OutOfMemory> {
    let options = FetchOptions {
        max_update: 0,
        max_database: 0,
        raw_only: false,
    };
    let request = client.request(alloc, &options)?;
    let answer = answer_mirror(alloc, mirror, 0, &request)?;
    follow(alloc, mirror, client, &answer)?;
    for held in client.lists() {
        push_held(alloc, held, out)?;
    }
    Ok(())
}

/// Prints the name of a held list, its token, and its prefixes, with a comma before each of them.
fn push_held(alloc: Global, held: &HeldList, out: &mut Bytes) -> Result<(), OutOfMemory> {
    out.append(b" list=")?;
    push_name(alloc, out, held.name)?;
    out.push(b',')?;
    push_hex(alloc, out, held.token.as_slice())?;
    for prefix in held.set.iter() {
        out.push(b',')?;
        push_hex(alloc, out, prefix)?;
    }
    Ok(())
}
