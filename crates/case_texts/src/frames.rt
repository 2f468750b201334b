//! What is done with the bytes between brackets.
use crate::page::Page;
use crate::sheet::{between, rest_of, word_of};
use crate::words::{found_in, number_of, size_of_number};
use base64::engine::general_purpose::STANDARD;
use sha2::{Digest, Sha256};
use std::alloc::Global;

/// What a bracket does with what stands in it.
#[derive(Clone, Copy)]
pub enum Work {
    /// It stands so many times more, from a line on.
    Repeat { more: u64, line: usize },
    Base64,
    Hex,
    /// Its SHA-256 stands in its place.
    Digest,
    /// Its SHA-256 stands after it.
    Sealed,
    /// It is the body of a response of the server.
    Response,
    /// Its first so many bytes.
    Front(usize),
    /// All but its last so many bytes.
    Without(usize),
    /// All but its first so many bytes.
    Rest(usize),
    /// Each front of it in turn, and what follows that front.
    EachFront,
    EachRest,
    /// It with one bit of each byte in turn turned.
    EachBit,
}

/// The brackets that have no number.
const PLAIN: [(&[u8], Work); 8] = [
    (b"base64", Work::Base64),
    (b"hex", Work::Hex),
    (b"sha256", Work::Digest),
    (b"sealed", Work::Sealed),
    (b"response", Work::Response),
    (b"each-front", Work::EachFront),
    (b"each-rest", Work::EachRest),
    (b"each-bit", Work::EachBit),
];

/// The work of an opening bracket whose text stands in a line, if there is one.
pub fn work_of(text: &[u8], line: usize) -> Option<Work> {
    match number_of(rest_of(text)) {
        Some(number) => counted_work_of(word_of(text), number, line),
        None => found_in(&PLAIN, text),
    }
}

/// The work of a bracket that has a number.
fn counted_work_of(word: &[u8], number: u64, line: usize) -> Option<Work> {
    if word == b"front".as_slice() {
        return Some(Work::Front(size_of_number(number)));
    }
    if word == b"without".as_slice() {
        return Some(Work::Without(size_of_number(number)));
    }
    if word == b"rest".as_slice() {
        return Some(Work::Rest(size_of_number(number)));
    }
    if word == b"repeat".as_slice() && number > 0 {
        return Some(Work::Repeat {
            more: number.saturating_sub(1),
            line: line.saturating_add(1),
        });
    }
    None
}

/// Appends the response of a server with this body.
fn put_response(alloc: Global, page: &mut Page, body: &[u8]) {
    page.put(b"HTTP/1.1 200 OK\r\nContent-Type: application/json\r\nContent-Length: ");
    page.put_number(body.len() as u64);
    page.put(b"\r\nContent-Digest: sha-256=:");
    page.put_text(STANDARD.encode(alloc, &Sha256::digest(body)));
    page.put(b":\r\nConnection: close\r\n\r\n");
    page.put(body);
}

/// Appends bytes, and their SHA-256 after them.
fn put_sealed(page: &mut Page, inner: &[u8]) {
    page.put(inner);
    page.put(&Sha256::digest(inner));
}

/// The byte at a place with one bit turned, the one of value 2 to the power of the place modulo 8.
pub fn turned(byte: u8, place: usize) -> u8 {
    let bit = match place % 8 {
        0 => 1,
        1 => 2,
        2 => 4,
        3 => 8,
        4 => 16,
        5 => 32,
        6 => 64,
        _ => 128,
    };
    byte ^ bit
}

/// Appends bytes, with one bit of the byte at this place turned if there is such a byte.
fn put_turned(page: &mut Page, inner: &[u8], place: usize) {
    page.put(between(inner, 0, place));
    if let Some(byte) = inner.get(place) {
        page.put(&[turned(*byte, place)]);
        page.put(between(inner, place.saturating_add(1), inner.len()));
    }
}

/// Appends what is made of the bytes that stood in a bracket.
pub fn put_work(alloc: Global, page: &mut Page, work: Work, inner: &[u8], cut: usize) {
    match work {
        Work::Repeat { .. } => page.put(inner),
        Work::Base64 => page.put_text(STANDARD.encode(alloc, inner)),
        Work::Hex => page.put_text(hex::encode(alloc, inner)),
        Work::Digest => page.put(&Sha256::digest(inner)),
        Work::Sealed => put_sealed(page, inner),
        Work::Response => put_response(alloc, page, inner),
        Work::Front(count) => page.put(between(inner, 0, count)),
        Work::Without(count) => page.put(between(inner, 0, inner.len().saturating_sub(count))),
        Work::Rest(count) => page.put(between(inner, count, inner.len())),
        Work::EachFront => page.put(between(inner, 0, cut)),
        Work::EachRest => page.put(between(inner, cut, inner.len())),
        Work::EachBit => put_turned(page, inner, cut),
    }
}
