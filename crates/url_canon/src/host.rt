ghost use Rattle.std.specs.Prelude.{◌≡◌, ◌∷◌, ◌++◌, true, false, if◌then◌else◌, IsTrue, IfOk, OnOk, MatchOption, codes, option_map};
ghost use Rattle.std.specs.List.{before_first, list_any};
ghost use Rattle.idna.specs.Uts46.{domain_to_ascii};
ghost use Rattle.idna.specs.declared.deny_list.TheConstants.AsciiDenyList.{URL};
ghost use Rattle.std.specs.Str.{str_to_ascii_lowercase};
ghost use Rattle.url_canon.specs.Words.{begins_with, is_nil};
ghost use Rattle.url_canon.specs.Host.{is_opening_bracket, is_bracketed, is_close, tidied, name_before_port, is_high, ascii_name, named_host, host_of, view};

use crate::address::{address_of, append_address};
use crate::split::{place_of, split_at_byte, without_leading};
use idna::{AsciiDenyList, Errors, domain_to_ascii_cow};
use sb_model::{Bytes, OutOfMemory};
use std::alloc::Global;

/// How many bytes four decimals take at most, with the dots between them.
const ADDRESS_ROOM: usize = 15;

/// A host in lower case, not yet escaped.
#[derive(Debug, Drop)]
pub struct Host {
    pub text: Bytes,
    /// Whether it is an IPv4 address or stands in brackets.
    pub is_address: bool,
}

/// Appends a text in lower case.
pub fn append_lowercase(out: &mut Bytes, text: &[u8]) -> Result<(), OutOfMemory>
    ensures { OnOk result (out.new ≡ out.old ++ str_to_ascii_lowercase text.now) }
{
    for byte in text {
        out.push(byte.to_ascii_lowercase())?;
    }
    Ok(())
}

/// Whether the text begins with `[`.
fn begins_with_open(text: &[u8]) -> bool
    ensures { result ≡ begins_with is_opening_bracket text.now }
{
    match text {
        [] => false,
        [first, ..] => *first == b'[',
    }
}

/// The text up to its first `]`, where it begins with `[` and has one.
fn in_brackets(text: &[u8]) -> Option<&[u8]>
    ensures { MatchOption result (is_bracketed text.now ≡ false)
        (λ inside. (is_bracketed text.now ≡ true)
        × (inside.now ≡ before_first is_close text.now ++ codes "]")) }
{
    if !begins_with_open(text) {
        return None;
    }
    let place = place_of(text, b']');
    if place == text.len() {
        return None;
    }
    Some(&text[..place + 1])
}

/// Turns the capital letters of a text into small ones.
fn lower(text: &mut [u8])
    ensures { text.new ≡ str_to_ascii_lowercase text.old }
{
    for byte in text.iter_mut() {
        *byte = byte.to_ascii_lowercase();
    }
}

/// Appends a label after a dot, which the first label goes without. An empty label is left out.
fn append_label(out: &mut Vec<u8>, label: &[u8]) -> Result<(), OutOfMemory>
    ensures { OnOk result (out.new.items ≡ (if is_nil label.now then out.old.items
        else (if is_nil out.old.items then label.now else out.old.items ++ 46 ∷ label.now))) }
{
    if label.is_empty() {
        return Ok(());
    }
    if !out.is_empty() {
        out.push(b'.')?;
    }
    out.extend_from_slice(label)?;
    Ok(())
}

/// Whether no label of a name is empty.
fn is_tidy(text: &[u8]) -> bool
    ensures { IsTrue result → tidied text.now ≡ text.now }
{
    let mut rest = Some(text);
    while let Some(labels) = rest {
        let (label, more) = split_at_byte(labels, b'.');
        if label.is_empty() {
            return false;
        }
        rest = more;
    }
    true
}

/// The labels of a name that are not empty, with a dot between two.
fn joined_labels(alloc: Global, text: &[u8]) -> Result<Vec<u8>, OutOfMemory>
    ensures { IfOk result (λ name. name.items ≡ tidied text.now) }
{
    let mut name = Vec::with_capacity(alloc, text.len())?;
    let mut rest = Some(text);
    while let Some(labels) = rest {
        let (label, more) = split_at_byte(labels, b'.');
        append_label(&mut name, label)?;
        rest = more;
    }
    Ok(name)
}

/// A name with one dot between two labels, and none at the ends.
fn tidied(alloc: Global, text: &[u8]) -> Result<Vec<u8>, OutOfMemory>
    ensures { IfOk result (λ name. name.items ≡ tidied text.now) }
{
    if is_tidy(text) {
        return Ok(Vec::from_slice(alloc, text)?);
    }
    joined_labels(alloc, text)
}

/// A host's name in lower case, with one dot between two labels and none at the ends.
#[tactic(auto, unfolding(crate::specs::Host::name_before_port))]
fn name_of(alloc: Global, text: &[u8]) -> Result<Vec<u8>, OutOfMemory>
    ensures { IfOk result (λ name. name.items ≡ name_before_port text.now) }
{
    let (before_port, _) = split_at_byte(text, b':');
    let mut name = tidied(alloc, before_port)?;
    lower(name.as_mut_slice());
    Ok(name)
}

/// The form in ASCII that ToASCII gives a name, with its dots tidied; `None` where it refuses the
/// name.
fn ascii_form(alloc: Global, name: &[u8]) -> Result<Option<Vec<u8>>, OutOfMemory>
    ensures { IfOk result (λ form. option_map (λ f. f.items) form
        ≡ option_map tidied (domain_to_ascii URL name.now)) }
{
    match domain_to_ascii_cow(alloc, name, AsciiDenyList::URL) {
        Ok(form) => Ok(Some(tidied(alloc, form.as_bytes())?)),
        Err(Errors::Invalid) => Ok(None),
        Err(Errors::OutOfMemory) => Err(OutOfMemory),
    }
}

/// Whether a name has a byte that is no ASCII character.
fn has_high(name: &[u8]) -> bool
    ensures { result ≡ list_any is_high name.now }
{
    name.iter().any(|byte| *byte >= 128)
}

/// A name in ASCII, where it has other characters and ToASCII accepts it.
fn ascii_name(alloc: Global, name: Vec<u8>) -> Result<Vec<u8>, OutOfMemory>
    ensures { IfOk result (λ form. form.items ≡ ascii_name name.items) }
{
    if !has_high(name.as_slice()) {
        return Ok(name);
    }
    match ascii_form(alloc, name.as_slice())? {
        None => Ok(name),
        Some(form) => Ok(form),
    }
}

/// A name as a host: four decimals where it is an IPv4 address, and else the name.
#[tactic(auto, unfolding(crate::specs::Host::named_host))]
fn named_host(alloc: Global, name: Vec<u8>) -> Result<Host, OutOfMemory>
    ensures { IfOk result (λ host. view host ≡ named_host name.items) }
{
    match address_of(name.as_slice()) {
        None => Ok(Host {
            text: Bytes::from_vec(name),
            is_address: false,
        }),
        Some(address) => {
            let mut text = Bytes::with_capacity(alloc, ADDRESS_ROOM)?;
            append_address(&mut text, address)?;
            Ok(Host {
                text,
                is_address: true,
            })
        }
    }
}

/// The host of an authority without its user; `None` where it is empty.
#[tactic(auto, unfolding(crate::specs::Host::host_of, crate::specs::Host::bracketed_host))]
pub fn host_of(alloc: Global, text: &[u8]) -> Result<Option<Host>, OutOfMemory>
    ensures { IfOk result (λ host. option_map view host ≡ host_of text.now) }
{
    if let Some(bracketed) = in_brackets(without_leading(text, b'.')) {
        let mut text = Bytes::with_capacity(alloc, bracketed.len())?;
        append_lowercase(&mut text, bracketed)?;
        return Ok(Some(Host {
            text,
            is_address: true,
        }));
    }
    let name = ascii_name(alloc, name_of(alloc, text)?)?;
    if name.is_empty() {
        return Ok(None);
    }
    Ok(Some(named_host(alloc, name)?))
}
