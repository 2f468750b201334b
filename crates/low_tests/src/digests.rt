//! Hashes of texts, and the hexadecimal text of hashes.
use hash_prefixes::{HexFault, full_hash, read_hex};

/// NIST's example of one block for SHA-256.
const OF_ABC: &[u8; 64] = b"BA7816bf8f01cfea414140de5dae2223b00361a396177a9cb410ff61f20015ad";

#[test]
fn a_hash_is_that_of_the_standard(rt: HostRuntime) {
    assert!(rt; read_hex(OF_ABC) == Ok(full_hash(b"abc")));
}

#[test]
fn a_short_text_is_no_hash(rt: HostRuntime) {
    let whole = OF_ABC.as_slice();
    assert!(rt; read_hex(&whole[1..]) == Err(HexFault::Length(63)));
}
