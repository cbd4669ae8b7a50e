//! Keyed hashes against the vectors of RFC 4231, and of texts of the log.
use crate::claims::holds;
use goo_log_keyed::{Key, hash_of, hash_of_both};
use std::process::Abort;

/// A key's byte and how many of it, a text, and its keyed hash.
type Row = (u8, usize, &'static str, &'static str);

const ROWS: [Row; 3] = [
    (
        0x0b,
        20,
        "Hi There",
        "b0344c61d8db38535ca8afceaf0bf12b881dc200c9833da726e9376c2e32cff7",
    ),
    (
        0xaa,
        131,
        "Test Using Larger Than Block-Size Key - Hash Key First",
        "60e431591ee0b67f0d8a26aacbf5b77f8e0bc6213728c5140546040f0ee37f54",
    ),
    (
        0xaa,
        131,
        "This is a test using a larger than block-size key and a larger than block-size data. The key needs to be hashed before being used by the HMAC algorithm.",
        "9b09ffa71b942fcb27635fbcd5b0e944bfdc63644f0713938a7f51535c3a35e2",
    ),
];

/// The keyed hash of a text is this one.
fn is_mac(rt: &impl Abort, key: &[u8], text: &[u8], expected: &str) {
    let digits = Key::new(key).mac(text);
    holds(rt, digits.as_slice() == expected.as_bytes(), expected);
}

#[test]
fn keyed_hashes_are_those_of_rfc_4231(rt: HostRuntime) {
    let same = [0xaa; 131];
    let low = [0x0b; 20];
    for (byte, count, text, expected) in ROWS {
        let key: &[u8] = if byte == 0xaa { &same } else { &low };
        let count = key.len().min(count);
        is_mac(&rt, &key[..count], text.as_bytes(), expected);
    }
    is_mac(
        &rt,
        b"Jefe",
        b"what do ya want for nothing?",
        "5bdcc146bf60754e6a042426089575c75a003f089d2739839dec58b964ec3843",
    );
    is_mac(
        &rt,
        &[0xaa; 20],
        &[0xdd; 50],
        "773ea91e36800e46854db8ebd09181a72959098b3ef8c122d9635514ced565fe",
    );
}

#[test]
fn hashes_are_of_all_pieces(rt: HostRuntime) {
    let whole = hash_of(b"abc");
    let parts = hash_of_both(b"a", b"bc");
    let expected = "ba7816bf8f01cfea414140de5dae2223b00361a396177a9cb410ff61f20015ad";
    holds(
        &rt,
        whole.as_slice() == expected.as_bytes(),
        "FIPS 180-4: abc",
    );
    holds(
        &rt,
        parts.as_slice() == expected.as_bytes(),
        "in two pieces",
    );
}
