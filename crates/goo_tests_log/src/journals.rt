//! Lines of a journal that another program wrote, taken one after another.
use crate::claims::holds;
use goo_log_journal::{LineFault, Reading, take};
use goo_log_keyed::Key;
use std::alloc::Global;
use std::process::Abort;

/// The key of these lines.
const KEY: &[u8] = b"0123456789abcdef0123456789abcdef";

/// Two entries, written together, and their outcomes. Hashes and chain are those of
/// `service/goo_service/log/entries.py`.
const LINES: [&str; 4] = [
    "{\"entry\":{\"n\":1,\"prev\":\"0000000000000000000000000000000000000000000000000000000000000000\",\"time\":\"2026-03-01T09:00:00.123456Z\",\"host\":\"h1\",\"user\":\"anna\",\"address\":\"192.0.2.7\",\"role\":\"full\",\"caller\":\"SUN\",\"method\":\"POST\",\"route\":\"/v1/requests\",\"version\":\"1.4.0\",\"id\":\"d66f0a\",\"body\":\"{\\\"command\\\":\\\"transfer\\\"}\"},\"mac\":\"d177b868abe11e5c631ec073e5a5b7a594c66621cebc529369b23a6cc133456a\"}",
    "{\"entry\":{\"n\":2,\"prev\":\"3c348613c4e46341757b6b8a51e7f6921f91a6cc176807f8b3f78c4996a4688e\",\"time\":\"2026-03-01T09:00:00.123456Z\",\"host\":\"h1\",\"user\":\"anna\",\"address\":\"192.0.2.7\",\"role\":\"full\",\"caller\":\"SUN\",\"method\":\"POST\",\"route\":\"/v1/declarations\",\"version\":\"1.4.0\",\"id\":\"d66f0a\",\"body\":\"x\"},\"mac\":\"4270d109c87376b62fe2ceed54efa1da747af05f3b8f95765827fe75b8bcc7c9\"}",
    "{\"outcome\":{\"n\":1,\"status\":200,\"body\":\"{\\\"outcome\\\":\\\"repeated\\\",\\\"reply\\\":{}}\",\"chain\":\"6fd1ff2425ecffc59685174a6b1b61c1e174e3273a2b1cf464acbed2af99d03d\"},\"mac\":\"b51a7e439c427f33d8709a2a433edcf2819d9032f9bbbeda3814970429d7c5cc\"}",
    "{\"outcome\":{\"n\":2,\"status\":200,\"body\":\"1 accepted\\n2 refused 17\\n\",\"chain\":\"788d7ad5ae838249a05906b25d9541ed4cec333d7fb25df75721c48c3962279b\"},\"mac\":\"b68b94c0a38a51037e30c4d2b7391a0c4e59c211bcc07c2cf7ec6908d21e7dd0\"}",
];

/// Before the first entry.
fn beginning(rt: &impl Abort, alloc: Global) -> Reading {
    let mut chain = Vec::new(alloc);
    chain.extend_from_slice(b"-").expect(rt, "memory");
    Reading {
        number: 0,
        hash: [b'0'; 64],
        chain,
        waiting: Vec::new(alloc),
    }
}

/// Whether a line is taken.
fn is_taken(reading: &mut Reading, alloc: Global, line: &str) -> bool {
    take(reading, alloc, &Key::new(KEY), line.as_bytes()).is_ok()
}

/// Whether a line is refused as one that does not come next.
fn is_out_of_order(reading: &mut Reading, alloc: Global, line: &str) -> bool {
    matches!(
        take(reading, alloc, &Key::new(KEY), line.as_bytes()),
        Err(LineFault::Order)
    )
}

#[test]
fn lines_of_another_program_are_taken(rt: HostRuntime) {
    let mut reading = beginning(&rt, rt.alloc());
    for line in LINES {
        holds(&rt, is_taken(&mut reading, rt.alloc(), line), line);
    }
    holds(&rt, reading.number == 2, "two entries");
}

#[test]
fn a_line_out_of_order_is_refused(rt: HostRuntime) {
    let mut reading = beginning(&rt, rt.alloc());
    for line in [LINES[1], LINES[2]] {
        holds(&rt, is_out_of_order(&mut reading, rt.alloc(), line), line);
    }
    holds(&rt, reading.number == 0, "the place stays");
}
