//! Texts of entries and outcomes that another program wrote, and texts that are none.
use crate::claims::holds;
use goo_log_entry::{TextFault, read_entry, read_outcome, text_of_entry, text_of_outcome};
use std::alloc::Global;
use std::process::Abort;

/// Texts of entries, as `service/goo_service/log/entries.py` wrote them.
const ENTRIES: [&str; 5] = [
    "{\"n\":1,\"prev\":\"0000000000000000000000000000000000000000000000000000000000000000\",\"time\":\"2026-03-01T09:00:00.123456Z\",\"host\":\"h1\",\"user\":\"anna\",\"address\":\"192.0.2.7\",\"role\":\"full\",\"caller\":\"SUN\",\"method\":\"POST\",\"route\":\"/v1/requests\",\"version\":\"1.4.0\",\"id\":\"d66f0a\",\"body\":\"{\\\"command\\\":\\\"transfer\\\"}\"}",
    "{\"n\":2,\"prev\":\"0000000000000000000000000000000000000000000000000000000000000000\",\"time\":\"2026-03-01T09:00:00.123456Z\",\"host\":\"h1\",\"user\":\"Jörg \\\"x\\\\y\\\"\\t\\u0001\\u001f/\",\"address\":\"192.0.2.7\",\"role\":\"full\",\"caller\":\"SUN\",\"method\":\"POST\",\"route\":\"/v1/requests\",\"version\":\"1.4.0\",\"id\":\"d66f0a\",\"body64\":\"/wBh\"}",
    "{\"n\":18446744073709551615,\"prev\":\"0000000000000000000000000000000000000000000000000000000000000000\",\"time\":\"2026-03-01T09:00:00.123456Z\",\"host\":\"h1\",\"user\":\"anna\",\"way\":\"session\",\"confirmed\":\"bea\",\"address\":\"192.0.2.7\",\"role\":\"full\",\"caller\":\"SUN\",\"method\":\"POST\",\"route\":\"/v1/requests\",\"version\":\"1.4.0\",\"id\":\"d66f0a\",\"body\":\"€\\n\\\"\"}",
    "{\"n\":7,\"prev\":\"0000000000000000000000000000000000000000000000000000000000000000\",\"time\":\"2026-03-01T09:00:00.123456Z\",\"host\":\"h1\",\"user\":\"anna\",\"way\":\"token night\",\"address\":\"192.0.2.7\",\"role\":\"full\",\"caller\":\"SUN\",\"method\":\"POST\",\"route\":\"/v1/requests\",\"version\":\"1.4.0\",\"id\":\"d66f0a\",\"body\":\"\"}",
    "{\"n\":8,\"prev\":\"0000000000000000000000000000000000000000000000000000000000000000\",\"time\":\"2026-03-01T09:00:00.123456Z\",\"host\":\"h1\",\"user\":\"anna\",\"confirmed\":\"bea\",\"address\":\"192.0.2.7\",\"role\":\"full\",\"caller\":\"ISSUER\",\"method\":\"POST\",\"route\":\"/v1/requests\",\"version\":\"1.4.0\",\"id\":\"d66f0a\",\"body\":\"{\\\"command\\\":\\\"transfer\\\"}\"}",
];

/// Texts that are no entry's: a space, another number, another order, another escape, an empty
/// member, a member less and one more, another body, half a text and more than one.
const OTHERS: [&str; 14] = [
    "{ \"n\":1,\"prev\":\"0000000000000000000000000000000000000000000000000000000000000000\",\"time\":\"2026-03-01T09:00:00.123456Z\",\"host\":\"h1\",\"user\":\"anna\",\"address\":\"192.0.2.7\",\"role\":\"full\",\"caller\":\"SUN\",\"method\":\"POST\",\"route\":\"/v1/requests\",\"version\":\"1.4.0\",\"id\":\"d66f0a\",\"body\":\"{\\\"command\\\":\\\"transfer\\\"}\"}",
    "{\"n\":01,\"prev\":\"0000000000000000000000000000000000000000000000000000000000000000\",\"time\":\"2026-03-01T09:00:00.123456Z\",\"host\":\"h1\",\"user\":\"anna\",\"address\":\"192.0.2.7\",\"role\":\"full\",\"caller\":\"SUN\",\"method\":\"POST\",\"route\":\"/v1/requests\",\"version\":\"1.4.0\",\"id\":\"d66f0a\",\"body\":\"{\\\"command\\\":\\\"transfer\\\"}\"}",
    "{\"n\":\"1\",\"prev\":\"0000000000000000000000000000000000000000000000000000000000000000\",\"time\":\"2026-03-01T09:00:00.123456Z\",\"host\":\"h1\",\"user\":\"anna\",\"address\":\"192.0.2.7\",\"role\":\"full\",\"caller\":\"SUN\",\"method\":\"POST\",\"route\":\"/v1/requests\",\"version\":\"1.4.0\",\"id\":\"d66f0a\",\"body\":\"{\\\"command\\\":\\\"transfer\\\"}\"}",
    "{\"n\":1,\"prev\":\"0000000000000000000000000000000000000000000000000000000000000000\",\"time\":\"2026-03-01T09:00:00.123456Z\",\"host\":\"h1\",\"address\":\"192.0.2.7\",\"user\":\"anna\",\"role\":\"full\",\"caller\":\"SUN\",\"method\":\"POST\",\"route\":\"/v1/requests\",\"version\":\"1.4.0\",\"id\":\"d66f0a\",\"body\":\"{\\\"command\\\":\\\"transfer\\\"}\"}",
    "{\"n\":1,\"prev\":\"0000000000000000000000000000000000000000000000000000000000000000\",\"time\":\"2026-03-01T09:00:00.123456Z\",\"host\":\"h1\",\"user\":\"\\u0061nna\",\"address\":\"192.0.2.7\",\"role\":\"full\",\"caller\":\"SUN\",\"method\":\"POST\",\"route\":\"/v1/requests\",\"version\":\"1.4.0\",\"id\":\"d66f0a\",\"body\":\"{\\\"command\\\":\\\"transfer\\\"}\"}",
    "{\"n\":1,\"prev\":\"0000000000000000000000000000000000000000000000000000000000000000\",\"time\":\"2026-03-01T09:00:00.123456Z\",\"host\":\"h1\",\"user\":\"anna\",\"way\":\"\",\"address\":\"192.0.2.7\",\"role\":\"full\",\"caller\":\"SUN\",\"method\":\"POST\",\"route\":\"/v1/requests\",\"version\":\"1.4.0\",\"id\":\"d66f0a\",\"body\":\"{\\\"command\\\":\\\"transfer\\\"}\"}",
    "{\"n\":1,\"prev\":\"0000000000000000000000000000000000000000000000000000000000000000\",\"time\":\"2026-03-01T09:00:00.123456Z\",\"user\":\"anna\",\"address\":\"192.0.2.7\",\"role\":\"full\",\"caller\":\"SUN\",\"method\":\"POST\",\"route\":\"/v1/requests\",\"version\":\"1.4.0\",\"id\":\"d66f0a\",\"body\":\"{\\\"command\\\":\\\"transfer\\\"}\"}",
    "{\"n\":1,\"prev\":\"0000000000000000000000000000000000000000000000000000000000000000\",\"time\":\"2026-03-01T09:00:00.123456Z\",\"host\":\"h1\",\"user\":\"anna\",\"address\":\"192.0.2.7\",\"role\":\"full\",\"caller\":\"SUN\",\"method\":\"POST\",\"route\":\"/v1/requests\",\"version\":\"1.4.0\",\"id\":\"d66f0a\",\"body\":\"{\\\"command\\\":\\\"transfer\\\"}\",\"more\":1}",
    "{\"n\":1,\"prev\":\"0000000000000000000000000000000000000000000000000000000000000000\",\"time\":\"2026-03-01T09:00:00.123456Z\",\"host\":\"h1\",\"user\":\"anna\",\"address\":\"192.0.2.7\",\"role\":\"full\",\"caller\":\"SUN\",\"method\":\"POST\",\"route\":\"/v1/requests\",\"version\":\"1.4.0\",\"id\":\"d66f0a\",\"body64\":\"eyJjb21tYW5kIjoidHJhbnNmZXIifQ==\"}",
    "{\"n\":1,\"prev\":\"0000000000000000000000000000000000000000000000000000000000000000\",\"time\":\"2026-03-01T09:00:00.123456Z\",\"host\":\"h1\",\"user\":\"anna\",\"address\":\"192.0.2.7\",\"role\":\"full\",\"caller\":\"SUN\",\"method\":\"POST\",\"route\":\"/v1/requests\",\"version\":\"1.4.0\",\"id\":\"d66f0a\",\"body\":\"{\\\"command\\\":\\\"transfer\\\"}\"",
    "{\"n\":1,\"prev\":\"0000000000000000000000000000000000000000000000000000000000000000\",\"time\":\"2026-03-01T09:00:00.123456Z\",\"host\":\"h1\",\"user\":\"anna\",\"address\":\"192.0.2.7\",\"role\":\"full\",\"caller\":\"SUN\",\"method\":\"POST\",\"route\":\"/v1/requests\",\"version\":\"1.4.0\",\"id\":\"d66f0a\",\"body\":\"{\\\"command\\\":\\\"transfer\\\"}\"} ",
    "",
    "[]",
    "{\"n\":18446744073709551616,\"prev\":\"0000000000000000000000000000000000000000000000000000000000000000\",\"time\":\"2026-03-01T09:00:00.123456Z\",\"host\":\"h1\",\"user\":\"anna\",\"address\":\"192.0.2.7\",\"role\":\"full\",\"caller\":\"SUN\",\"method\":\"POST\",\"route\":\"/v1/requests\",\"version\":\"1.4.0\",\"id\":\"d66f0a\",\"body\":\"{\\\"command\\\":\\\"transfer\\\"}\"}",
];

/// The text of an outcome.
const OUTCOME: &str =
    "{\"n\":1,\"status\":200,\"body\":\"{\\\"outcome\\\":\\\"accepted\\\",\\\"reply\\\":{}}\",\"chain\":\"6fd1ff2425ecffc59685174a6b1b61c1e174e3273a2b1cf464acbed2af99d03d\"}";

/// A text is read, and written again as it is.
fn comes_back(rt: &impl Abort, alloc: Global, text: &str) {
    let entry = read_entry(alloc, text).expect(rt, text);
    let again = text_of_entry(alloc, &entry).expect(rt, "memory");
    holds(rt, again.as_slice() == text.as_bytes(), text);
}

#[test]
fn entries_of_another_program_come_back(rt: HostRuntime) {
    for text in ENTRIES {
        comes_back(&rt, rt.alloc(), text);
    }
}

#[test]
fn an_entry_has_its_members(rt: HostRuntime) {
    let entry = read_entry(rt.alloc(), ENTRIES[2]).expect(&rt, "an entry");
    holds(&rt, entry.number == u64::MAX, "its number");
    holds(
        &rt,
        entry.sender.way.as_str() == "session",
        "how the user was known",
    );
    holds(
        &rt,
        entry.sender.confirmed.as_str() == "bea",
        "who confirmed",
    );
    holds(
        &rt,
        entry.request.body.as_slice() == "€\n\"".as_bytes(),
        "its body",
    );
    let entry = read_entry(rt.alloc(), ENTRIES[1]).expect(&rt, "an entry");
    holds(
        &rt,
        entry.sender.user.as_str() == "Jörg \"x\\y\"\t\x01\x1f/",
        "its user",
    );
    holds(
        &rt,
        entry.request.body.as_slice() == b"\xff\x00a".as_slice(),
        "its body",
    );
}

#[test]
fn other_texts_are_refused(rt: HostRuntime) {
    for text in OTHERS {
        let is_form = matches!(read_entry(rt.alloc(), text), Err(TextFault::Form));
        holds(&rt, is_form, text);
    }
}

#[test]
fn a_long_body_of_quotes_is_in_base64(rt: HostRuntime) {
    let mut entry = read_entry(rt.alloc(), ENTRIES[0]).expect(&rt, "an entry");
    let mut body = Vec::new(rt.alloc());
    for _ in 0..1_500 {
        body.extend_from_slice(b"\"\"\"").expect(&rt, "memory");
    }
    entry.request.body = body;
    let text = text_of_entry(rt.alloc(), &entry).expect(&rt, "memory");
    holds(&rt, text.as_slice().ends_with(b"IiIiIiIi\"}"), "in base64");
    let text = str::from_utf8(text.as_slice()).expect(&rt, "UTF-8");
    comes_back(&rt, rt.alloc(), text);
}

#[test]
fn an_outcome_comes_back(rt: HostRuntime) {
    let outcome = read_outcome(rt.alloc(), OUTCOME).expect(&rt, "an outcome");
    holds(&rt, outcome.status == 200, "its status");
    let again = text_of_outcome(rt.alloc(), &outcome).expect(&rt, "memory");
    holds(&rt, again.as_slice() == OUTCOME.as_bytes(), "its text");
    let is_form = matches!(read_outcome(rt.alloc(), ENTRIES[0]), Err(TextFault::Form));
    holds(&rt, is_form, "an entry is no outcome");
}
