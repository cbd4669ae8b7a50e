//! The texts of notices, against texts written by hand: ten certificates of one January, and others
//! that aren't of electricity.
use crate::claims::holds;
use goo_notice::{NoticeFault, from_value, read, write};
use goo_types::carrier::Carrier;
use goo_types::notice::Notice;
use goo_types::part::Part;
use serde_json::Value;
use std::alloc::Global;
use std::process::Abort;

const NOTICE: &str = "{\"account\":5,\"addressee\":9,\"number\":1,\
    \"parts\":[{\"first\":\"07000000000020\",\"last\":\"07000000000029\",\
    \"lot\":{\"capacity_w\":2000000,\"commissioned\":\"2020-06-15\",\
    \"country\":\"DE\",\"device\":\"500000000000000012\",\
    \"first_day\":\"2025-01-01\",\"issued_on\":\"2025-03-01\",\
    \"last_day\":\"2025-01-31\",\"origin\":7,\"site\":\"North field\",\
    \"source\":\"F01010100\",\"support\":\"none\",\"tech\":\"T010000\"}}],\
    \"sender\":7,\"version\":1}";

/// One certificate of a hydrogen device.
const HYDROGEN: &str = "{\"account\":5,\"addressee\":9,\"number\":1,\
    \"parts\":[{\"first\":\"07000000000001\",\"last\":\"07000000000001\",\
    \"lot\":{\"capacity_w\":2000000,\"carrier\":\"hydrogen\",\"commissioned\":\"2020-06-15\",\
    \"country\":\"DE\",\"device\":\"500000000000000029\",\
    \"first_day\":\"2025-01-01\",\"issued_on\":\"2025-03-01\",\
    \"last_day\":\"2025-01-31\",\"origin\":7,\"site\":\"North field\",\
    \"source\":\"F01010100\",\"support\":\"none\",\"tech\":\"T010000\"}}],\
    \"sender\":7,\"version\":2}";

/// A certificate of electricity beside one of heat: both lots state their carrier.
const BOTH: &str = "{\"account\":5,\"addressee\":9,\"number\":1,\
    \"parts\":[{\"first\":\"07000000000001\",\"last\":\"07000000000001\",\
    \"lot\":{\"capacity_w\":2000000,\"carrier\":\"electricity\",\"commissioned\":\"2020-06-15\",\
    \"country\":\"DE\",\"device\":\"500000000000000012\",\
    \"first_day\":\"2025-01-01\",\"issued_on\":\"2025-03-01\",\
    \"last_day\":\"2025-01-31\",\"origin\":7,\"site\":\"North field\",\
    \"source\":\"F01010100\",\"support\":\"none\",\"tech\":\"T010000\"}},\
    {\"first\":\"07000000000002\",\"last\":\"07000000000002\",\
    \"lot\":{\"capacity_w\":2000000,\"carrier\":\"heating-cooling\",\"commissioned\":\"2020-06-15\",\
    \"country\":\"DE\",\"device\":\"500000000000000029\",\
    \"first_day\":\"2025-01-01\",\"issued_on\":\"2025-03-01\",\
    \"last_day\":\"2025-01-31\",\"origin\":7,\"site\":\"North field\",\
    \"source\":\"F01010100\",\"support\":\"none\",\"tech\":\"T010000\"}}],\
    \"sender\":7,\"version\":2}";

/// What the notice states, but for its part.
fn is_sent(rt: &impl Abort, notice: &Notice) {
    let codes = [notice.sender().get(), notice.addressee().get()];
    let numbers = [notice.number().get(), notice.account().get()];
    holds(
        rt,
        codes == [7, 9] && numbers == [1, 5],
        "codes and numbers",
    );
}

/// What its part states.
fn is_north_field(rt: &impl Abort, part: &Part) {
    let (first, last) = (part.range.first(), part.range.last());
    holds(
        rt,
        first.write() == *b"07000000000020" && last.write() == *b"07000000000029",
        "first and last",
    );
    let (site, capacity) = (part.lot.site(), part.lot.capacity_w());
    holds(
        rt,
        site.text() == "North field" && capacity.get() == 2_000_000,
        "site and capacity",
    );
}

/// It is written as this text.
fn is_written(rt: &impl Abort, alloc: Global, notice: &Notice, wanted: &str) {
    let text = write(alloc, notice).expect(rt, "a text");
    holds(
        rt,
        text.as_slice() == wanted.as_bytes(),
        "the text of a notice",
    );
}

/// It is what the value of a text is read as.
fn is_of_value(rt: &impl Abort, alloc: Global, notice: &Notice, text: &str) {
    let value = Value::from_slice(alloc, text.as_bytes()).expect(rt, "a value");
    holds(
        rt,
        from_value(alloc, &value).expect(rt, "a notice").is(notice),
        "the notice of a value",
    );
}

#[test]
fn exported(rt: HostRuntime) {
    let notice = read(rt.alloc(), NOTICE.as_bytes()).expect(&rt, "a notice");
    is_sent(&rt, &notice);
    holds(&rt, notice.parts().len() == 1, "how many parts");
    is_north_field(&rt, &notice.parts()[0]);
    is_written(&rt, rt.alloc(), &notice, NOTICE);
    is_of_value(&rt, rt.alloc(), &notice, NOTICE);
}

/// A text is read as a notice, which is written as it again, and whose first and last lot state
/// these carriers.
fn is_carried(rt: &impl Abort, alloc: Global, text: &str, first: Carrier, last: Carrier) {
    let notice = read(alloc, text.as_bytes()).expect(rt, "a notice");
    is_written(rt, alloc, &notice, text);
    is_of_value(rt, alloc, &notice, text);
    let parts = notice.parts();
    let ends = [parts.first(), parts.last()].map(|part| part.map(|part| part.lot.carrier()));
    holds(rt, ends == [Some(first), Some(last)], "the carriers");
}

#[test]
fn of_other_carriers(rt: HostRuntime) {
    let (hydrogen, heat) = (Carrier::Hydrogen, Carrier::HeatingCooling);
    is_carried(&rt, rt.alloc(), HYDROGEN, hydrogen, hydrogen);
    is_carried(&rt, rt.alloc(), BOTH, Carrier::Electricity, heat);
}

/// The value of a text of version 2 with electricity alone is a notice, and is written in version
/// 1; its text is none.
#[test]
fn of_electricity_in_version_2(rt: HostRuntime) {
    let alloc = rt.alloc();
    let (before, after) = NOTICE
        .split_once(",\"commissioned\"")
        .expect(&rt, "a capacity");
    let (after, end) = after.split_once("1}").expect(&rt, "a version");
    let text = format!(in alloc;
        "{before},\"carrier\":\"electricity\",\"commissioned\"{after}2}}{end}"
    ).expect(&rt, "memory");
    let notice = read(alloc, NOTICE.as_bytes()).expect(&rt, "a notice");
    is_of_value(&rt, alloc, &notice, &text);
    is_refused(&rt, alloc, text.as_bytes(), NoticeFault::Canonical);
}

/// A piece of the notice's text, what stands in its place, and what is told of that.
static CHANGES: [(&str, &str, NoticeFault); 19] = [
    ("\"account\":5", "\"account\": 5", NoticeFault::Canonical),
    (
        "\"account\":5",
        "\"account\":4,\"account\":5",
        NoticeFault::Canonical,
    ),
    (
        "{\"account\":5,\"addressee\":9",
        "{\"addressee\":9,\"account\":5",
        NoticeFault::Canonical,
    ),
    ("North field", "North\\u0020field", NoticeFault::Canonical),
    ("\"sender\":7,", "", NoticeFault::Shape),
    ("\"version\":1", "\"version\":\"1\"", NoticeFault::Shape),
    ("\"version\":1", "\"version\":1.0", NoticeFault::Shape),
    (
        "\"version\":1",
        "\"extra\":0,\"version\":1",
        NoticeFault::Shape,
    ),
    ("\"lot\":", "\"extra\":0,\"lot\":", NoticeFault::Shape),
    (
        "\"capacity_w\":2000000",
        "\"capacity_w\":0,\"carrier\":\"gas\"",
        NoticeFault::Shape,
    ),
    (
        "\"sender\":7",
        "\"sender\":0,\"Sender\":7",
        NoticeFault::Shape,
    ),
    ("2000000", "0", NoticeFault::Field),
    ("\"version\":1", "\"version\":2", NoticeFault::Shape),
    ("\"version\":1", "\"version\":3", NoticeFault::Field),
    ("\"sender\":7", "\"sender\":9", NoticeFault::Field),
    ("\"origin\":7", "\"origin\":8", NoticeFault::Field),
    ("07000000000029", "07000000000019", NoticeFault::Field),
    ("2025-01-31", "2025-02-28", NoticeFault::Field),
    ("2025-03-01", "2025-01-31", NoticeFault::Field),
];

/// The same of the notice of hydrogen.
static CARRIER_CHANGES: [(&str, &str, NoticeFault); 9] = [
    ("hydrogen", "electricity", NoticeFault::Canonical),
    (
        "\"capacity_w\":2000000,\"carrier\":\"hydrogen\"",
        "\"carrier\":\"hydrogen\",\"capacity_w\":2000000",
        NoticeFault::Canonical,
    ),
    ("\"version\":2", "\"version\":1", NoticeFault::Shape),
    ("\"carrier\":\"hydrogen\",", "", NoticeFault::Shape),
    ("\"hydrogen\"", "1", NoticeFault::Shape),
    (
        "\"hydrogen\"",
        "\"hydrogen\",\"Carrier\":\"gas\"",
        NoticeFault::Shape,
    ),
    ("\"version\":2", "\"version\":3", NoticeFault::Field),
    ("hydrogen", "Hydrogen", NoticeFault::Field),
    ("hydrogen", "", NoticeFault::Field),
];

/// A text is no notice, for this reason.
fn is_refused(rt: &impl Abort, alloc: Global, text: &[u8], wanted: NoticeFault) {
    holds(
        rt,
        read(alloc, text).err() == Some(wanted),
        "why a text is refused",
    );
}

/// A notice's text with another piece in place of one is no notice, for this reason.
fn change_is_refused(
    rt: &impl Abort,
    alloc: Global,
    text: &str,
    change: &(&str, &str, NoticeFault),
) {
    let (old, new, wanted) = change;
    let (before, after) = text.split_once(*old).expect(rt, "such a piece");
    let text = format!(in alloc; "{before}{new}{after}").expect(rt, "memory");
    is_refused(rt, alloc, text.as_bytes(), *wanted);
}

#[test]
fn changed(rt: HostRuntime) {
    let alloc = rt.alloc();
    for change in &CHANGES {
        change_is_refused(&rt, alloc, NOTICE, change);
    }
    let none =
        "{\"account\":5,\"addressee\":9,\"number\":1,\"parts\":[],\"sender\":7,\"version\":1}";
    is_refused(&rt, alloc, none.as_bytes(), NoticeFault::Field);
    is_refused(&rt, alloc, b"[]", NoticeFault::Shape);
}

#[test]
fn changed_in_its_carrier(rt: HostRuntime) {
    for change in &CARRIER_CHANGES {
        change_is_refused(&rt, rt.alloc(), HYDROGEN, change);
    }
}

#[test]
fn each_prefix(rt: HostRuntime) {
    let text = NOTICE.as_bytes();
    for end in 0..text.len() {
        is_refused(&rt, rt.alloc(), &text[..end], NoticeFault::NotJson);
    }
}
