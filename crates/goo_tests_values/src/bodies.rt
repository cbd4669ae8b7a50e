//! What bodies are read as, against bodies written by hand.
use crate::claims::holds;
use goo_desk_body::{BodyFault, read_command};
use goo_notice::command_text;
use goo_types::command::Command;
use goo_types::holder_code::HolderCode;
use goo_types::request::Request;
use std::alloc::Global;
use std::process::Abort;

/// The declaration of January.
const JANUARY: &str =
    "{\"aux_wh\":34567890,\"command\":\"declare\",\"device\":\"500000000000000012\",\
    \"first_day\":\"2025-01-01\",\"gross_wh\":1234567890,\"key\":\"d1\",\"last_day\":\"2025-01-31\"}";

/// A body, and why it states no request.
static FAULTS: [(&str, BodyFault); 60] = [
    ("", BodyFault::NotJson),
    ("{} {}", BodyFault::NotJson),
    (
        "{\"account\":1e400,\"command\":\"close_account\",\"key\":\"k\"}",
        BodyFault::NotJson,
    ),
    (
        "{\"account\":1e400,\"account\":1,\"command\":\"close_account\",\"key\":\"k\"}",
        BodyFault::NotJson,
    ),
    (
        "{\"account\":01,\"command\":\"close_account\",\"key\":\"k\"}",
        BodyFault::NotJson,
    ),
    (
        "{\"command\":\"open_account\",\"holder\":\"\\ud800\",\"key\":\"k\"}",
        BodyFault::NotJson,
    ),
    ("null", BodyFault::Shape),
    ("[]", BodyFault::Shape),
    ("\"open_account\"", BodyFault::Shape),
    ("{}", BodyFault::Shape),
    ("{\"key\":\"k\"}", BodyFault::Shape),
    ("{\"account\":1,\"key\":\"k\"}", BodyFault::Shape),
    (
        "{\"account\":1,\"command\":7,\"key\":\"k\"}",
        BodyFault::Shape,
    ),
    (
        "{\"account\":1,\"command\":\"shut_account\",\"key\":\"k\"}",
        BodyFault::Shape,
    ),
    (
        "{\"command\":\"close_account\",\"key\":\"k\"}",
        BodyFault::Shape,
    ),
    (
        "{\"account\":1,\"command\":\"close_account\"}",
        BodyFault::Shape,
    ),
    (
        "{\"account\":1,\"command\":\"close_account\",\"key\":7}",
        BodyFault::Shape,
    ),
    (
        "{\"account\":1,\"command\":\"close_account\",\"extra\":1,\"key\":\"k\"}",
        BodyFault::Shape,
    ),
    (
        "{\"account\":\"1\",\"command\":\"close_account\",\"key\":\"k\"}",
        BodyFault::Shape,
    ),
    (
        "{\"account\":true,\"command\":\"close_account\",\"key\":\"k\"}",
        BodyFault::Shape,
    ),
    (
        "{\"account\":1.0,\"command\":\"close_account\",\"key\":\"k\"}",
        BodyFault::Shape,
    ),
    (
        "{\"account\":1e0,\"command\":\"close_account\",\"key\":\"k\"}",
        BodyFault::Shape,
    ),
    (
        "{\"account\":-0,\"command\":\"close_account\",\"key\":\"k\"}",
        BodyFault::Shape,
    ),
    (
        "{\"account\":18446744073709551616,\"command\":\"close_account\",\"key\":\"k\"}",
        BodyFault::Shape,
    ),
    (
        "{\"account\":-9223372036854775809,\"command\":\"close_account\",\"key\":\"k\"}",
        BodyFault::Shape,
    ),
    (
        "{\"account\":0,\"command\":\"close_account\",\"key\":7}",
        BodyFault::Shape,
    ),
    (
        "{\"account\":\"1\",\"command\":\"close_account\",\"key\":\"\"}",
        BodyFault::Shape,
    ),
    (
        "{\"command\":\"import\",\"key\":\"k\",\"notice\":[]}",
        BodyFault::Shape,
    ),
    (
        "{\"command\":\"import\",\"key\":\"\",\"notice\":{\"sender\":0}}",
        BodyFault::Shape,
    ),
    (
        "{\"command\":\"correct\",\"device\":\"500000000000000012\",\"first\":\"07000000001201\",\
         \"first_day\":\"2025-02-01\",\"key\":\"k\",\"last\":\"\",\"less_wh\":\"1\",\"reason\":\"r\"}",
        BodyFault::Shape,
    ),
    (
        "{\"account\":0,\"command\":\"close_account\",\"key\":\"k\"}",
        BodyFault::Field,
    ),
    (
        "{\"account\":-1,\"command\":\"close_account\",\"key\":\"k\"}",
        BodyFault::Field,
    ),
    (
        "{\"account\":1000000000,\"command\":\"close_account\",\"key\":\"k\"}",
        BodyFault::Field,
    ),
    (
        "{\"account\":18446744073709551615,\"command\":\"close_account\",\"key\":\"k\"}",
        BodyFault::Field,
    ),
    (
        "{\"account\":-9223372036854775808,\"command\":\"close_account\",\"key\":\"k\"}",
        BodyFault::Field,
    ),
    (
        "{\"account\":1,\"account\":0,\"command\":\"close_account\",\"key\":\"k\"}",
        BodyFault::Field,
    ),
    (
        "{\"account\":1,\"command\":\"close_account\",\"key\":\"\"}",
        BodyFault::Field,
    ),
    (
        "{\"account\":1,\"command\":\"close_account\",\"key\":\"k k\"}",
        BodyFault::Field,
    ),
    (
        "{\"command\":\"open_account\",\"holder\":\"sun\",\"key\":\"k\"}",
        BodyFault::Field,
    ),
    (
        "{\"command\":\"advance\",\"day\":\"2025-02-29\",\"key\":\"k\"}",
        BodyFault::Field,
    ),
    (
        "{\"command\":\"add_peer\",\"key\":\"k\",\"peer\":100}",
        BodyFault::Field,
    ),
    (
        "{\"command\":\"withdraw\",\"first\":\"07000000000006\",\"key\":\"k\",\"last\":\"07000000000005\",\
         \"reason\":\"r\"}",
        BodyFault::Field,
    ),
    (
        "{\"command\":\"withdraw\",\"first\":\"07000000000006\",\"key\":\"k\",\"last\":\"08000000000007\",\
         \"reason\":\"r\"}",
        BodyFault::Field,
    ),
    (
        "{\"command\":\"correct\",\"device\":\"500000000000000012\",\"first\":\"07000000001201\",\
         \"first_day\":\"2025-02-01\",\"key\":\"k\",\"last\":\"\",\"less_wh\":1,\"reason\":\"r\"}",
        BodyFault::Field,
    ),
    (
        "{\"command\":\"correct\",\"device\":\"500000000000000012\",\"first\":\"\",\
         \"first_day\":\"2025-02-01\",\"key\":\"k\",\"last\":\"07000000001201\",\"less_wh\":1,\"reason\":\"r\"}",
        BodyFault::Field,
    ),
    (
        "{\"command\":\"correct\",\"device\":\"500000000000000012\",\"first\":\"0\",\
         \"first_day\":\"2025-02-01\",\"key\":\"k\",\"last\":\"0\",\"less_wh\":1,\"reason\":\"r\"}",
        BodyFault::Field,
    ),
    (
        "{\"command\":\"correct\",\"device\":\"500000000000000012\",\"first\":\"\",\
         \"first_day\":\"2025-02-01\",\"key\":\"k\",\"last\":\"\",\"less_wh\":-1,\"reason\":\"r\"}",
        BodyFault::Field,
    ),
    (
        "{\"command\":\"import\",\"key\":\"k\",\"notice\":{\"account\":5,\"addressee\":9,\"number\":1,\
         \"parts\":[],\"sender\":7,\"version\":1}}",
        BodyFault::Field,
    ),
    (
        "{\"command\":\"correct\",\"device\":\"500000000000000012\",\"first\":\"\",\"first_day\":\"2025-01-01\",\
         \"key\":\"k\",\"last\":\"\",\"less_wh\":1}",
        BodyFault::Shape,
    ),
    (
        "{\"command\":\"correct\",\"device\":\"500000000000000012\",\"first\":\"\",\"first_day\":\"2025-01-01\",\
         \"key\":\"k\",\"last\":\"\",\"last_day\":\"2025-01-31\",\"less_wh\":1,\"reason\":\"r\"}",
        BodyFault::Shape,
    ),
    (
        "{\"command\":\"correct\",\"device\":\"500000000000000012\",\"first_day\":\"2025-01-01\",\
         \"key\":\"k\",\"less_wh\":1,\"reason\":\"r\"}",
        BodyFault::Shape,
    ),
    (
        "{\"command\":\"correct\",\"device\":\"500000000000000012\",\"first\":0,\"first_day\":\"2025-01-01\",\
         \"key\":\"k\",\"last\":\"\",\"less_wh\":1,\"reason\":\"r\"}",
        BodyFault::Shape,
    ),
    (
        "{\"command\":\"correct\",\"device\":\"500000000000000012\",\"first\":\"07000000000002\",\
         \"first_day\":\"2025-01-01\",\"key\":\"k\",\"last\":\"07000000000001\",\"less_wh\":1,\"reason\":\"r\"}",
        BodyFault::Field,
    ),
    (
        "{\"command\":\"correct\",\"device\":\"500000000000000012\",\"first\":\"\",\"first_day\":\"2025-01-01\",\
         \"key\":\"k\",\"last\":\"\",\"less_wh\":1000000000000001,\"reason\":\"r\"}",
        BodyFault::Field,
    ),
    (
        "{\"account\":1,\"capacity_w\":2000000,\"carrier\":\"Hydrogen\",\"command\":\"register_device\",\
         \"commissioned\":\"2020-06-15\",\"country\":\"DE\",\"device\":\"500000000000000012\",\"key\":\"k\",\
         \"site\":\"North field\",\"source\":\"F01010100\",\"support\":\"none\",\"tech\":\"T010000\"}",
        BodyFault::Field,
    ),
    (
        "{\"account\":1,\"capacity_w\":2000000,\"carrier\":\"\",\"command\":\"register_device\",\
         \"commissioned\":\"2020-06-15\",\"country\":\"DE\",\"device\":\"500000000000000012\",\"key\":\"k\",\
         \"site\":\"North field\",\"source\":\"F01010100\",\"support\":\"none\",\"tech\":\"T010000\"}",
        BodyFault::Field,
    ),
    (
        "{\"account\":1,\"capacity_w\":2000000,\"carrier\":1,\"command\":\"register_device\",\
         \"commissioned\":\"2020-06-15\",\"country\":\"DE\",\"device\":\"500000000000000012\",\"key\":\"k\",\
         \"site\":\"North field\",\"source\":\"F01010100\",\"support\":\"none\",\"tech\":\"T010000\"}",
        BodyFault::Shape,
    ),
    (
        "{\"account\":1,\"capacity_w\":2000000,\"carrier\":null,\"command\":\"register_device\",\
         \"commissioned\":\"2020-06-15\",\"country\":\"DE\",\"device\":\"500000000000000012\",\"key\":\"k\",\
         \"site\":\"North field\",\"source\":\"F01010100\",\"support\":\"none\",\"tech\":\"T010000\"}",
        BodyFault::Shape,
    ),
    (
        "{\"account\":1,\"capacity_w\":2000000,\"carrier\":\"gas\",\"command\":\"register_device\",\
         \"commissioned\":\"2020-06-15\",\"country\":\"DE\",\"device\":\"500000000000000012\",\"key\":\"k\",\
         \"site\":\"North field\",\"source\":\"F01010100\",\"tech\":\"T010000\"}",
        BodyFault::Shape,
    ),
    (
        "{\"account\":1,\"carrier\":\"electricity\",\"command\":\"close_account\",\"key\":\"k\"}",
        BodyFault::Shape,
    ),
];

/// What commands are read as and told as, but for their first sign.
static COMMANDS: [&str; 16] = [
    "\"command\":\"open_holder\",\"holder\":\"SUN\",\"name\":\"Sun Power\"}",
    "\"command\":\"open_account\",\"holder\":\"SUN\"}",
    "\"account\":1,\"command\":\"close_account\"}",
    "\"account\":1,\"capacity_w\":2000000,\"command\":\"register_device\",\"commissioned\":\"2020-06-15\",\
     \"country\":\"DE\",\"device\":\"500000000000000012\",\"site\":\"North field\",\"source\":\"F01010100\",\
     \"support\":\"none\",\"tech\":\"T010000\"}",
    "\"account\":1,\"capacity_w\":2000000,\"carrier\":\"hydrogen\",\"command\":\"register_device\",\
     \"commissioned\":\"2020-06-15\",\"country\":\"DE\",\"device\":\"500000000000000012\",\"site\":\"North field\",\
     \"source\":\"F01010100\",\"support\":\"none\",\"tech\":\"T010000\"}",
    "\"aux_wh\":0,\"command\":\"declare\",\"device\":\"500000000000000012\",\"first_day\":\"2025-02-01\",\
     \"gross_wh\":999999,\"last_day\":\"2025-02-28\"}",
    "\"command\":\"correct\",\"device\":\"500000000000000012\",\"first\":\"\",\"first_day\":\"2025-01-01\",\
     \"last\":\"\",\"less_wh\":1,\"reason\":\"meter read twice\"}",
    "\"command\":\"correct\",\"device\":\"500000000000000012\",\"first\":\"07000000001201\",\
     \"first_day\":\"2025-02-01\",\"last\":\"07000000001201\",\"less_wh\":999999,\"reason\":\"meter read twice\"}",
    "\"command\":\"transfer\",\"first\":\"07000000000100\",\"giver\":1,\"last\":\"07000000000199\",\"taker\":2}",
    "\"account\":1,\"beneficiary\":\"Bäckerei Müller\",\"command\":\"cancel\",\"first\":\"07000000000001\",\
     \"last\":\"07000000000010\",\"use_first\":\"2025-01-01\",\"use_last\":\"2025-03-31\"}",
    "\"command\":\"withdraw\",\"first\":\"07000000000005\",\"last\":\"07000000000005\",\
     \"reason\":\"meter read twice\"}",
    "\"command\":\"advance\",\"day\":\"2025-04-05\"}",
    "\"command\":\"add_peer\",\"peer\":9}",
    "\"account\":5,\"command\":\"export\",\"first\":\"07000000000020\",\"giver\":1,\
     \"last\":\"07000000000029\",\"peer\":9}",
    "\"command\":\"import\",\"notice\":{\"account\":5,\"addressee\":9,\"number\":1,\
     \"parts\":[{\"first\":\"07000000000020\",\"last\":\"07000000000029\",\
     \"lot\":{\"capacity_w\":2000000,\"commissioned\":\"2020-06-15\",\"country\":\"DE\",\
     \"device\":\"500000000000000012\",\"first_day\":\"2025-01-01\",\"issued_on\":\"2025-03-01\",\
     \"last_day\":\"2025-01-31\",\"origin\":7,\"site\":\"North field\",\"source\":\"F01010100\",\
     \"support\":\"none\",\"tech\":\"T010000\"}}],\"sender\":7,\"version\":1}}",
    "\"command\":\"import\",\"notice\":{\"account\":5,\"addressee\":9,\"number\":1,\
     \"parts\":[{\"first\":\"07000000000020\",\"last\":\"07000000000029\",\
     \"lot\":{\"capacity_w\":2000000,\"carrier\":\"gas\",\"commissioned\":\"2020-06-15\",\"country\":\"DE\",\
     \"device\":\"500000000000000012\",\"first_day\":\"2025-01-01\",\"issued_on\":\"2025-03-01\",\
     \"last_day\":\"2025-01-31\",\"origin\":7,\"site\":\"North field\",\"source\":\"F01010100\",\
     \"support\":\"none\",\"tech\":\"T010000\"}}],\"sender\":7,\"version\":2}}",
];

/// What a body of the issuing body's states.
fn read(rt: &impl Abort, alloc: Global, body: &[u8]) -> Result<Request, BodyFault> {
    let caller = HolderCode::read(b"ISSUER").expect(rt, "a holder");
    read_command(alloc, &caller, body)
}

/// A body states no request, for this reason.
fn is_refused(rt: &impl Abort, alloc: Global, body: &[u8], wanted: BodyFault) {
    holds(
        rt,
        read(rt, alloc, body).err() == Some(wanted),
        "why a body is refused",
    );
}

/// A command is told as this text.
fn is_told(rt: &impl Abort, alloc: Global, command: &Command, wanted: &str) {
    let text = command_text(alloc, command).expect(rt, "a text");
    holds(rt, text.as_slice() == wanted.as_bytes(), wanted);
}

/// What a command declares, in Wh.
fn declared(command: &Command) -> Option<(u64, u64)> {
    match command {
        Command::Declare(declared) => Some((declared.gross.get(), declared.aux.get())),
        _ => None,
    }
}

/// A request is the issuing body's first one.
fn is_first(rt: &impl Abort, request: &Request) {
    holds(
        rt,
        request.caller.text() == "ISSUER" && request.key.text() == "d1",
        "the caller and the key",
    );
}

#[test]
fn january(rt: HostRuntime) {
    let request = read(&rt, rt.alloc(), JANUARY.as_bytes()).expect(&rt, "a request");
    is_first(&rt, &request);
    let wanted = "{\"aux_wh\":34567890,\"command\":\"declare\",\"device\":\"500000000000000012\",\
        \"first_day\":\"2025-01-01\",\"gross_wh\":1234567890,\"last_day\":\"2025-01-31\"}";
    is_told(&rt, rt.alloc(), &request.command, wanted);
    holds(
        &rt,
        declared(&request.command) == Some((1_234_567_890, 34_567_890)),
        "gross and auxiliaries",
    );
}

/// A command is read with spaces in its body, and told without.
fn is_told_again(rt: &impl Abort, alloc: Global, command: &str) {
    let body = format!(in alloc; " {{ \"key\" : \"k\" ,\n\t{command}\r").expect(rt, "memory");
    let request = read(rt, alloc, body.as_bytes()).expect(rt, "a request");
    let wanted = format!(in alloc; "{{{command}").expect(rt, "memory");
    is_told(rt, alloc, &request.command, wanted.as_str());
}

#[test]
fn each_command(rt: HostRuntime) {
    for command in &COMMANDS {
        is_told_again(&rt, rt.alloc(), *command);
    }
}

/// A device of electricity, which the text of a command leaves out.
#[test]
fn electricity_is_not_told(rt: HostRuntime) {
    let alloc = rt.alloc();
    let (_, rest) = COMMANDS[3]
        .split_once("\"command\"")
        .expect(&rt, "a command");
    let numbers = "\"account\":1,\"capacity_w\":2000000";
    let body = format!(in alloc;
        "{{\"key\":\"k\",{numbers},\"carrier\":\"electricity\",\"command\"{rest}"
    ).expect(&rt, "memory");
    let request = read(&rt, alloc, body.as_bytes()).expect(&rt, "a request");
    let wanted = format!(in alloc; "{{{numbers},\"command\"{rest}").expect(&rt, "memory");
    is_told(&rt, alloc, &request.command, &wanted);
}

#[test]
fn faults(rt: HostRuntime) {
    let alloc = rt.alloc();
    for (body, wanted) in &FAULTS {
        is_refused(&rt, alloc, body.as_bytes(), *wanted);
    }
    is_refused(&rt, alloc, b"\"\xff\"", BodyFault::NotJson);
    let twice =
        "{\"account\":0,\"account\":1,\"command\":\"advance\",\"command\":\"close_account\",\"key\":\"k\"}";
    holds(
        &rt,
        read(&rt, alloc, twice.as_bytes()).is_ok(),
        "the last of two keys alike",
    );
}

#[test]
fn each_prefix(rt: HostRuntime) {
    let body = JANUARY.as_bytes();
    for end in 0..body.len() {
        is_refused(&rt, rt.alloc(), &body[..end], BodyFault::NotJson);
    }
}

#[test]
fn nested_arrays(rt: HostRuntime) {
    let mut deep = [b'['; 254];
    deep[127..].fill(b']');
    is_refused(&rt, rt.alloc(), &deep, BodyFault::Shape);
    let mut deeper = [b'['; 256];
    deeper[128..].fill(b']');
    is_refused(&rt, rt.alloc(), &deeper, BodyFault::NotJson);
}
