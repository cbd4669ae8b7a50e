//! What a backend is asked, and what it must answer.
use crate::claims::holds;
use crate::clients::Clients;
use crate::failing::{Sending, Taking};
use crate::wire::{ACCEPTED, AUDIT, OPENING, REPEATED};
use goo_desk_backend::Backend;
use goo_desk_server::{ServeFault, Served, ServerFault, serve, serve_one};
use std::alloc::Global;
use std::io::BufWriter;
use std::process::Abort;

/// What is sent, and its response or the first line of it.
pub type Exchange = (&'static str, &'static str);

/// What is sent is answered with just this.
fn answers<D: Backend>(rt: &impl Abort, alloc: Global, desk: &mut D, sent: &str, wanted: &str) {
    let mut text = Vec::new(alloc);
    let served = serve_one(alloc, desk, &mut sent.as_bytes(), &mut text);
    holds(
        rt,
        served.is_ok() && text.as_slice() == wanted.as_bytes(),
        sent,
    )
}

/// Each of these is answered with just this, in turn.
pub fn answers_each<D: Backend>(rt: &impl Abort, alloc: Global, desk: &mut D, asked: &[Exchange]) {
    for (sent, wanted) in asked {
        answers(rt, alloc, desk, sent, wanted);
    }
}

/// What is sent is answered with this first line.
fn begins<D: Backend>(rt: &impl Abort, alloc: Global, desk: &mut D, mut sent: &[u8], line: &str) {
    let mut text = Vec::new(alloc);
    let served = serve_one(alloc, desk, &mut sent, &mut text);
    holds(
        rt,
        served.is_ok() && text.starts_with(line.as_bytes()),
        line,
    )
}

/// Each of these is answered with this first line, in turn.
pub fn begins_each<D: Backend>(rt: &impl Abort, alloc: Global, desk: &mut D, asked: &[Exchange]) {
    for (sent, line) in asked {
        begins(rt, alloc, desk, sent.as_bytes(), line);
    }
}

/// Each of these requests is accepted, in turn.
pub fn accepts_each<D: Backend>(
    rt: &impl Abort,
    alloc: Global,
    desk: &mut D,
    requests: &[&'static str],
) {
    for request in requests {
        begins(rt, alloc, desk, request.as_bytes(), "HTTP/1.1 200 OK\r\n");
    }
}

/// Each beginning of a request is refused.
pub fn refuses_beginnings<D: Backend>(rt: &impl Abort, alloc: Global, desk: &mut D) {
    for end in 0..AUDIT.len() {
        let beginning = &AUDIT.as_bytes()[..end];
        begins(rt, alloc, desk, beginning, "HTTP/1.1 400 Bad Request\r\n");
    }
}

/// As many clients are served as were asked for, and the first one opens its holder.
pub fn serves_three<D: Backend>(rt: &impl Abort, alloc: Global, desk: &mut D) {
    let mut clients = Clients {
        alloc: alloc,
        text: OPENING.as_bytes(),
        accepted: 0,
        port: None,
    };
    let served = match BufWriter::new(alloc, Vec::new(alloc)) {
        Ok(mut told) => serve(alloc, desk, &mut clients, 8347, 3, &mut told),
        Err(_) => Err(ServerFault::Memory),
    };
    holds(
        rt,
        served == Ok(()) && clients.accepted == 3,
        "three clients",
    );
    answers(rt, alloc, desk, OPENING, REPEATED)
}

/// What comes of a client that opens a holder and is gone after so many reads and so many bytes of
/// its answer, and what it got.
fn tries<D: Backend>(
    alloc: Global,
    desk: &mut D,
    good_reads: usize,
    room: usize,
) -> (Result<Served, ServeFault>, Vec<u8>) {
    let mut sending = Sending {
        text: OPENING.as_bytes(),
        good_reads,
    };
    let mut taking = Taking {
        text: Vec::new(alloc),
        room,
    };
    let served = serve_one(alloc, desk, &mut sending, &mut taking);
    let Taking { text, .. } = taking;
    (served, text)
}

/// A client that breaks off while it sends changes nothing.
pub fn loses_senders<D: Backend>(rt: &impl Abort, alloc: Global, desk: &mut D) {
    for good_reads in 0..OPENING.len() {
        let (served, text) = tries(alloc, desk, good_reads, 1_000);
        holds(
            rt,
            served == Err(ServeFault::Read) && text.is_empty(),
            "a client that breaks off",
        );
    }
    answers(rt, alloc, desk, OPENING, ACCEPTED)
}

/// A client that breaks off after so many bytes of its answer got these, and sends again.
pub fn loses_a_taker<D: Backend>(rt: &impl Abort, alloc: Global, desk: &mut D, room: usize) {
    let (served, text) = tries(alloc, desk, OPENING.len(), room);
    holds(
        rt,
        served == Err(ServeFault::Write),
        "a client that is gone",
    );
    holds(
        rt,
        text.len() == room && ACCEPTED.as_bytes().starts_with(&text),
        "a beginning of the answer",
    );
    answers(rt, alloc, desk, OPENING, REPEATED)
}
