//! The tests.
use crate::cases::{CARRIED, CASES, WORKED};
use crate::claims::holds;
use crate::failing::FailingBackend;
use crate::trials::{Trial, does, new_registry};
use crate::wire::{ACCEPTED, APOLOGY, AUDIT, AUDITED_NEW, OPENING, PLANT};
use goo_desk_backend::Backend;
use goo_desk_responses::Status;
use goo_desk_server::{LocalListener, ServeFault, SystemSocket, serve, serve_one};
use goo_types::fault::Fault;
use std::alloc::Global;
use std::io::{self, BufWriter, ErrorKind, Write};
use std::net::{Shutdown, TcpListener, TcpStream};

#[test]
fn worked_requests_are_answered_byte_for_byte(rt: HostRuntime) {
    does(&rt, rt.alloc(), &Trial::Answers(&PLANT, &WORKED))
}

#[test]
fn a_device_of_hydrogen(rt: HostRuntime) {
    does(&rt, rt.alloc(), &Trial::Answers(&PLANT, &CARRIED))
}

#[test]
fn each_case_is_answered(rt: HostRuntime) {
    does(&rt, rt.alloc(), &Trial::Begins(&CASES))
}

#[test]
fn each_beginning_of_a_request_is_refused(rt: HostRuntime) {
    does(&rt, rt.alloc(), &Trial::RefusesBeginnings)
}

/// What a server over loopback tells, and what its second client gets: the first is gone in the
/// middle of its request.
fn asked<D: Backend>(rt: &HostRuntime, desk: &mut D) -> io::Result<(Vec<u8>, String)> {
    let socket = TcpListener::bind(rt, ("127.0.0.1", 0))?;
    let address = socket.local_addr()?;
    let mut gone = TcpStream::connect(rt, address)?;
    gone.write_all(&OPENING.as_bytes()[..OPENING.len() / 2])?;
    drop(gone);
    let mut client = TcpStream::connect(rt, address)?;
    client.write_all(AUDIT.as_bytes())?;
    client.shutdown(Shutdown::Write)?;
    let mut listener = LocalListener::new(rt, SystemSocket::over(rt, socket));
    let mut told = BufWriter::new(rt.alloc(), Vec::new(rt.alloc()))?;
    match serve(rt.alloc(), desk, &mut listener, 8347, 2, &mut told) {
        Ok(()) => Ok((
            told.get_ref().clone()?,
            io::read_to_string(rt.alloc(), client)?,
        )),
        Err(_) => Err(io::Error::from(ErrorKind::Other)),
    }
}

#[test]
fn a_listener_on_loopback_serves_its_clients(rt: HostRuntime) {
    let mut registry = new_registry(&rt, rt.alloc());
    let same = match &asked(&rt, &mut registry) {
        Ok((told, text)) => {
            told.as_slice() == b"listening 127.0.0.1:8347\n".as_slice()
                && text.as_str() == AUDITED_NEW
        }
        Err(_) => false,
    };
    holds(&rt, same, "the audit of a new registry")
}

#[test]
fn as_many_clients_are_served_as_were_asked_for(rt: HostRuntime) {
    does(&rt, rt.alloc(), &Trial::ServesThree)
}

#[test]
fn a_client_that_breaks_off_while_it_sends_changes_nothing(rt: HostRuntime) {
    does(&rt, rt.alloc(), &Trial::LosesSenders)
}

#[test]
fn a_client_that_breaks_off_while_it_takes_the_answer_sends_again(rt: HostRuntime) {
    for room in 0..ACCEPTED.len() {
        does(&rt, rt.alloc(), &Trial::LosesATaker(room));
    }
}

/// Whether a fault of the records is answered as it should be, and told where it is one of the
/// store.
fn excuses(alloc: Global, fault: Fault) -> bool {
    let mut backend = FailingBackend { fault };
    let mut text = Vec::new(alloc);
    let served = serve_one(alloc, &mut backend, &mut AUDIT.as_bytes(), &mut text);
    let told = match served {
        Ok(served) => fault == Fault::Memory && served.status == Status::Unavailable,
        Err(told) => fault == Fault::Store && told == ServeFault::Store,
    };
    told && text.as_slice() == APOLOGY.as_bytes()
}

#[test]
fn faults_of_the_records_are_answered(rt: HostRuntime) {
    let alloc = rt.alloc();
    holds(&rt, excuses(alloc, Fault::Memory), "want of memory");
    holds(&rt, excuses(alloc, Fault::Store), "the store")
}
