//! The registry's program. Its exit status is 0 where all was done, 1 where something was refused
//! or unreadable, 2 where the command line asks for nothing that it does, and 3 after a fault. What
//! it says of these goes to standard error.
//!
//! What it does is `perform` of goo_cli_system, over any system. Here are the system's own calls.
#![tactic(auto)]

mod deed;
mod files;
mod host;
mod host_listener;
mod object;
mod reason;

use crate::host::Host;
use crate::host_listener::HostListener;
use goo_cli_ending::{Ending, Failure};
use sqlite::Unknown;
use std::env;
use std::io::{self, BufWriter, ErrorKind};
use std::process::ExitCode;

fn main(rt: HostRuntime) -> ExitCode {
    ExitCode::from(perform(&rt))
}

/// Does what the command line asks for, says on standard error what isn't all right, and tells the
/// exit status.
fn perform(rt: &HostRuntime) -> u8 {
    match env::args(rt) {
        Ok(words) => match words.collect::<Vec<String>>(rt.alloc()) {
            Ok(words) => perform_words(rt, words.as_slice()),
            Err(_) => tell(rt, &Ending::Failed(Failure::Memory)),
        },
        Err(error) if error.kind() == ErrorKind::OutOfMemory => {
            tell(rt, &Ending::Failed(Failure::Memory))
        }
        Err(_) => tell(
            rt,
            &Ending::Misused("goo: a word of the command line is no text"),
        ),
    }
}

/// Says how the program ends, and tells the exit status.
fn tell(rt: &HostRuntime, ending: &Ending) -> u8 {
    ending.tell(rt);
    ending.status()
}

/// Does what these words ask for, with the standard streams, the files and the port of this
/// machine.
fn perform_words(rt: &HostRuntime, words: &[String]) -> u8 {
    match BufWriter::new(rt.alloc(), io::writer(rt)) {
        Ok(mut writer) => {
            let mut host = Host::new(rt, Unknown);
            let mut listener = HostListener::new(rt);
            let mut reader = rt.reader();
            goo_cli_system::perform(
                rt.alloc(),
                words,
                &mut host,
                &mut listener,
                &mut reader,
                &mut writer,
            )
        }
        Err(_) => tell(rt, &Ending::Failed(Failure::Memory)),
    }
}
