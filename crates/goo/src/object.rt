//! What a line on standard error speaks of.
use crate::reason::Reason;
use goo_cli_ending::{Ending, Failure, NotDone};
use goo_cli_jobs::{Job, MemoryWork, Work};
use goo_types::account_no::AccountNo;
use std::fmt;

/// What a line on standard error speaks of.
#[derive(Clone, Copy)]
pub enum Object<'a> {
    /// The file of a registry, and what the system named of it.
    File(&'a str, Option<Reason>),
    /// An account that the registry in a file does not have.
    Account(AccountNo, &'a str),
    /// A port on 127.0.0.1.
    Port(u16),
    /// Standard input.
    Input,
    /// The first line of standard input.
    Header,
    /// Standard output.
    Output,
}

impl<'a> fmt::Display for Object<'a> {
    fn fmt<W: fmt::Write>(&self, f: &mut fmt::Formatter<W>) -> fmt::Result {
        match self {
            Object::File(path, None) => f.write_str(path),
            Object::File(path, Some(reason)) => write!(f, "{path}: {reason}"),
            Object::Account(account, path) => write!(f, "{path}: no account {}", account.get()),
            Object::Port(port) => write!(
                f,
                "127.0.0.1:{port}: another program listens there, or no connection can be accepted"
            ),
            Object::Input => f.write_str("standard input: it can not be read, or is too long"),
            Object::Header => {
                f.write_str("standard input: the first line is not the header of a table")
            }
            Object::Output => f.write_str("standard output: it can not be written"),
        }
    }
}

impl<'a> Object<'a> {
    /// What the ending of a job speaks of. `None` where all was done, or where the line says it
    /// all.
    pub fn of(job: &Job<'a>, ending: &Ending, reason: Option<Reason>) -> Option<Object<'a>> {
        match ending {
            Ending::Failed(Failure::Read) => Some(Object::read_by(job)),
            Ending::Failed(Failure::Write) => Some(Object::Output),
            Ending::Failed(Failure::Memory) => None,
            Ending::Failed(_) => Object::file_of(job, reason),
            Ending::Denied(NotDone::Header) => Some(Object::Header),
            Ending::Denied(_) => Object::asked_of(job),
            _ => None,
        }
    }

    /// The file that a job works with.
    fn file_of(job: &Job<'a>, reason: Option<Reason>) -> Option<Object<'a>> {
        match job {
            Job::Make(path, _) | Job::InFile(path, _) => Some(Object::File(*path, reason)),
            Job::InMemory(_, _) => None,
        }
    }

    /// The account that a job asks for, or else its file.
    fn asked_of(job: &Job<'a>) -> Option<Object<'a>> {
        match job {
            Job::InFile(path, Work::Statement(account)) => Some(Object::Account(*account, *path)),
            _ => Object::file_of(job, None),
        }
    }

    /// Where a job takes its requests from.
    fn read_by(job: &Job<'a>) -> Object<'a> {
        match job {
            Job::InFile(_, Work::Serve(serving)) | Job::InMemory(_, MemoryWork::Serve(serving)) => {
                Object::Port(serving.port)
            }
            _ => Object::Input,
        }
    }
}
