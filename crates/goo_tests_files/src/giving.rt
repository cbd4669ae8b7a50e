//! What a registry over any shelf gives out.

use crate::claims::holds;
use crate::wanted::STATEMENT;
use crate::writers::ShortWriter;
use goo_core_shelf::shelf::Shelf;
use goo_files::{ShowFault, write_audit, write_cancellation, write_holdings_csv, write_statement};
use goo_registry::Registry;
use goo_types::account_no::AccountNo;
use goo_types::act_no::ActNo;
use goo_types::holder_code::HolderCode;
use std::alloc::Global;
use std::process::Abort;

/// What is asked for.
#[derive(Clone, Copy)]
pub enum Text {
    /// The statement of an account.
    Statement(u32),
    /// The holdings of an account.
    Holdings(u32),
    /// The document of a cancellation.
    Document(u32),
    /// The audit.
    Audit,
}

/// Who asks for what, and what is given, or why it isn't.
pub type Asked = (&'static str, Text, Result<&'static str, ShowFault>);

/// What a caller who asks is given.
fn given<S: Shelf>(
    alloc: Global,
    registry: &mut Registry<S>,
    caller: &HolderCode,
    text: Text,
    out: &mut Vec<u8>,
) -> Result<(), ShowFault> {
    match text {
        Text::Statement(account) => match AccountNo::new(account) {
            Some(account) => write_statement(registry, caller, account, out),
            None => Err(ShowFault::Unknown),
        },
        Text::Holdings(account) => match AccountNo::new(account) {
            Some(account) => write_holdings_csv(alloc, registry, caller, account, out),
            None => Err(ShowFault::Unknown),
        },
        Text::Document(act) => match ActNo::new(act) {
            Some(act) => write_cancellation(alloc, registry, caller, act, out),
            None => Err(ShowFault::Unknown),
        },
        Text::Audit => write_audit(alloc, registry, caller, out),
    }
}

/// A caller is given this, or this is why not: then nothing is written.
fn gives<S: Shelf>(
    rt: &impl Abort,
    alloc: Global,
    registry: &mut Registry<S>,
    caller: &str,
    text: Text,
    wanted: Result<&str, ShowFault>,
) {
    let caller = HolderCode::read(caller.as_bytes()).expect(rt, "a caller");
    let mut out = Vec::new(alloc);
    let written = given(alloc, registry, &caller, text, &mut out);
    match wanted {
        Ok(wanted) => holds(
            rt,
            written.is_ok() && out.as_slice() == wanted.as_bytes(),
            wanted,
        ),
        Err(fault) => holds(rt, written == Err(fault) && out.is_empty(), "denied"),
    }
}

/// These texts are given, in turn.
pub fn gives_all<S: Shelf>(
    rt: &impl Abort,
    alloc: Global,
    registry: &mut Registry<S>,
    asked: &[Asked],
) {
    for (caller, text, wanted) in asked {
        gives(rt, alloc, registry, caller, *text, *wanted);
    }
}

/// A writer of the statement of the first account fails after so many bytes, and has these.
pub fn fails_to_write<S: Shelf>(
    rt: &impl Abort,
    alloc: Global,
    registry: &mut Registry<S>,
    room: usize,
) {
    let sun = HolderCode::read(b"SUN").expect(rt, "a caller");
    let text = Vec::new(alloc);
    let mut writer = ShortWriter { text, room };
    let written = write_statement(registry, &sun, AccountNo::new(1).unwrap(), &mut writer);
    holds(rt, written == Err(ShowFault::Write), "the writer failed");
    let text = writer.text.as_slice();
    holds(
        rt,
        text.len() == room && STATEMENT.as_bytes().starts_with(text),
        "a beginning",
    )
}
