//! From a command and its options to the task.
ghost use Rattle.std.specs.Prelude.{◌≡◌};
ghost use Rattle.goo_cli.specs.Options.{values_of};
ghost use Rattle.goo_cli.specs.Asked.{asked, asked_place};
ghost use Rattle.goo_cli.specs.Readings.{code_reading, today_reading, serial_reading};
ghost use Rattle.goo_cli.specs.Readings.{opening_given, names_opening, place_given};
ghost use Rattle.goo_cli.specs.Readings.{account_reading, port_reading, count_reading};
ghost use Rattle.goo_cli.specs.Readings.{serving_given, init_given, statement_given, serve_given};
ghost use Rattle.goo_cli.specs.Readings.{run_given, declare_given, audit_given, task_by};

use crate::given::Given;
use crate::line_fault::LineFault;
use crate::setting::Setting;
use crate::task::{Invocation, Opening, Records, Serving};
use crate::values::{account_in, code_in, count_in, day_in, port_in, serial_in};
use crate::verb::Verb;
use goo_types::account_no::AccountNo;
use goo_types::day::Day;
use goo_types::registry_code::RegistryCode;
use goo_types::serial::Serial;

/// The value of `--code`.
fn code_given(given: &Given<'_>) -> Result<RegistryCode, LineFault>
    ensures { result ≡ code_reading (values_of given.now).code }
{
    match given.code {
        Some(text) => code_in(text).ok_or(LineFault::Wrong(Setting::Code)),
        None => Err(LineFault::Missing(Setting::Code)),
    }
}

/// The value of `--today`.
fn day_given(given: &Given<'_>) -> Result<Day, LineFault>
    ensures { result ≡ today_reading (values_of given.now).today }
{
    match given.today {
        Some(text) => day_in(text).ok_or(LineFault::Wrong(Setting::Today)),
        None => Err(LineFault::Missing(Setting::Today)),
    }
}

/// The value of `--next-serial`, which is 1 where it isn't given.
fn serial_given(given: &Given<'_>) -> Result<Serial, LineFault>
    ensures { result ≡ serial_reading (values_of given.now).next_serial }
{
    match given.next_serial {
        Some(text) => serial_in(text).ok_or(LineFault::Wrong(Setting::NextSerial)),
        None => Serial::new(1).ok_or(LineFault::Wrong(Setting::NextSerial)),
    }
}

/// What a new registry begins with.
fn opening_given(given: &Given<'_>) -> Result<Opening, LineFault>
    ensures { result ≡ opening_given (values_of given.now) }
{
    Ok(Opening {
        code: code_given(given)?,
        today: day_given(given)?,
        next_serial: serial_given(given)?,
    })
}

/// Whether something is given that a new registry begins with.
fn names_opening(given: &Given<'_>) -> bool
    ensures { result ≡ names_opening (values_of given.now) }
{
    given.code.is_some() || given.today.is_some() || given.next_serial.is_some()
}

/// Where the records are.
fn place_given<'a>(given: &Given<'a>) -> Result<Records<'a>, LineFault>
    ensures { asked_place result ≡ place_given (values_of given.now) }
{
    match given.file {
        Some(_) if given.is_in_memory => Err(LineFault::TwoPlaces),
        Some(_) if names_opening(given) => Err(LineFault::NotNew),
        Some(file) => Ok(Records::File(file)),
        None if given.is_in_memory => match opening_given(given) {
            Ok(opening) => Ok(Records::Memory(opening)),
            Err(fault) => Err(fault),
        },
        None => Err(LineFault::NoPlace),
    }
}

/// The account that a statement is of.
fn account_given(given: &Given<'_>) -> Result<AccountNo, LineFault>
    ensures { result ≡ account_reading (values_of given.now).account }
{
    match given.account {
        Some(text) => account_in(text).ok_or(LineFault::Wrong(Setting::Account)),
        None => Err(LineFault::Missing(Setting::Account)),
    }
}

/// The value of `--port`.
fn port_given(given: &Given<'_>) -> Result<u16, LineFault>
    ensures { result ≡ port_reading (values_of given.now).port }
{
    match given.port {
        Some(text) => port_in(text).ok_or(LineFault::Wrong(Setting::Port)),
        None => Err(LineFault::Missing(Setting::Port)),
    }
}

/// The value of `--count`.
fn count_given(given: &Given<'_>) -> Result<u32, LineFault>
    ensures { result ≡ count_reading (values_of given.now).count }
{
    match given.count {
        Some(text) => count_in(text).ok_or(LineFault::Wrong(Setting::Count)),
        None => Err(LineFault::Missing(Setting::Count)),
    }
}

/// How requests are taken over HTTP.
fn serving_given(given: &Given<'_>) -> Result<Serving, LineFault>
    ensures { result ≡ serving_given (values_of given.now) }
{
    Ok(Serving {
        port: port_given(given)?,
        count: count_given(given)?,
    })
}

/// The task of `init`.
fn init_given<'a>(given: &Given<'a>) -> Result<Invocation<'a>, LineFault>
    ensures { asked result ≡ init_given (values_of given.now) }
{
    match given.file {
        Some(file) => match opening_given(given) {
            Ok(opening) => Ok(Invocation::Init(file, opening)),
            Err(fault) => Err(fault),
        },
        None => Err(LineFault::Missing(Setting::File)),
    }
}

/// The task of `run`.
fn run_given<'a>(given: &Given<'a>) -> Result<Invocation<'a>, LineFault>
    ensures { asked result ≡ run_given (values_of given.now) }
{
    match place_given(given) {
        Ok(place) => Ok(Invocation::Run(place)),
        Err(fault) => Err(fault),
    }
}

/// The task of `declare`.
fn declare_given<'a>(given: &Given<'a>) -> Result<Invocation<'a>, LineFault>
    ensures { asked result ≡ declare_given (values_of given.now) }
{
    match given.file {
        Some(file) => Ok(Invocation::Declare(file)),
        None => Err(LineFault::Missing(Setting::File)),
    }
}

/// The task of `statement`.
fn statement_given<'a>(given: &Given<'a>) -> Result<Invocation<'a>, LineFault>
    ensures { asked result ≡ statement_given (values_of given.now) }
{
    match given.file {
        Some(file) => match account_given(given) {
            Ok(account) => Ok(Invocation::Statement(file, account)),
            Err(fault) => Err(fault),
        },
        None => Err(LineFault::Missing(Setting::File)),
    }
}

/// The task of `audit`.
fn audit_given<'a>(given: &Given<'a>) -> Result<Invocation<'a>, LineFault>
    ensures { asked result ≡ audit_given (values_of given.now) }
{
    match given.file {
        Some(file) => Ok(Invocation::Audit(file)),
        None => Err(LineFault::Missing(Setting::File)),
    }
}

/// The task of `serve`.
fn serve_given<'a>(given: &Given<'a>) -> Result<Invocation<'a>, LineFault>
    ensures { asked result ≡ serve_given (values_of given.now) }
{
    match serving_given(given) {
        Ok(serving) => match place_given(given) {
            Ok(place) => Ok(Invocation::Serve(place, serving)),
            Err(fault) => Err(fault),
        },
        Err(fault) => Err(fault),
    }
}

/// The task of a command with its options.
pub fn task_by<'a>(verb: Verb, given: &Given<'a>) -> Result<Invocation<'a>, LineFault>
    ensures { asked result ≡ task_by verb (values_of given.now) }
{
    match verb {
        Verb::Init => init_given(given),
        Verb::Run => run_given(given),
        Verb::Declare => declare_given(given),
        Verb::Statement => statement_given(given),
        Verb::Audit => audit_given(given),
        Verb::Serve => serve_given(given),
    }
}
