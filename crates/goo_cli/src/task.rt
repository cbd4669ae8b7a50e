use goo_types::account_no::AccountNo;
use goo_types::day::Day;
use goo_types::registry_code::RegistryCode;
use goo_types::serial::Serial;

/// What a command line asks for. A file is named by its path.
#[derive(Clone, Copy)]
pub enum Invocation<'a> {
    /// Make a new registry in the file.
    Init(&'a str, Opening),
    /// Answer the requests of standard input, one a line.
    Run(Records<'a>),
    /// Import the declarations of standard input, as CSV, into the registry of the file.
    Declare(&'a str),
    /// Print the statement of an account of the registry in the file.
    Statement(&'a str, AccountNo),
    /// Print the totals of each device of the registry in the file.
    Audit(&'a str),
    /// Answer requests over HTTP.
    Serve(Records<'a>, Serving),
}

/// Where the registry's records are.
#[derive(Clone, Copy)]
pub enum Records<'a> {
    /// In memory: a new registry, which ends with the program.
    Memory(Opening),
    /// In the file at this path, which holds a registry.
    File(&'a str),
}

/// What a new registry begins with.
#[derive(Debug, Clone, Copy, PartialEq, Eq)]
pub struct Opening {
    /// The code in front of each certificate number.
    pub code: RegistryCode,
    /// The registry's own date.
    pub today: Day,
    /// The serial of the first certificate that is issued.
    pub next_serial: Serial,
}

/// How requests are taken over HTTP.
#[derive(Debug, Clone, Copy, PartialEq, Eq)]
pub struct Serving {
    /// The port on 127.0.0.1, 1 to 65535.
    pub port: u16,
    /// How many connections are answered before the program ends, 0 to 1,000,000,000.
    pub count: u32,
}
