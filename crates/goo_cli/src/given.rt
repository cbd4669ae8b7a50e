//! The options of a command, as they were given.
ghost use Rattle.std.specs.Prelude.{◌≡◌, codes, option_map};
ghost use Rattle.clap.specs.Words.{found_of, first_value, rows_of};
ghost use Rattle.goo_cli.specs.Options.{values_of, values_in, is_set};

use clap::ArgMatches;

/// The values of a command's options, as they were given; of one that the command hasn't, none.
#[derive(Drop)]
pub struct Given<'a> {
    pub file: Option<&'a str>,
    pub is_in_memory: bool,
    pub code: Option<&'a str>,
    pub today: Option<&'a str>,
    pub next_serial: Option<&'a str>,
    pub account: Option<&'a str>,
    pub port: Option<&'a str>,
    pub count: Option<&'a str>,
}

/// Whether the flag `--memory` is set.
fn is_in_memory(under: &ArgMatches<'_>) -> bool
    ensures { result ≡ is_set (first_value (found_of under.now) (codes "memory")) }
{
    match under.get_str("memory") {
        Some("true") => true,
        Some(_) => false,
        None => false,
    }
}

/// The options of a command.
pub fn read_options<'a>(under: &ArgMatches<'a>) -> Given<'a>
    ensures { values_of result ≡ values_in (rows_of (found_of under.now)) }
{
    Given {
        file: under.get_str("db"),
        is_in_memory: is_in_memory(under),
        code: under.get_str("code"),
        today: under.get_str("today"),
        next_serial: under.get_str("next-serial"),
        account: under.get_str("account"),
        port: under.get_str("port"),
        count: under.get_str("count"),
    }
}
