//! The words, by `clap`.
//!
//! `clap` gets plain commands without a rule of one option on another, so that its matches are a
//! function of the words. This crate reads the options.
ghost use Rattle.std.specs.Prelude.{◌≡◌, Some, None, false, codes, map, IfOk, IfErr};
ghost use Rattle.clap.specs.Words.{app_of, subcommand_rows_of, with_rule, with_subcommand};
ghost use Rattle.clap.specs.declared.builder.command.Command.TheViews.{out-Command as fields_of};
ghost use Rattle.goo_cli.specs.Asked.{asked, asked_by};
ghost use Rattle.goo_cli.specs.Line.{option_rule, flag_rule, word_rule, with_version, with_opening};
ghost use Rattle.goo_cli.specs.Line.{with_place, with_init, with_run, with_declare, with_statement};
ghost use Rattle.goo_cli.specs.Line.{with_audit, with_serve, init_app, run_app, declare_app};
ghost use Rattle.goo_cli.specs.Line.{statement_app, audit_app, serve_app, goo_app, task_named};
ghost use Rattle.goo_cli.specs.Line.{task_in, NoTask, FaultIn};

use crate::given::read_options;
use crate::help;
use crate::line_fault::LineFault;
use crate::task::Invocation;
use crate::tasks::task_by;
use crate::verb::verb_in;
use clap::{Arg, ArgAction, ArgMatches, Command};
use std::alloc::{AllocError, Global};
use std::convert::AsStr;

/// The command with what its help says first, and the example at the end.
fn with_help<'a>(command: Command<'a>, about: &'a str, example: &'a str) -> Command<'a>
    ensures app { app_of result ≡ app_of command.entry }
    ensures local { (fields_of result).has_globals ≡ (fields_of command.entry).has_globals }
{
    command.about(about).after_help(example)
}

/// The program with its flag `--version`.
fn with_version<'a>(program: Command<'a>) -> Command<'a>
    ensures app { app_of result ≡ with_version (app_of program.entry) }
    ensures local { (fields_of result).has_globals ≡ (fields_of program.entry).has_globals }
{
    program.version(help::VERSION)
}

/// The command with an option more that takes one value.
fn with_option<'a>(
    alloc: Global,
    command: Command<'a>,
    name: &'a str,
    about: &'a str,
) -> Result<Command<'a>, AllocError>
    ensures app { IfOk result
        (λ r. app_of r ≡ with_rule (app_of command.entry) (option_rule name.now)) }
    ensures local { IfOk result
        (λ r. (fields_of r).has_globals ≡ (fields_of command.entry).has_globals) }
{
    let option = Arg::new(alloc, name).long(name).action(ArgAction::Set);
    command.arg(option.help(about))
}

/// The command with a flag more, which takes no value.
fn with_flag<'a>(
    alloc: Global,
    command: Command<'a>,
    name: &'a str,
    about: &'a str,
) -> Result<Command<'a>, AllocError>
    ensures app { IfOk result
        (λ r. app_of r ≡ with_rule (app_of command.entry) (flag_rule name.now)) }
    ensures local { IfOk result
        (λ r. (fields_of r).has_globals ≡ (fields_of command.entry).has_globals) }
{
    let flag = Arg::new(alloc, name).long(name).action(ArgAction::SetTrue);
    command.arg(flag.help(about))
}

/// The command with a word more that stands by itself.
fn with_word<'a>(
    alloc: Global,
    command: Command<'a>,
    name: &'a str,
    about: &'a str,
) -> Result<Command<'a>, AllocError>
    ensures app { IfOk result
        (λ r. app_of r ≡ with_rule (app_of command.entry) (word_rule name.now)) }
    ensures local { IfOk result
        (λ r. (fields_of r).has_globals ≡ (fields_of command.entry).has_globals) }
{
    let word = Arg::new(alloc, name).action(ArgAction::Set);
    command.arg(word.help(about))
}

/// The command with the option that names the file.
fn with_file<'a>(alloc: Global, command: Command<'a>) -> Result<Command<'a>, AllocError>
    ensures app { IfOk result
        (λ r. app_of r ≡ with_rule (app_of command.entry) (option_rule (codes "db"))) }
    ensures local { IfOk result
        (λ r. (fields_of r).has_globals ≡ (fields_of command.entry).has_globals) }
{
    with_option(alloc, command, "db", help::FILE)
}

/// The command with the options that a new registry begins with.
fn with_opening<'a>(alloc: Global, command: Command<'a>) -> Result<Command<'a>, AllocError>
    ensures app { IfOk result (λ r. app_of r ≡ with_opening (app_of command.entry)) }
    ensures local { IfOk result
        (λ r. (fields_of r).has_globals ≡ (fields_of command.entry).has_globals) }
{
    let command = with_option(alloc, command, "code", help::CODE)?;
    let command = with_option(alloc, command, "today", help::TODAY)?;
    Ok(with_option(alloc, command, "next-serial", help::NEXT_SERIAL)?)
}

/// The command with the options that say where the records are.
fn with_place<'a>(alloc: Global, command: Command<'a>) -> Result<Command<'a>, AllocError>
    ensures app { IfOk result (λ r. app_of r ≡ with_place (app_of command.entry)) }
    ensures local { IfOk result
        (λ r. (fields_of r).has_globals ≡ (fields_of command.entry).has_globals) }
{
    let command = with_file(alloc, command)?;
    let command = with_flag(alloc, command, "memory", help::MEMORY)?;
    Ok(with_opening(alloc, command)?)
}

/// The command `init` with its options.
#[tactic(auto, unfolding(crate::specs::Line::init_app))]
fn init_command<'a>(alloc: Global) -> Result<Command<'a>, AllocError>
    ensures app { IfOk result (λ command. app_of command ≡ init_app) }
    ensures local { IfOk result (λ command. (fields_of command).has_globals ≡ false) }
{
    let command = with_help(Command::new(alloc, "init"), help::INIT, help::INIT_EXAMPLE);
    let command = with_file(alloc, command)?;
    Ok(with_opening(alloc, command)?)
}

/// The command `run` with its options.
#[tactic(auto, unfolding(crate::specs::Line::run_app))]
fn run_command<'a>(alloc: Global) -> Result<Command<'a>, AllocError>
    ensures app { IfOk result (λ command. app_of command ≡ run_app) }
    ensures local { IfOk result (λ command. (fields_of command).has_globals ≡ false) }
{
    let command = with_help(Command::new(alloc, "run"), help::RUN, help::RUN_EXAMPLE);
    Ok(with_place(alloc, command)?)
}

/// The command `declare` with its options.
#[tactic(auto, unfolding(crate::specs::Line::declare_app))]
fn declare_command<'a>(alloc: Global) -> Result<Command<'a>, AllocError>
    ensures app { IfOk result (λ command. app_of command ≡ declare_app) }
    ensures local { IfOk result (λ command. (fields_of command).has_globals ≡ false) }
{
    let command = Command::new(alloc, "declare");
    let command = with_help(command, help::DECLARE, help::DECLARE_EXAMPLE);
    Ok(with_file(alloc, command)?)
}

/// The command `statement` with its account and its options.
#[tactic(auto, unfolding(crate::specs::Line::statement_app))]
fn statement_command<'a>(alloc: Global) -> Result<Command<'a>, AllocError>
    ensures app { IfOk result (λ command. app_of command ≡ statement_app) }
    ensures local { IfOk result (λ command. (fields_of command).has_globals ≡ false) }
{
    let command = Command::new(alloc, "statement");
    let command = with_help(command, help::STATEMENT, help::STATEMENT_EXAMPLE);
    let command = with_word(alloc, command, "account", help::ACCOUNT)?;
    Ok(with_file(alloc, command)?)
}

/// The command `audit` with its options.
#[tactic(auto, unfolding(crate::specs::Line::audit_app))]
fn audit_command<'a>(alloc: Global) -> Result<Command<'a>, AllocError>
    ensures app { IfOk result (λ command. app_of command ≡ audit_app) }
    ensures local { IfOk result (λ command. (fields_of command).has_globals ≡ false) }
{
    let command = with_help(
        Command::new(alloc, "audit"),
        help::AUDIT,
        help::AUDIT_EXAMPLE,
    );
    Ok(with_file(alloc, command)?)
}

/// The command `serve` with its options.
#[tactic(auto, unfolding(crate::specs::Line::serve_app))]
fn serve_command<'a>(alloc: Global) -> Result<Command<'a>, AllocError>
    ensures app { IfOk result (λ command. app_of command ≡ serve_app) }
    ensures local { IfOk result (λ command. (fields_of command).has_globals ≡ false) }
{
    let command = with_help(
        Command::new(alloc, "serve"),
        help::SERVE,
        help::SERVE_EXAMPLE,
    );
    let command = with_option(alloc, command, "port", help::PORT)?;
    let command = with_option(alloc, command, "count", help::COUNT)?;
    Ok(with_place(alloc, command)?)
}

/// The program with the commands that make and fill a registry.
fn with_makers<'a>(alloc: Global, program: Command<'a>) -> Result<Command<'a>, AllocError>
    ensures { IfOk result
        (λ r. app_of r ≡ with_declare (with_run (with_init (app_of program.entry)))) }
{
    let program = program.subcommand(init_command(alloc)?)?;
    let program = program.subcommand(run_command(alloc)?)?;
    Ok(program.subcommand(declare_command(alloc)?)?)
}

/// The program with the commands that show a registry.
fn with_viewers<'a>(alloc: Global, program: Command<'a>) -> Result<Command<'a>, AllocError>
    ensures { IfOk result
        (λ r. app_of r ≡ with_serve (with_audit (with_statement (app_of program.entry)))) }
{
    let program = program.subcommand(statement_command(alloc)?)?;
    let program = program.subcommand(audit_command(alloc)?)?;
    Ok(program.subcommand(serve_command(alloc)?)?)
}

/// The program with its commands.
#[tactic(auto, unfolding(crate::specs::Line::goo_app))]
fn program_command<'a>(alloc: Global) -> Result<Command<'a>, AllocError>
    ensures { IfOk result (λ command. app_of command ≡ goo_app) }
{
    let program = with_help(Command::new(alloc, "goo"), help::GOO, help::GOO_EXAMPLE);
    let program = with_makers(alloc, with_version(program))?;
    Ok(with_viewers(alloc, program)?)
}

/// The task of the command that the words name.
fn task_named<'a>(matches: &ArgMatches<'a>) -> Result<Invocation<'a>, LineFault>
    ensures { asked result ≡ task_named (subcommand_rows_of matches.now) }
{
    match matches.subcommand() {
        Some((name, under)) => match verb_in(name) {
            Some(verb) => task_by(verb, &read_options(under)),
            None => Err(LineFault::Command),
        },
        None => Err(LineFault::Command),
    }
}

/// The task that the words of a command line ask for. The first word is the program's own name.
///
/// # Errors
///
/// Where the words aren't a command of the program with its options, a value is missing or refused,
/// or they ask for help or the version; and `Memory`, where there is no room to read them.
pub fn read_task<'a, S: AsStr>(alloc: Global, words: &'a [S]) -> Result<Invocation<'a>, LineFault>
    ensures task { IfOk result (λ task. task_in (map S.text words.now) ≡ Some (asked_by task)) }
    ensures none { IfErr result (NoTask (task_in (map S.text words.now))) }
    ensures told { IfErr result (FaultIn (map S.text words.now)) }
{
    let matches = program_command(alloc)?.try_get_matches_from(words)?;
    task_named(&matches)
}
