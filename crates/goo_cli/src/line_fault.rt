ghost use Rattle.std.specs.Prelude.{◌≡◌};
ghost use Rattle.goo_cli.specs.declared.line_fault.LineFault.TheVariants as fault;
ghost use Rattle.goo_cli.specs.Faults.{TellsWords};

use crate::setting::Setting;
use clap::Error;
use clap::error::ErrorKind;
use std::alloc::AllocError;

/// Why a command line asks for no task.
#[derive(Drop)]
pub enum LineFault {
    /// `clap` refuses the words, or they ask for help: the text to show.
    Words(Error),
    /// There is no command.
    Command,
    /// Neither `--db` nor `--memory` says where the records are.
    NoPlace,
    /// Both `--db` and `--memory` say where the records are.
    TwoPlaces,
    /// `--code`, `--today` or `--next-serial` is given for a registry that is there already.
    NotNew,
    /// This option is missing.
    Missing(Setting),
    /// The value of this option is none that it may have.
    Wrong(Setting),
    /// There was no room to read the words.
    Memory,
}

impl From<Error> for LineFault {
    ghost from_gives = { TellsWords };

    fn from(error: Error) -> Self {
        if error.kind() == ErrorKind::OutOfMemory {
            LineFault::Memory
        } else {
            LineFault::Words(error)
        }
    }
}

impl From<AllocError> for LineFault {
    ghost from_gives = { λ _ told. told ≡ fault.Memory };

    fn from(_: AllocError) -> Self {
        LineFault::Memory
    }
}
