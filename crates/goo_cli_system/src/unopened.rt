//! Why files are not opened.
ghost use Rattle.std.specs.Prelude.{◌≡◌};
ghost use Rattle.goo_cli_system.specs.Uses.{failure_of};

use goo_cli_ending::Failure;

/// Why the files at a path are not opened.
#[derive(Debug, Clone, Copy, PartialEq, Eq)]
pub enum Unopened {
    /// There is no file, or one that holds no database.
    NotARegistry,
    /// They can't be made or opened, as where another program has them open.
    Store,
    /// Memory was refused.
    Memory,
}

impl Unopened {
    /// What is told of it.
    pub fn failure(self) -> Failure
        ensures { result ≡ failure_of self }
    {
        match self {
            Unopened::NotARegistry => Failure::NotARegistry,
            Unopened::Store => Failure::Store,
            Unopened::Memory => Failure::Memory,
        }
    }
}
