//! The tables that a registry is kept in, of either version.

ghost use Rattle.std.specs.Prelude.{◌≡◌};
ghost use Rattle.goo_store_open.specs.Layout.{number_of};

/// The tables that a registry is kept in.
#[derive(Clone, Copy)]
pub enum Layout {
    /// Those of version 1, which have neither corrections nor carriers.
    First,
    /// Those of version 2, which are made and written here.
    Ours,
}

impl Layout {
    /// The version that the row of `meta` has to tell.
    pub fn version(self) -> u32
        ensures { result ≡ number_of self }
    {
        match self {
            Layout::First => 1,
            Layout::Ours => 2,
        }
    }
}
