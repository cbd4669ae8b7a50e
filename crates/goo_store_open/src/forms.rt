//! What tells the tables and indexes of a registry from one another.

/// A column of a STRICT table, with neither DEFAULT nor COLLATE, by its name.
#[derive(Clone, Copy)]
pub enum ColumnForm {
    /// INTEGER NOT NULL
    Number(&'static [u8]),
    /// TEXT NOT NULL
    Text(&'static [u8]),
    /// BLOB NOT NULL
    Bytes(&'static [u8]),
    /// TEXT
    MaybeText(&'static [u8]),
    /// INTEGER PRIMARY KEY, which is the rowid
    NumberKey(&'static [u8]),
}

/// A STRICT table with neither CHECK, REFERENCES nor AUTOINCREMENT. Places count the columns from
/// 1, and the rowid is place 0.
#[derive(Clone, Copy)]
pub struct TableForm {
    pub name: &'static [u8],
    pub tree: u32,
    /// The column that is the rowid, counted from 0.
    pub key: Option<usize>,
    /// The places of the PRIMARY KEY.
    pub primary: &'static [usize],
    /// The places of each UNIQUE, and of a PRIMARY KEY that is not the rowid.
    pub uniques: &'static [&'static [usize]],
    pub columns: &'static [ColumnForm],
}

/// An index whose columns ascend by their bytes.
#[derive(Clone, Copy)]
pub struct IndexForm {
    pub name: &'static [u8],
    pub tree: u32,
    /// The tree of its table.
    pub table: u32,
    /// The places of its columns, as those of a table.
    pub columns: &'static [usize],
    pub is_unique: bool,
}
