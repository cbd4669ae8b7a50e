//! What was done with files.

/// One thing done with the files at a path. Only clauses read it.
#[derive(Drop)]
pub enum Deed {
    /// The files of a registry that is there were opened.
    OpenKept(String),
    /// Files were opened at a path at which a registry is to be made.
    OpenNew(String),
    /// The log beside the database file of a path was removed.
    RemoveLog(String),
}
