//! An import is a run.
ghost use Rattle.goo_files_import.specs.Laws.{HeaderOrRows, IsARun, OneTable};
ghost use Rattle.goo_files_import.specs.Laws.{RowsSentAgain, TableSentAgain};

/// Rows, applied in turn, come to what a run of the requests of the readable ones comes to: its
/// state, and a report of its outcomes with each other row in its place.
pub fn import_is_a_run()
    ensures { IsARun }
{}

/// An input has one list of records.
pub fn one_table()
    ensures { OneTable }
{}

/// An input that lacks its header has no rows.
pub fn header_or_rows()
    ensures { HeaderOrRows }
{}

/// A table that is sent again whole after a first part of it was applied comes to the state of the
/// table sent once, from every state. Each accepted row of that part is repeated with its first
/// reply, each refused one is refused, perhaps for another reason, and each unreadable one is
/// unreadable. The rows behind that part have the results of the table sent once.
///
/// - `rows`: so it is of all rows;
/// - `table`: the rows of an input that an import began with are a first part of all its rows.
pub fn sent_again_whole()
    ensures rows { RowsSentAgain }
    ensures table { TableSentAgain }
{}
