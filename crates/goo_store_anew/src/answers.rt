//! What the tables of a registry answer.

use sqlite::Row;

/// The rows of one table, by the columns that its question names.
#[derive(Drop)]
pub struct Answer {
    pub rows: Vec<Row>,
}
