//! Whether parts of a schema are those that are wanted.

ghost use Rattle.std.specs.Prelude.{◌≡◌, ◌↔◌, IsTrue, map, []};
ghost use Rattle.sqlite_value.specs.Keys.{plain};
ghost use Rattle.goo_tables_rows.specs.Columns.{column_of};
ghost use Rattle.goo_store_open.specs.Forms.{column_meant, places_meant, plain_each, table_meant};
ghost use Rattle.goo_store_open.specs.Forms.{index_meant};

use crate::forms::{ColumnForm, IndexForm, TableForm};
use sqlite_items::Items;
use sqlite_schema::code::Terms;
use sqlite_schema::schema::{Column, Index, Kind, Stamps, Table};
use sqlite_value::keys::{Collation, Order};
use sqlite_value::value::Value;

fn is_null(value: &Value) -> bool
    ensures { IsTrue result ↔ (value.now ≡ Value.Null) }
{
    matches!(value, Value::Null)
}

/// Whether it is a column of a STRICT table, with this name and kind, and with neither DEFAULT nor
/// COLLATE.
fn is_strict_column(column: &Column, name: &[u8], kind: Kind, is_required: bool) -> bool
    ensures { IsTrue result ↔ (column.now ≡ column_of is_required name.now kind) }
{
    column.name.as_slice() == name
        && column.kind == kind
        && column.is_strict
        && column.not_null == is_required
        && is_null(&column.default)
        && column.collation == Collation::Binary
}

fn is_column(column: &Column, form: &ColumnForm) -> bool
    ensures { IsTrue result ↔ (column.now ≡ column_meant form.now) }
{
    match *form {
        ColumnForm::Number(name) => is_strict_column(column, name, Kind::Integer, true),
        ColumnForm::Text(name) => is_strict_column(column, name, Kind::Text, true),
        ColumnForm::Bytes(name) => is_strict_column(column, name, Kind::Blob, true),
        ColumnForm::MaybeText(name) => is_strict_column(column, name, Kind::Text, false),
        ColumnForm::NumberKey(name) => is_strict_column(column, name, Kind::Integer, false),
    }
}

fn are_columns(columns: &[Column], forms: &[ColumnForm]) -> bool
    ensures { IsTrue result ↔ (columns.now ≡ map column_meant forms.now) }
{
    match (columns, forms) {
        ([], []) => true,
        ([column, rest @ ..], [form, more @ ..]) => {
            is_column(column, form) && are_columns(rest, more)
        }
        _ => false,
    }
}

fn are_places(places: &Items<usize>, form: &[usize]) -> bool
    ensures { IsTrue result ↔ (places.now ≡ form.now) }
{
    places.as_slice() == form
}

fn are_uniques(uniques: &[Items<usize>], forms: &[&[usize]]) -> bool
    ensures { IsTrue result ↔ (uniques.now ≡ places_meant forms.now) }
{
    match (uniques, forms) {
        ([], []) => true,
        ([places, rest @ ..], [form, more @ ..]) => {
            are_places(places, form) && are_uniques(rest, more)
        }
        _ => false,
    }
}

fn are_plain(orders: &[Order], forms: &[&[usize]]) -> bool
    ensures { IsTrue result ↔ (orders.now ≡ plain_each forms.now) }
{
    match (orders, forms) {
        ([], []) => true,
        ([order, rest @ ..], [_, more @ ..]) => order.digits == 0 && are_plain(rest, more),
        _ => false,
    }
}

fn are_none(terms: &Terms) -> bool
    ensures { IsTrue result ↔ (terms.now ≡ []) }
{
    terms.roots.is_empty()
}

fn has_none(stamps: &Stamps) -> bool
    ensures { IsTrue result ↔ (stamps.now ≡ record { places = []; terms = []; formats = [] }) }
{
    stamps.places.is_empty() && are_none(&stamps.terms) && stamps.formats.is_empty()
}

/// Whether it is a STRICT table of this form, with neither CHECK, REFERENCES nor AUTOINCREMENT.
pub fn is_table(table: &Table, form: &TableForm) -> bool
    ensures { IsTrue result ↔ (table.now ≡ table_meant form.now) }
{
    table.name.as_slice() == form.name
        && table.tree == form.tree
        && are_columns(table.columns.as_slice(), form.columns)
        && table.key == form.key
        && table.primary.as_slice() == form.primary
        && are_uniques(table.uniques.as_slice(), form.uniques)
        && are_plain(table.orders.as_slice(), form.uniques)
        && are_none(&table.checks)
        && table.references.is_empty()
        && table.computed.is_empty()
        && has_none(&table.stamps)
        && !table.is_counted
}

/// Whether the tables have these forms, in this order.
pub fn are_tables(tables: &[Table], forms: &[TableForm]) -> bool
    ensures { IsTrue result ↔ (tables.now ≡ map table_meant forms.now) }
{
    match (tables, forms) {
        ([], []) => true,
        ([table, rest @ ..], [form, more @ ..]) => is_table(table, form) && are_tables(rest, more),
        _ => false,
    }
}

fn is_index(index: &Index, form: &IndexForm) -> bool
    ensures { IsTrue result ↔ (index.now ≡ index_meant form.now) }
{
    index.name.as_slice() == form.name
        && index.tree == form.tree
        && index.table == form.table
        && index.columns.as_slice() == form.columns
        && index.order.digits == 0
        && index.is_unique == form.is_unique
}

/// Whether the indexes have these forms, in this order.
pub fn are_indexes(indexes: &[Index], forms: &[IndexForm]) -> bool
    ensures { IsTrue result ↔ (indexes.now ≡ map index_meant forms.now) }
{
    match (indexes, forms) {
        ([], []) => true,
        ([index, rest @ ..], [form, more @ ..]) => is_index(index, form) && are_indexes(rest, more),
        _ => false,
    }
}
