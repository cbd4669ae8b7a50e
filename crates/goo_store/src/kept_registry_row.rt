//! The registry's row, kept from one commit to the next.

ghost use Rattle.std.specs.Prelude.{OnErr, OnOk, Some};
ghost use Rattle.goo_tables_rows.specs.Rows.{Tables};
ghost use Rattle.goo_store_changes.specs.Changes.{made, made_all};
ghost use Rattle.goo_store_plans.specs.Found.{IsRowOf};

use goo_store_changes::table_change::TableChange;
use goo_tables_rows::meta::MetaRow;
use sqlite::Error;

/// The row that is kept, once more; none where none is kept, or where memory for it is refused.
pub fn copied(own: &Option<MetaRow>) -> Option<MetaRow>
    ensures { (t : Tables) → IsRowOf own.now t → IsRowOf result t }
{
    let row = own.as_ref()?;
    let today = row.today.clone().ok()?;
    Some(MetaRow {
        version: row.version,
        code: row.code,
        today,
        next_serial: row.next_serial,
        next_account: row.next_account,
        next_cancellation: row.next_cancellation,
        next_withdrawal: row.next_withdrawal,
        next_notice: row.next_notice,
    })
}

/// The row after a change; none where memory for it is refused.
fn after_change(row: MetaRow, change: &TableChange) -> Option<MetaRow>
    ensures { (t : Tables) → IsRowOf (Some row) t → IsRowOf result (made t change.now) }
{
    match change {
        TableChange::SetToday(day) => Some(MetaRow {
            today: day.clone().ok()?,
            ..row
        }),
        TableChange::SetCounters(counters) => Some(MetaRow {
            next_serial: counters.next_serial,
            next_account: counters.next_account,
            next_cancellation: counters.next_cancellation,
            next_withdrawal: counters.next_withdrawal,
            next_notice: counters.next_notice,
            ..row
        }),
        _ => Some(row),
    }
}

/// The row after changes, where it is known then.
fn after_changes(own: Option<MetaRow>, changes: &[TableChange]) -> Option<MetaRow>
    ensures { (t : Tables) → IsRowOf own t → IsRowOf result (made_all t changes.now) }
{
    let mut row = own?;
    for change in changes {
        row = after_change(row, change)?;
    }
    Some(row)
}

/// The row once a commit of changes has ended; none where it failed.
pub fn row_after(
    made: &Result<(), Error>,
    own: Option<MetaRow>,
    changes: &[TableChange],
) -> Option<MetaRow>
    ensures made { OnOk made.now ((t : Tables) → IsRowOf own t
        → IsRowOf result (made_all t changes.now)) }
    ensures failed { OnErr made.now ((t : Tables) → IsRowOf result t) }
{
    match made {
        Ok(()) => after_changes(own, changes),
        Err(_) => None,
    }
}
