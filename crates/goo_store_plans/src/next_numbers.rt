//! The numbers that are given next.

ghost use Rattle.std.specs.Prelude.{◌≡◌, IfOk, IsOk, IsTrue};
ghost use Rattle.goo_tables_rows.specs.Rows.{meta_in};
ghost use Rattle.goo_tables_accounts.specs.Changes.{CountersFit};
ghost use Rattle.goo_spec_tables.specs.Readable.{is_meta};
ghost use Rattle.goo_store_plans.specs.Carried.{counters_in};

use goo_store_values::statement_fault::StatementFault;
use goo_tables_accounts::counters::CountersRow;
use goo_tables_rows::meta::MetaRow;

/// One above the last number that a column keeps.
const COLUMN_END: u64 = 1 << 63;

/// The next number of each kind, in the registry's row.
pub fn next_numbers(meta: &MetaRow) -> Result<CountersRow, StatementFault>
    ensures numbers { IfOk result (λ c. c ≡ counters_in meta.now) }
    ensures fits { IfOk result CountersFit }
    ensures accepts { IsTrue (is_meta (meta_in meta.now)) → IsOk result }
{
    if meta.next_serial >= COLUMN_END {
        return Err(StatementFault::Refused);
    }
    Ok(CountersRow {
        next_serial: meta.next_serial,
        next_account: meta.next_account,
        next_cancellation: meta.next_cancellation,
        next_withdrawal: meta.next_withdrawal,
        next_notice: meta.next_notice,
    })
}
