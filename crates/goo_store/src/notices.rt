//! Notices that were sent and that came in, as they are found.

ghost use Rattle.std.specs.Prelude.{◌≡◌, pos, Some, IfSome, IsTrue, option_map};
ghost use Rattle.goo_tables_rows.specs.Rows.{notice_out_in, notice_in_in};
ghost use Rattle.goo_core_shelf.specs.Shelf.{arrival_of};
ghost use Rattle.goo_spec_tables.specs.Records.{sent_of, arrived_of};
ghost use Rattle.goo_spec_tables.specs.Readable.{is_notice_in};
ghost use Rattle.goo_store_pieces.specs.Reading.{IsReadableSent};
ghost use Rattle.goo_store_values.specs.Passing.{Accepts, Passes};

use goo_core_shelf::found::Arrival;
use goo_core_shelf::sent::Sent;
use goo_store_values::statement_fault::StatementFault;
use goo_store_values::{numbers, texts};
use goo_tables_rows::notice_in::NoticeInRow;
use goo_tables_rows::notice_out::NoticeOutRow;
use goo_types::notice::Notice;
use sqlite::Error;
use std::alloc::Global;

/// The notice that was sent, with the account in its row.
pub(crate) fn read_sent(
    alloc: Global,
    found: Result<Option<NoticeOutRow>, Error>,
) -> Result<Option<Sent>, StatementFault>
    ensures value { Passes found result
        (λ row sent. sent ≡ option_map sent_of (option_map notice_out_in row)) }
    ensures accepts { Accepts found result
        (λ row. IfSome row (λ r. IsReadableSent (notice_out_in r))) }
{
    let Some(row) = found? else {
        return Ok(None);
    };
    let account = numbers::account_no(row.account)?;
    Ok(Some(Sent::new(account, texts::notice(alloc, &row.body)?)))
}

/// What is kept for a notice's sender and number, seen from the notice.
fn arrival(kept: &Notice, notice: &Notice) -> Arrival
    ensures { result ≡ arrival_of (Some kept.now) notice.now }
{
    if kept.is(notice) {
        Arrival::Same
    } else {
        Arrival::Other
    }
}

/// What the row keeps for a notice's sender and number, seen from the notice.
pub(crate) fn read_arrival(
    alloc: Global,
    found: Result<Option<NoticeInRow>, Error>,
    notice: &Notice,
) -> Result<Arrival, StatementFault>
    ensures value { Passes found result
        (λ row arrival. arrival
        ≡ arrival_of (option_map arrived_of (option_map notice_in_in row)) notice.now) }
    ensures accepts { Accepts found result
        (λ row. IfSome row (λ r. IsTrue (is_notice_in (pos 0, notice_in_in r)))) }
{
    let Some(row) = found? else {
        return Ok(Arrival::Absent);
    };
    Ok(arrival(&texts::notice(alloc, &row.body)?, notice))
}
