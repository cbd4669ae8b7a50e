//! Receipts, as they are found.

ghost use Rattle.std.specs.Prelude.{◌≡◌, ◌==◌, ◌&&◌, ◌||◌, pos, is_ok, IfOk, IfSome, IsOk};
ghost use Rattle.std.specs.Prelude.{IsOkUnless, IsTrue, option_map};
ghost use Rattle.goo_notice.specs.Law.{command_in};
ghost use Rattle.goo_spec.specs.Step.{is_kept};
ghost use Rattle.goo_tables_rows.specs.Rows.{receipt_in};
ghost use Rattle.goo_core_shelf.specs.Shelf.{receipt_of as seen_from};
ghost use Rattle.goo_spec_tables.specs.Replies.{issued_of, reply_of, receipt_of};
ghost use Rattle.goo_spec_tables.specs.Readable.{are_ends, is_receipt, is_reply};
ghost use Rattle.goo_store_values.specs.Passing.{Accepts, Passes};
ghost use Rattle.goo_store_values.specs.declared.statement_fault.StatementFault.TheVariants.{Memory};

use goo_core_shelf::found::Receipt;
use goo_notice::{command_text, one_text};
use goo_store_values::numbers;
use goo_store_values::statement_fault::StatementFault;
use goo_tables_rows::receipt::ReceiptRow;
use goo_types::command::Command;
use goo_types::range::Range;
use goo_types::reply::Reply;
use sqlite::Error;
use std::alloc::Global;

/// The numbers issued, if any were.
fn read_issued(first: u64, last: u64) -> Result<Option<Range>, StatementFault>
    ensures value { IfOk result (λ issued. issued ≡ issued_of first last) }
    ensures accepts { is_ok result ≡ (((first == 0) && (last == 0)) || are_ends first last) }
{
    if first == 0 && last == 0 {
        return Ok(None);
    }
    Ok(Some(numbers::range(first, last)?))
}

/// The reply of a kind with its numbers.
fn read_reply(kind: u32, n1: u64, n2: u64, n3: u64) -> Result<Reply, StatementFault>
    ensures value { IfOk result (λ reply. reply ≡ reply_of kind n1 n2 n3) }
    ensures accepts { IsTrue (is_reply kind n1 n2 n3) → IsOk result }
{
    match kind {
        1 => Ok(Reply::Done),
        2 => Ok(Reply::Account {
            account: numbers::account_no(numbers::small(n1)?)?,
        }),
        3 => Ok(Reply::Declared {
            carry: n1,
            issued: read_issued(n2, n3)?,
        }),
        4 => Ok(Reply::Moved { count: n1 }),
        5 => Ok(Reply::Cancelled {
            cancellation: numbers::act_no(numbers::small(n1)?)?,
            count: n2,
        }),
        6 => Ok(Reply::Withdrawn {
            withdrawal: numbers::act_no(numbers::small(n1)?)?,
            count: n2,
        }),
        7 => Ok(Reply::Advanced { expired: n1 }),
        8 => Ok(Reply::Exported {
            notice: numbers::act_no(numbers::small(n1)?)?,
            count: n2,
        }),
        9 => Ok(Reply::Imported { count: n1 }),
        10 => Ok(Reply::Corrected {
            carry: n1,
            count: n2,
            withdrawal: numbers::act_or_none(numbers::small(n3)?)?,
        }),
        _ => Err(StatementFault::Refused),
    }
}

/// Whether bytes are the text of a command.
fn is_text_of(alloc: Global, bytes: &[u8], command: &Command) -> Result<bool, StatementFault>
    ensures value { IfOk result (λ same. same ≡ is_kept (command_in bytes.now) command.now) }
    ensures memory { IsOkUnless result Memory }
{
    one_text();
    match command_text(alloc, command) {
        Ok(text) => Ok(text.as_slice() == bytes),
        Err(_) => Err(StatementFault::Memory),
    }
}

/// What the row keeps for a key, seen from a command.
pub(crate) fn read_receipt(
    alloc: Global,
    found: Result<Option<ReceiptRow>, Error>,
    command: &Command,
) -> Result<Receipt, StatementFault>
    ensures value { Passes found result
        (λ row receipt. receipt
        ≡ seen_from (option_map receipt_of (option_map receipt_in row)) command.now) }
    ensures accepts { Accepts found result
        (λ row. IfSome row (λ r. IsTrue (is_receipt (pos 0, receipt_in r)))) }
{
    let Some(row) = found? else {
        return Ok(Receipt::Absent);
    };
    if is_text_of(alloc, &row.command, command)? {
        Ok(Receipt::Same(read_reply(row.kind, row.n1, row.n2, row.n3)?))
    } else {
        Ok(Receipt::Other)
    }
}
