//! The receipts that accepted requests leave.

ghost use Rattle.std.specs.Prelude.{◌≡◌, ◌<◌, ◌≤◌, ◌^◌, true, nat_le, nat_lt, pos, Some, is_ok};
ghost use Rattle.std.specs.Prelude.{IfOk, IsOk, IsOkUnless};
ghost use Rattle.goo_types.specs.declared.reply.Reply.TheVariants.{Corrected};
ghost use Rattle.goo_tables_rows.specs.Rows.{receipt_in};
ghost use Rattle.goo_tables_accounts.specs.Changes.{ReceiptFits};
ghost use Rattle.goo_store_plans.specs.Acted.{HasKeptNumbers, IsReceiptOf};
ghost use Rattle.goo_store_values.specs.declared.statement_fault.StatementFault.TheVariants.{Memory};
ghost use Rattle.goo_spec_tables.specs.Readable.{is_reply};
ghost use Rattle.goo_spec_tables.specs.Replies.{reply_of};

use crate::new_rows::act_or_zero;
use goo_notice::command_text;
use goo_store_values::statement_fault::StatementFault;
use goo_tables_rows::receipt::ReceiptRow;
use goo_types::act_no::ActNo;
use goo_types::reply::Reply;
use goo_types::request::Request;
use std::alloc::Global;

/// A reply as a receipt keeps it.
#[derive(Clone, Copy)]
struct ReplyColumns {
    kind: u32,
    n1: u64,
    n2: u64,
    n3: u64,
}

/// A number that a column keeps.
fn kept(number: u64) -> Result<u64, StatementFault>
    ensures value { IfOk result (λ n. n ≡ number) }
    ensures fits { IfOk result (λ n. n < 2 ^ 63) }
    ensures accepts { is_ok result ≡ nat_lt number (2 ^ 63) }
{
    if number < 1 << 63 {
        Ok(number)
    } else {
        Err(StatementFault::Refused)
    }
}

/// What a device carries, which is less than a certificate.
fn kept_carry(carry: u64) -> Result<u64, StatementFault>
    ensures value { IfOk result (λ n. n ≡ carry) }
    ensures fits { IfOk result (λ n. n ≤ 999_999) }
    ensures accepts { is_ok result ≡ nat_le carry 999_999 }
{
    if carry > 999_999 {
        return Err(StatementFault::Refused);
    }
    Ok(carry)
}

/// A reply with two numbers at most.
fn columns(kind: u32, n1: u64, n2: u64) -> ReplyColumns
    ensures { result ≡ record { kind = kind; n1 = n1; n2 = n2; n3 = 0 } }
{
    ReplyColumns {
        kind,
        n1,
        n2,
        n3: 0,
    }
}

/// The columns of a correction's reply.
fn corrected_columns(
    carry: u64,
    count: u64,
    withdrawal: Option<ActNo>,
) -> Result<ReplyColumns, StatementFault>
    ensures states { IfOk result
        (λ c. reply_of c.kind c.n1 c.n2 c.n3 ≡ Corrected carry count withdrawal) }
    ensures reads { IfOk result (λ c. is_reply c.kind c.n1 c.n2 c.n3 ≡ true) }
    ensures fits { IfOk result (λ c. (c.n1 < 2 ^ 63) × (c.n2 < 2 ^ 63) × (c.n3 < 2 ^ 63)) }
    ensures accepts { HasKeptNumbers (Corrected carry count withdrawal) → IsOk result }
{
    Ok(ReplyColumns {
        kind: 10,
        n1: kept_carry(carry)?,
        n2: kept(count)?,
        n3: u64::from(act_or_zero(withdrawal)),
    })
}

/// The kind of a reply, and its numbers.
fn reply_columns(reply: Reply) -> Result<ReplyColumns, StatementFault>
    ensures states { IfOk result (λ c. reply_of c.kind c.n1 c.n2 c.n3 ≡ reply) }
    ensures reads { IfOk result (λ c. is_reply c.kind c.n1 c.n2 c.n3 ≡ true) }
    ensures fits { IfOk result (λ c. (c.n1 < 2 ^ 63) × (c.n2 < 2 ^ 63) × (c.n3 < 2 ^ 63)) }
    ensures accepts { HasKeptNumbers reply → IsOk result }
{
    match reply {
        Reply::Done => Ok(columns(1, 0, 0)),
        Reply::Account { account } => Ok(columns(2, u64::from(account.get()), 0)),
        Reply::Declared { carry, issued } => {
            let (first, last) = match issued {
                Some(range) => (range.first().get(), range.last().get()),
                None => (0, 0),
            };
            Ok(ReplyColumns {
                kind: 3,
                n1: kept_carry(carry)?,
                n2: first,
                n3: last,
            })
        }
        Reply::Corrected {
            carry,
            count,
            withdrawal,
        } => corrected_columns(carry, count, withdrawal),
        Reply::Moved { count } => Ok(columns(4, kept(count)?, 0)),
        Reply::Cancelled {
            cancellation,
            count,
        } => Ok(columns(5, u64::from(cancellation.get()), kept(count)?)),
        Reply::Withdrawn { withdrawal, count } => {
            Ok(columns(6, u64::from(withdrawal.get()), kept(count)?))
        }
        Reply::Advanced { expired } => Ok(columns(7, kept(expired)?, 0)),
        Reply::Exported { notice, count } => Ok(columns(8, u64::from(notice.get()), kept(count)?)),
        Reply::Imported { count } => Ok(columns(9, kept(count)?, 0)),
    }
}

/// The receipt of a request that is accepted with this reply.
pub fn receipt_row(
    alloc: Global,
    request: &Request,
    reply: Reply,
) -> Result<ReceiptRow, StatementFault>
    ensures receipt { IfOk result (λ row. IsReceiptOf request.now reply (receipt_in row)) }
    ensures fits { IfOk result ReceiptFits }
    ensures memory { HasKeptNumbers reply → IsOkUnless result Memory }
{
    let columns = reply_columns(reply)?;
    let Ok(command) = command_text(alloc, &request.command) else {
        return Err(StatementFault::Memory);
    };
    Ok(ReceiptRow {
        caller: String::from_str(alloc, request.caller.text())?,
        key: String::from_str(alloc, request.key.text())?,
        command,
        kind: columns.kind,
        n1: columns.n1,
        n2: columns.n2,
        n3: columns.n3,
    })
}
