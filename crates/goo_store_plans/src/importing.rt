//! What an accepted import changes in the tables, beside the certificates.

ghost use Rattle.std.specs.Prelude.{◌≡◌, false, true, pos, All, IfOk, IsOkUnless, length};
ghost use Rattle.sqlite.specs.Held.{state};
ghost use Rattle.goo_types.specs.declared.reply.Reply.{Reply};
ghost use Rattle.goo_types.specs.declared.request.Request.{Request};
ghost use Rattle.goo_tables_rows.specs.Rows.{lot_key, notice_in_in};
ghost use Rattle.goo_spec_tables.specs.Readable.{is_notice_in};
ghost use Rattle.goo_spec_tables.specs.States.{known_arrival};
ghost use Rattle.goo_store_plans.specs.AtHand.{HasRoom};
ghost use Rattle.goo_store_plans.specs.Carrying.{CarriesOut, IsAccepted};
ghost use Rattle.goo_store_changes.specs.Changes.{ChangeFits};
ghost use Rattle.goo_store_plans.specs.Found.{AreLots, IsNext};
ghost use Rattle.goo_store_plans.specs.LookingUp.{LooksUp};
ghost use Rattle.goo_store_plans.specs.StoreFaults.{BlamesDisk};
ghost use Rattle.goo_store_values.specs.declared.statement_fault.StatementFault.TheVariants.{Memory};

use crate::gathered_lots::{Gathered, gather_lots};
use crate::known_rows::KnownLots;
use goo_notice::write;
use goo_store_changes::table_change::TableChange;
use goo_store_values::statement_fault::StatementFault;
use goo_tables_rows::notice_in::NoticeInRow;
use goo_types::command::{Command, Import};
use goo_types::notice::Notice;
use sqlite::{Alter, Connection};
use std::alloc::Global;

/// The row of a notice that came in.
fn notice_row(alloc: Global, notice: &Notice) -> Result<NoticeInRow, StatementFault>
    ensures states { IfOk result
        (λ row. known_arrival (pos 0, notice_in_in row)
        ≡ ((notice.now.sender, notice.now.number), notice.now)) }
    ensures reads { IfOk result (λ row. is_notice_in (pos 0, notice_in_in row) ≡ true) }
    ensures memory { IsOkUnless result Memory }
{
    let Ok(body) = write(alloc, notice) else {
        return Err(StatementFault::Memory);
    };
    Ok(NoticeInRow {
        sender: u32::from(notice.sender().get()),
        number: notice.number().get(),
        body,
    })
}

/// The lots of the notice's parts that aren't known yet, and the notice. Of the lots that are kept
/// it is known whether they are in the table; `next_lot` is the number that the first new one gets,
/// where it is known.
pub fn import_changes<S: Alter>(
    alloc: Global,
    conn: &mut Connection<S>,
    next_lot: Option<u64>,
    kept: &KnownLots,
    import: &Import,
) -> Result<Gathered, StatementFault>
    ensures looks { LooksUp (state S.Store conn.old) (state S.Store conn.new) result
        (λ t gathered. IsNext next_lot lot_key t.lots → AreLots t.lots kept.now
        → (q : Request) (reply : Reply) → q.command ≡ Command.Import import.now
        → IsAccepted t q reply → CarriesOut t q.command gathered) }
    ensures blames { BlamesDisk (state S.Store conn.old) (state S.Store conn.new) result
        (λ t. IsNext next_lot lot_key t.lots
        × HasRoom (length import.now.notice.parts) lot_key t.lots) }
    ensures fits { IfOk result (λ gathered. All ChangeFits gathered.changes.items) }
    ensures outside { conn.old.in_transaction ≡ false → conn.new.in_transaction ≡ false }
{
    let mut gathered = gather_lots(alloc, conn, next_lot, kept, import.notice.parts())?;
    let row = notice_row(alloc, &import.notice)?;
    gathered.changes.push(TableChange::AddNoticeIn(row))?;
    Ok(gathered)
}
