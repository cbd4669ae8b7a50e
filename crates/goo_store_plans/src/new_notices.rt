//! The rows of notices that are sent.

ghost use Rattle.std.specs.Prelude.{◌≡◌, true, IfOk, IsOkUnless};
ghost use Rattle.goo_tables_rows.specs.Rows.{notice_out_in};
ghost use Rattle.goo_spec_tables.specs.Readable.{is_notice_out};
ghost use Rattle.goo_spec_tables.specs.States.{known_sent};
ghost use Rattle.goo_store_values.specs.declared.statement_fault.StatementFault.TheVariants.{Memory};

use goo_notice::write;
use goo_store_values::statement_fault::StatementFault;
use goo_tables_rows::notice_out::NoticeOutRow;
use goo_types::account_no::AccountNo;
use goo_types::act_no::ActNo;
use goo_types::notice::Notice;
use std::alloc::Global;

/// The row of a notice that is sent under a number, with the account that gave the certificates.
pub fn notice_out_row(
    alloc: Global,
    number: ActNo,
    giver: AccountNo,
    notice: &Notice,
) -> Result<NoticeOutRow, StatementFault>
    ensures states { IfOk result
        (λ row. known_sent (notice_out_in row)
        ≡ (number, record { account = giver; notice = notice.now })) }
    ensures reads { IfOk result
        (λ row. notice.now.number ≡ number
        → is_notice_out notice.now.sender (notice_out_in row) ≡ true) }
    ensures memory { IsOkUnless result Memory }
{
    let Ok(body) = write(alloc, notice) else {
        return Err(StatementFault::Memory);
    };
    Ok(NoticeOutRow {
        number: number.get(),
        account: giver.get(),
        body,
    })
}
