//! Accounts, as they are found.

ghost use Rattle.std.specs.Prelude.{◌≡◌, IfSome, IsTrue, option_map};
ghost use Rattle.goo_tables_rows.specs.Rows.{account_in};
ghost use Rattle.goo_spec_tables.specs.States.{account_of};
ghost use Rattle.goo_spec_tables.specs.Readable.{is_account};
ghost use Rattle.goo_store_values.specs.Passing.{Accepts, Passes};

use goo_core_shelf::account::Account;
use goo_store_values::statement_fault::StatementFault;
use goo_store_values::texts;
use goo_tables_rows::account::AccountRow;
use sqlite::Error;

/// The account in its row.
pub(crate) fn read_account(
    found: Result<Option<AccountRow>, Error>,
) -> Result<Option<Account>, StatementFault>
    ensures value { Passes found result
        (λ row account. account ≡ option_map account_of (option_map account_in row)) }
    ensures accepts { Accepts found result
        (λ row. IfSome row (λ r. IsTrue (is_account (account_in r)))) }
{
    let Some(row) = found? else {
        return Ok(None);
    };
    let holder = texts::holder_code(&row.holder)?;
    Ok(Some(Account::new(holder, row.closed == 1)))
}
