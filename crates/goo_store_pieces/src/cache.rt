//! What look-ups found that few commits change.

ghost use Rattle.std.specs.Prelude.{◌≡◌, false, is_ok, IfOk, IfSome, IsTrue, OnErr, OnOk, Some};
ghost use Rattle.std.specs.FinMap.{get};
ghost use Rattle.goo_spec.specs.State.{State};
ghost use Rattle.goo_spec_tables.specs.States.{state_of};
ghost use Rattle.goo_tables_rows.specs.Rows.{Tables};
ghost use Rattle.goo_store_changes.specs.Changes.{made, made_all};
ghost use Rattle.goo_store_pieces.specs.Ahead.{IsAhead};
ghost use Rattle.goo_store_pieces.specs.Caching.{AreAccountsOf, AreLeft, IsCacheOf};

use crate::ahead::{Ahead, RowAhead, ahead_among};
use crate::room::make_room;
use goo_core_shelf::account::Account;
use goo_store_changes::table_change::TableChange;
use goo_types::account_no::AccountNo;
use goo_types::fault::Fault;
use goo_types::number::Number;
use sqlite::Error;
use std::alloc::Global;

/// How many accounts are kept at most, so that a search of them takes less than a statement.
const MOST_ACCOUNTS: usize = 256;

/// An account that is there, beside its number.
#[derive(Clone, Copy)]
pub struct NumberedAccount {
    /// Its number.
    pub number: AccountNo,
    /// The account.
    pub account: Account,
}

/// What look-ups found that few commits change, and that is kept over all others. All of it is so
/// in the tables; what isn't here is looked up. A look-up that makes no statement can't tell
/// whether the database still answers, so what is kept is told only while the last statement was
/// answered.
#[derive(Drop)]
pub struct Cache {
    /// Whether the last statement was answered, so that the database is open.
    pub answered: bool,
    /// Some accounts that were found.
    pub accounts: Vec<NumberedAccount>,
    /// Rows of an account that were read ahead, until the next commit.
    pub ahead: Vec<RowAhead>,
}

/// The account that is kept under a number, if one is.
fn account_among(accounts: &[NumberedAccount], number: AccountNo) -> Option<Account>
    ensures { IfSome result
        (λ account. (s : State) → AreAccountsOf s accounts.now
        → get s.accounts number ≡ Some account) }
{
    for kept in accounts {
        if kept.number == number {
            return Some(kept.account);
        }
    }
    None
}

/// Keeps the account that was looked up by its number, if it was found; where memory for it is
/// refused, it isn't kept.
pub fn keep_account(
    accounts: &mut Vec<NumberedAccount>,
    number: AccountNo,
    read: &Result<Option<Account>, Fault>,
)
    ensures kept { (s : State) → IfOk read.now (λ found. found ≡ get s.accounts number)
        → AreAccountsOf s accounts.old.items → AreAccountsOf s accounts.new.items }
{
    let Ok(Some(account)) = read else {
        return;
    };
    make_room(accounts, MOST_ACCOUNTS);
    let account = *account;
    let _kept = accounts.extend_from_slice(&[NumberedAccount { number, account }]);
}

/// Whether a change leaves the accounts.
fn leaves(change: &TableChange) -> bool
    ensures { IsTrue result → (t : Tables) → AreLeft (state_of t) (state_of (made t change.now)) }
{
    match change {
        TableChange::AddAccount(_) | TableChange::CloseAccount(_) => false,
        _ => true,
    }
}

/// Whether changes leave the accounts.
fn all_leave(changes: &[TableChange]) -> bool
    ensures { IsTrue result → (t : Tables)
        → AreLeft (state_of t) (state_of (made_all t changes.now)) }
{
    for change in changes {
        if !leaves(change) {
            return false;
        }
    }
    true
}

impl Cache {
    /// Nothing is kept.
    pub fn none(alloc: Global) -> Cache
        ensures answered { result.answered ≡ false }
        ensures cache { (t : Tables) → IsCacheOf result t }
    {
        Cache {
            answered: false,
            accounts: Vec::new(alloc),
            ahead: Vec::new(alloc),
        }
    }

    /// The account under a number, where it is kept and may be told.
    pub fn kept_account(&self, number: AccountNo) -> Option<Account>
        ensures answered { IfSome result (λ account. IsTrue self.now.answered) }
        ensures kept { IfSome result
            (λ account. (t : Tables) → IsCacheOf self.now t
            → get (state_of t).accounts number ≡ Some account) }
    {
        if self.answered {
            account_among(&self.accounts, number)
        } else {
            None
        }
    }

    /// The next row of an account after a number, where it was read ahead and may be told.
    pub fn row_ahead(&self, account: AccountNo, after: Number) -> Option<Option<Ahead>>
        ensures answered { IfSome result (λ row. IsTrue self.now.answered) }
        ensures kept { IfSome result
            (λ row. (t : Tables) → IsCacheOf self.now t → IsAhead t account after row) }
    {
        if self.answered {
            ahead_among(&self.ahead, account, after.get())
        } else {
            None
        }
    }

    /// Keeps what is so still once changes were made, or nothing where the commit failed.
    pub fn after_commit(&mut self, made: &Result<(), Error>, changes: &[TableChange])
        ensures answered { self.new.answered ≡ is_ok made.now }
        ensures made { OnOk made.now ((t : Tables) → IsCacheOf self.old t
            → IsCacheOf self.new (made_all t changes.now)) }
        ensures failed { OnErr made.now ((t : Tables) → IsCacheOf self.new t) }
    {
        self.answered = made.is_ok();
        self.ahead.clear();
        if self.answered && all_leave(changes) {
            return;
        }
        self.accounts.clear();
    }
}
