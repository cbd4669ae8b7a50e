//! Changes of the tables, one statement each; a device or a lot of another carrier than electricity
//! takes two.

ghost use Rattle.std.specs.Prelude.{◌≡◌, ◌⊎◌, ⊤, ◌+◌, ◌<◌, ◌≤◌, None, IfErr, IfOk, IfSome, OnOk};
ghost use Rattle.std.specs.Prelude.{All, get_or, length, take};
ghost use Rattle.sqlite.specs.State.{HasCleanDisk, IsLive, KeepsCommit, Survives};
ghost use Rattle.sqlite.specs.Held.{state};
ghost use Rattle.goo_tables_rows.specs.Rows.{Tables, piece_row};
ghost use Rattle.goo_tables_rows.specs.Refused.{ChangeFailsBy, IsFault, IsSmall, IsTooBig};
ghost use Rattle.goo_tables_rows.specs.Refused.{IsTooBigOrFull};
ghost use Rattle.goo_tables_accounts.specs.Changes.{with_piece, without_piece, PieceFits};
ghost use Rattle.goo_tables_rows.specs.Lives.{IsAlive, LeavesLive, StaysAlive};
ghost use Rattle.goo_tables_rows.specs.Stands.{Sees};
ghost use Rattle.goo_store_changes.specs.Changes.{made, made_all, ChangeFits, IsFor, AreFor};
ghost use Rattle.goo_store_changes.specs.Changes.{IsFree, AreFree, HasRoom, HaveRoom};

use crate::once::{keep_counters, keep_notice};
use goo_tables::cancellation::insert_cancellation;
use goo_tables::correction::insert_correction;
use goo_tables::declaration::insert_declaration;
use goo_tables::device::{insert_device, set_progress};
use goo_tables::lot::insert_lot;
use goo_tables::meta::set_today;
use goo_tables::notice_out::insert_notice_out;
use goo_tables::peer::insert_peer;
use goo_tables::receipt::insert_receipt;
use goo_tables::withdrawal::insert_withdrawal;
use goo_tables_accounts::account::{close_account, insert_account};
use goo_tables_accounts::counters::CountersRow;
use goo_tables_accounts::holder::insert_holder;
use goo_tables_accounts::piece::{delete_piece, insert_piece, insert_two_pieces, set_piece};
use goo_tables_rows::account::AccountRow;
use goo_tables_rows::cancellation::CancellationRow;
use goo_tables_rows::correction::CorrectionRow;
use goo_tables_rows::declaration::DeclarationRow;
use goo_tables_rows::device::DeviceRow;
use goo_tables_rows::holder::HolderRow;
use goo_tables_rows::lot::LotRow;
use goo_tables_rows::notice_in::NoticeInRow;
use goo_tables_rows::notice_out::NoticeOutRow;
use goo_tables_rows::peer::PeerRow;
use goo_tables_rows::piece::PieceRow;
use goo_tables_rows::receipt::ReceiptRow;
use goo_tables_rows::withdrawal::WithdrawalRow;
use sqlite::{Alter, Error, Transaction};

/// A change of the tables.
#[derive(Drop)]
pub enum TableChange {
    AddHolder(HolderRow),
    AddAccount(AccountRow),
    /// The account with this number.
    CloseAccount(u32),
    AddDevice(DeviceRow),
    AddDeclaration(DeclarationRow),
    /// The device with this number: the last day of its last accepted period, and its carry in Wh.
    SetProgress {
        device: String,
        last_day: String,
        carry: u64,
    },
    AddLot(LotRow),
    /// The piece that begins with this number.
    DeletePiece(u64),
    InsertPiece(PieceRow),
    AddPeer(PeerRow),
    AddReceipt(ReceiptRow),
    AddCancellation(CancellationRow),
    AddWithdrawal(WithdrawalRow),
    AddNoticeOut(NoticeOutRow),
    AddNoticeIn(NoticeInRow),
    AddCorrection(CorrectionRow),
    SetToday(String),
    SetCounters(CountersRow),
}

/// Makes a change.
fn make<S: Alter>(tx: &mut Transaction<'_, S>, change: &TableChange) -> Result<usize, Error>
    requires { ChangeFits change.now }
    ensures same_reference { tx.new.conn.ghost_name ≡ tx.old.conn.ghost_name }
    ensures changed { HasCleanDisk (state S.Store tx.new.conn.now) → (t : Tables)
        → Sees (state S.Store tx.old.conn.now) t → IsFor t change.now
        → OnOk result (Sees (state S.Store tx.new.conn.now) (made t change.now)) }
    ensures refused { ChangeFailsBy IsTooBigOrFull
        (λ t. HasRoom t change.now) (state S.Store tx.old.conn.now)
        (state S.Store tx.new.conn.now) result (λ t. IsFree t change.now) }
    ensures live { LeavesLive (state S.Store tx.old.conn.now)
        (state S.Store tx.new.conn.now) result }
    ensures uncommitted { HasCleanDisk (state S.Store tx.new.conn.now)
        → KeepsCommit (state S.Store tx.old.conn.now) (state S.Store tx.new.conn.now) }
    ensures survives { Survives (state S.Store tx.old.conn.now) (state S.Store tx.new.conn.now)
        (λ _. ⊥) }
{
    match change {
        TableChange::AddHolder(row) => insert_holder(tx, row),
        TableChange::AddAccount(row) => insert_account(tx, row),
        TableChange::CloseAccount(number) => close_account(tx, *number),
        TableChange::AddDevice(row) => insert_device(tx, row),
        TableChange::AddDeclaration(row) => insert_declaration(tx, row),
        TableChange::SetProgress {
            device,
            last_day,
            carry,
        } => set_progress(tx, device, last_day, *carry),
        TableChange::AddLot(row) => insert_lot(tx, row),
        TableChange::DeletePiece(first) => delete_piece(tx, *first),
        TableChange::InsertPiece(row) => insert_piece(tx, row),
        TableChange::AddPeer(row) => insert_peer(tx, row),
        TableChange::AddReceipt(row) => insert_receipt(tx, row),
        TableChange::AddCancellation(row) => insert_cancellation(tx, row),
        TableChange::AddWithdrawal(row) => insert_withdrawal(tx, row),
        TableChange::AddNoticeOut(row) => insert_notice_out(tx, row),
        TableChange::AddNoticeIn(row) => keep_notice(tx, row),
        TableChange::AddCorrection(row) => insert_correction(tx, row),
        TableChange::SetToday(day) => set_today(tx, day),
        TableChange::SetCounters(counters) => keep_counters(tx, counters),
    }
}

/// Takes out the piece that begins with a row's first number, if there is one, and adds the row: by
/// one statement where there is one.
fn replace_piece<S: Alter>(tx: &mut Transaction<'_, S>, row: &PieceRow) -> Result<(), Error>
    requires { PieceFits row.now }
    ensures same_reference { tx.new.conn.ghost_name ≡ tx.old.conn.ghost_name }
    ensures changed { HasCleanDisk (state S.Store tx.new.conn.now) → (t : Tables)
        → Sees (state S.Store tx.old.conn.now) t
        → OnOk result
        (Sees (state S.Store tx.new.conn.now)
        (with_piece (without_piece t row.now.first) row.now)) }
    ensures refused { ChangeFailsBy IsTooBig
        (λ _. IsSmall (piece_row row.now)) (state S.Store tx.old.conn.now)
        (state S.Store tx.new.conn.now) result (λ _. ⊤) }
    ensures live { HasCleanDisk (state S.Store tx.new.conn.now)
        → IsLive (state S.Store tx.old.conn.now) → (t : Tables)
        → Sees (state S.Store tx.old.conn.now) t
        → OnOk result (IsAlive (state S.Store tx.new.conn.now)) }
    ensures uncommitted { HasCleanDisk (state S.Store tx.new.conn.now)
        → KeepsCommit (state S.Store tx.old.conn.now) (state S.Store tx.new.conn.now) }
    ensures survives { Survives (state S.Store tx.old.conn.now) (state S.Store tx.new.conn.now)
        (λ _. ⊥) }
{
    if set_piece(tx, row)? == 0 {
        insert_piece(tx, row)?;
    }
    Ok(())
}

/// The row that comes in the place of another one: the change at this place takes out the piece
/// that begins as it does, and the next one adds it.
fn replacing(changes: &[TableChange], at: usize) -> Option<PieceRow>
    requires { at < length changes.now }
    ensures { IfSome result
        (λ row. (d : TableChange) → (get_or changes.now at d ≡ TableChange.DeletePiece row.first)
        × (at + 1 < length changes.now)
        × (get_or changes.now (at + 1) d ≡ TableChange.InsertPiece row)) }
{
    let TableChange::DeletePiece(first) = &changes[at] else {
        return None;
    };
    match changes.get(at + 1) {
        Some(TableChange::InsertPiece(row)) if row.first == *first => Some(*row),
        _ => None,
    }
}

/// The rows of two pieces that come one after the other: the changes at this place and the next one
/// add them.
fn inserted_pair(changes: &[TableChange], at: usize) -> Option<(PieceRow, PieceRow)>
    requires { at < length changes.now }
    ensures { IfSome result
        (λ rows. (d : TableChange) → (get_or changes.now at d ≡ TableChange.InsertPiece rows.0)
        × (at + 1 < length changes.now)
        × (get_or changes.now (at + 1) d ≡ TableChange.InsertPiece rows.1)) }
{
    let TableChange::InsertPiece(first) = &changes[at] else {
        return None;
    };
    match changes.get(at + 1) {
        Some(TableChange::InsertPiece(second)) => Some((*first, *second)),
        _ => None,
    }
}

/// Makes the change at a place, and the next one too where the two are one statement; how many
/// these are.
///
/// One UPDATE in place of a DELETE and an INSERT saves a statement. It leaves the account's index
/// alone where a row is only cut. One INSERT of two pieces saves a statement too.
fn make_at<S: Alter>(
    tx: &mut Transaction<'_, S>,
    changes: &[TableChange],
    at: usize,
) -> Result<usize, Error>
    requires here { at < length changes.now }
    requires fits { All ChangeFits changes.now }
    ensures same_reference { tx.new.conn.ghost_name ≡ tx.old.conn.ghost_name }
    ensures step { IfOk result (λ n. (0 < n) × (at + n ≤ length changes.now)) }
    ensures changed { HasCleanDisk (state S.Store tx.new.conn.now) → (t : Tables)
        → Sees (state S.Store tx.old.conn.now) (made_all t (take at changes.now))
        → AreFor t changes.now
        → IfOk result
        (λ n. Sees (state S.Store tx.new.conn.now) (made_all t (take (at + n) changes.now))) }
    ensures refused { HasCleanDisk (state S.Store tx.new.conn.now)
        → IsLive (state S.Store tx.old.conn.now) → (state S.Store tx.old.conn.now).step_limit ≡ None
        → (t : Tables)
        → Sees (state S.Store tx.old.conn.now) (made_all t (take at changes.now))
        → AreFor t changes.now × AreFree t changes.now
        → IfErr result
        (λ e. IsFault (state S.Store tx.old.conn.now) (state S.Store tx.new.conn.now) e
        ⊎ (IsTooBigOrFull e × (HaveRoom t changes.now → ⊥))) }
    ensures live { HasCleanDisk (state S.Store tx.new.conn.now)
        → IsLive (state S.Store tx.old.conn.now) → (t : Tables)
        → Sees (state S.Store tx.old.conn.now) t
        → OnOk result (IsAlive (state S.Store tx.new.conn.now)) }
    ensures uncommitted { HasCleanDisk (state S.Store tx.new.conn.now)
        → KeepsCommit (state S.Store tx.old.conn.now) (state S.Store tx.new.conn.now) }
    ensures survives { Survives (state S.Store tx.old.conn.now) (state S.Store tx.new.conn.now)
        (λ _. ⊥) }
{
    if let Some(row) = replacing(changes, at) {
        replace_piece(tx, &row)?;
        return Ok(2);
    }
    match inserted_pair(changes, at) {
        Some((first, second)) => {
            insert_two_pieces(tx, &first, &second)?;
            Ok(2)
        }
        None => {
            make(tx, &changes[at])?;
            Ok(1)
        }
    }
}

/// Makes the changes in turn.
pub(crate) fn make_all<S: Alter>(
    tx: &mut Transaction<'_, S>,
    changes: &[TableChange],
) -> Result<(), Error>
    requires { All ChangeFits changes.now }
    ensures same_reference { tx.new.conn.ghost_name ≡ tx.old.conn.ghost_name }
    ensures changed { HasCleanDisk (state S.Store tx.new.conn.now) → (t : Tables)
        → Sees (state S.Store tx.old.conn.now) t → AreFor t changes.now
        → OnOk result (Sees (state S.Store tx.new.conn.now) (made_all t changes.now)) }
    ensures refused { ChangeFailsBy IsTooBigOrFull
        (λ t. HaveRoom t changes.now) (state S.Store tx.old.conn.now)
        (state S.Store tx.new.conn.now) result (λ t. AreFor t changes.now × AreFree t changes.now) }
    ensures live { HasCleanDisk (state S.Store tx.new.conn.now)
        → IsLive (state S.Store tx.old.conn.now) → (t : Tables)
        → Sees (state S.Store tx.old.conn.now) t → AreFor t changes.now
        → OnOk result (StaysAlive (state S.Store tx.old.conn.now) (state S.Store tx.new.conn.now)) }
    ensures uncommitted { HasCleanDisk (state S.Store tx.new.conn.now)
        → KeepsCommit (state S.Store tx.old.conn.now) (state S.Store tx.new.conn.now) }
    ensures survives { Survives (state S.Store tx.old.conn.now) (state S.Store tx.new.conn.now)
        (λ _. ⊥) }
{
    let mut done = 0;
    while done < changes.len() {
        done += make_at(tx, changes, done)?;
    }
    Ok(())
}
