//! The two changes that see to it that a thing happens once: a notice that came in is kept, and so
//! are the numbers given next. Each is one statement, in a function of its own.

ghost use Rattle.std.specs.Prelude.{◌≡◌, ⊤, None, ◌&&◌, pos, find, OnOk};
ghost use Rattle.std.specs.Ordering.{int_eq};
ghost use Rattle.sqlite.specs.State.{HasCleanDisk, KeepsCommit, Survives};
ghost use Rattle.sqlite.specs.Held.{state};
ghost use Rattle.goo_tables_rows.specs.Rows.{Tables, notice_in_in, notice_in_row, meta_row};
ghost use Rattle.goo_tables_rows.specs.Refused.{ChangeFailsBy, IsTooBig, IsTooBigOrFull, IsSmall};
ghost use Rattle.goo_tables_rows.specs.Refused.{HasRoomFor};
ghost use Rattle.goo_tables_rows.specs.Lives.{LeavesLive};
ghost use Rattle.goo_tables_rows.specs.Stands.{Sees};
ghost use Rattle.goo_tables_accounts.specs.Changes.{with_notice_in, with_counters, CountersFit};

use goo_tables::meta::set_counters;
use goo_tables::notice_in::insert_notice_in;
use goo_tables_accounts::counters::CountersRow;
use goo_tables_rows::notice_in::NoticeInRow;
use sqlite::{Alter, Error, Transaction};

/// Keeps a notice that came in, so that it isn't accepted twice.
pub(crate) fn keep_notice<S: Alter>(
    tx: &mut Transaction<'_, S>,
    notice: &NoticeInRow,
) -> Result<usize, Error>
    ensures same_reference { tx.new.conn.ghost_name ≡ tx.old.conn.ghost_name }
    ensures changed { HasCleanDisk (state S.Store tx.new.conn.now) → (t : Tables)
        → Sees (state S.Store tx.old.conn.now) t
        → OnOk result
        (Sees (state S.Store tx.new.conn.now) (with_notice_in t (notice_in_in notice.now))) }
    ensures refused { ChangeFailsBy IsTooBigOrFull
        (λ t. HasRoomFor notice_in_row t.notices_in (notice_in_in notice.now))
        (state S.Store tx.old.conn.now) (state S.Store tx.new.conn.now) result
        (λ t. find
        (λ k. int_eq (pos k.1.sender) (pos notice.now.sender) && int_eq (pos k.1.number)
        (pos notice.now.number)) t.notices_in ≡ None) }
    ensures live { LeavesLive (state S.Store tx.old.conn.now)
        (state S.Store tx.new.conn.now) result }
    ensures uncommitted { HasCleanDisk (state S.Store tx.new.conn.now)
        → KeepsCommit (state S.Store tx.old.conn.now) (state S.Store tx.new.conn.now) }
    ensures survives { Survives (state S.Store tx.old.conn.now) (state S.Store tx.new.conn.now)
        (λ _. ⊥) }
{
    insert_notice_in(tx, notice)
}

/// Keeps the numbers that are given next, so that none is given twice.
pub(crate) fn keep_counters<S: Alter>(
    tx: &mut Transaction<'_, S>,
    counters: &CountersRow,
) -> Result<usize, Error>
    requires { CountersFit counters.now }
    ensures same_reference { tx.new.conn.ghost_name ≡ tx.old.conn.ghost_name }
    ensures changed { HasCleanDisk (state S.Store tx.new.conn.now) → (t : Tables)
        → Sees (state S.Store tx.old.conn.now) t
        → OnOk result (Sees (state S.Store tx.new.conn.now) (with_counters t counters.now)) }
    ensures refused { ChangeFailsBy IsTooBig
        (λ t. IsSmall (meta_row (with_counters t counters.now).meta))
        (state S.Store tx.old.conn.now) (state S.Store tx.new.conn.now) result (λ _. ⊤) }
    ensures live { LeavesLive (state S.Store tx.old.conn.now)
        (state S.Store tx.new.conn.now) result }
    ensures uncommitted { HasCleanDisk (state S.Store tx.new.conn.now)
        → KeepsCommit (state S.Store tx.old.conn.now) (state S.Store tx.new.conn.now) }
    ensures survives { Survives (state S.Store tx.old.conn.now) (state S.Store tx.new.conn.now)
        (λ _. ⊥) }
{
    set_counters(tx, counters)
}
