//! What is known of the basis of a declaration or of a correction, from one commit to the next: no
//! number is looked up twice.

ghost use Rattle.std.specs.Prelude.{◌≡◌, ◌+◌, ◌<◌, ◌^◌, false, Some, IfSome};
ghost use Rattle.sqlite.specs.Held.{state};
ghost use Rattle.goo_tables_rows.specs.Rows.{Tables, lot_key, correction_key, declaration_key};
ghost use Rattle.goo_store_changes.specs.Changes.{made, made_all};
ghost use Rattle.goo_store_plans.specs.AtHand.{HasRoom};
ghost use Rattle.goo_store_plans.specs.Carried.{AreInOrder};
ghost use Rattle.goo_store_plans.specs.Found.{AreNumbered, IsBasisOf};
ghost use Rattle.goo_store_plans.specs.LookingUp.{LooksUp};
ghost use Rattle.goo_store_plans.specs.PlanNeeds.{HasRoomFor};
ghost use Rattle.goo_store_plans.specs.StoreFaults.{BlamesDisk};

use crate::correction_basis::next_correction_number;
use crate::gathered_lots::next_lot_number;
use crate::known_rows::KnownBasis;
use crate::standing::next_declaration_number;
use goo_store_changes::table_change::TableChange;
use goo_store_values::statement_fault::StatementFault;
use goo_types::command::Command;
use sqlite::{Alter, Connection};
use std::alloc::Global;

/// What is known, and the number that the next lot gets.
fn with_next_lot<S: Alter>(
    alloc: Global,
    conn: &mut Connection<S>,
    known: KnownBasis,
) -> Result<KnownBasis, StatementFault>
    ensures looks { LooksUp (state S.Store conn.old) (state S.Store conn.new) result
        (λ t found. IsBasisOf known t → IsBasisOf found t) }
    ensures blames { BlamesDisk (state S.Store conn.old) (state S.Store conn.new) result
        (λ t. HasRoom 0 lot_key t.lots) }
    ensures outside { conn.old.in_transaction ≡ false → conn.new.in_transaction ≡ false }
{
    let next_lot = next_lot_number(alloc, conn, known.next_lot)?;
    Ok(KnownBasis {
        next_lot: Some(next_lot),
        ..known
    })
}

/// What is known, and the number that the next declaration gets.
fn with_number<S: Alter>(
    alloc: Global,
    conn: &mut Connection<S>,
    known: KnownBasis,
) -> Result<KnownBasis, StatementFault>
    ensures looks { LooksUp (state S.Store conn.old) (state S.Store conn.new) result
        (λ t found. IsBasisOf known t → IsBasisOf found t) }
    ensures blames { BlamesDisk (state S.Store conn.old) (state S.Store conn.new) result
        (λ t. HasRoom 0 declaration_key t.declarations) }
    ensures outside { conn.old.in_transaction ≡ false → conn.new.in_transaction ≡ false }
{
    let number = next_declaration_number(alloc, conn, known.number)?;
    Ok(KnownBasis {
        number: Some(number),
        ..known
    })
}

/// What is known, and the number that the next correction gets.
fn with_correction<S: Alter>(
    alloc: Global,
    conn: &mut Connection<S>,
    known: KnownBasis,
) -> Result<KnownBasis, StatementFault>
    ensures looks { LooksUp (state S.Store conn.old) (state S.Store conn.new) result
        (λ t found. IsBasisOf known t → IsBasisOf found t) }
    ensures blames { BlamesDisk (state S.Store conn.old) (state S.Store conn.new) result
        (λ t. HasRoom 0 correction_key t.corrections) }
    ensures outside { conn.old.in_transaction ≡ false → conn.new.in_transaction ≡ false }
{
    let correction = next_correction_number(alloc, conn, known.correction)?;
    Ok(KnownBasis {
        correction: Some(correction),
        ..known
    })
}

/// What is known, and the numbers that a declaration and its lot get.
fn with_both<S: Alter>(
    alloc: Global,
    conn: &mut Connection<S>,
    known: KnownBasis,
) -> Result<KnownBasis, StatementFault>
    ensures looks { LooksUp (state S.Store conn.old) (state S.Store conn.new) result
        (λ t found. IsBasisOf known t → IsBasisOf found t) }
    ensures blames { BlamesDisk (state S.Store conn.old) (state S.Store conn.new) result
        (λ t. HasRoom 0 declaration_key t.declarations × HasRoom 0 lot_key t.lots) }
    ensures outside { conn.old.in_transaction ≡ false → conn.new.in_transaction ≡ false }
{
    let known = with_number(alloc, conn, known)?;
    with_next_lot(alloc, conn, known)
}

/// What is known, and the numbers of declarations, lots and corrections that a command takes.
pub(crate) fn with_numbers<S: Alter>(
    alloc: Global,
    conn: &mut Connection<S>,
    known: KnownBasis,
    command: &Command,
) -> Result<KnownBasis, StatementFault>
    ensures looks { LooksUp (state S.Store conn.old) (state S.Store conn.new) result
        (λ t found. IsBasisOf known t → IsBasisOf found t) }
    ensures blames { BlamesDisk (state S.Store conn.old) (state S.Store conn.new) result
        (λ t. HasRoomFor t command.now) }
    ensures outside { conn.old.in_transaction ≡ false → conn.new.in_transaction ≡ false }
{
    match command {
        Command::Declare(_) => with_both(alloc, conn, known),
        Command::Import(_) => with_next_lot(alloc, conn, known),
        Command::Correct(_) => with_correction(alloc, conn, known),
        _ => Ok(known),
    }
}

/// The number after one that is taken, where that one was known to be next.
fn number_after(known: Option<u64>, taken: u64) -> Option<u64>
    ensures next { IfSome result (λ n. (known ≡ Some taken) × (n ≡ taken + 1)) }
    ensures kept { known ≡ Some taken → taken < 2 ^ 63 → result ≡ Some (taken + 1) }
{
    match known {
        Some(next) if next == taken => taken.checked_add(1),
        _ => None,
    }
}

/// What is known after a change, of the numbers alone.
fn after_change(known: KnownBasis, change: &TableChange) -> KnownBasis
    ensures { (t : Tables) → AreNumbered t → IsBasisOf known t
        → IsBasisOf result (made t change.now) }
{
    match change {
        TableChange::AddDeclaration(row) => KnownBasis {
            device: None,
            number: number_after(known.number, row.id),
            ..known
        },
        TableChange::AddLot(row) => KnownBasis {
            device: None,
            next_lot: number_after(known.next_lot, row.id),
            ..known
        },
        TableChange::AddCorrection(row) => KnownBasis {
            device: None,
            correction: number_after(known.correction, row.id),
            ..known
        },
        _ => KnownBasis {
            device: None,
            ..known
        },
    }
}

/// What is known after changes, of the numbers alone.
pub(crate) fn after_changes(known: &KnownBasis, changes: &[TableChange]) -> KnownBasis
    ensures { (t : Tables) → AreInOrder t → IsBasisOf known.now t
        → IsBasisOf result (made_all t changes.now) }
{
    let mut after = *known;
    for change in changes {
        after = after_change(after, change);
    }
    after
}
