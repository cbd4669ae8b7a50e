//! What an accepted declaration changes in the tables, by the rows that were found for it.

ghost use Rattle.std.specs.Prelude.{◌≡◌, ◌+◌, ◌<◌, ◌^◌, false, true, string_bytes, All, IfOk, IsOk};
ghost use Rattle.std.specs.Prelude.{IsOkUnless, IsTrue};
ghost use Rattle.sqlite.specs.Held.{state};
ghost use Rattle.goo_types.specs.Lot.{IsLot};
ghost use Rattle.goo_types.specs.declared.reply.Reply.{Reply};
ghost use Rattle.goo_types.specs.declared.reply.Reply.TheVariants.{Declared};
ghost use Rattle.goo_types.specs.declared.request.Request.{Request};
ghost use Rattle.goo_spec.specs.Declare.{lot_of as lot_for};
ghost use Rattle.goo_spec.specs.State.{State};
ghost use Rattle.goo_tables_rows.specs.Rows.{Tables, declaration_in, meta_in};
ghost use Rattle.goo_tables_accounts.specs.Changes.{CountersFit, DeclarationFits};
ghost use Rattle.goo_spec_tables.specs.Devices.{declaration_of};
ghost use Rattle.goo_spec_tables.specs.Readable.{is_declaration, is_meta};
ghost use Rattle.goo_spec_tables.specs.Texts.{day_of};
ghost use Rattle.goo_store_plans.specs.Carrying.{CarriesOut, IsAccepted};
ghost use Rattle.goo_store_changes.specs.Changes.{ChangeFits};
ghost use Rattle.goo_store_plans.specs.Declaring.{Begins, CanBeDeclared, IsDue, IsWithinLimits};
ghost use Rattle.goo_store_plans.specs.Declaring.{Issues, count_of, lot_stated};
ghost use Rattle.goo_store_plans.specs.Found.{IsBasisOf};
ghost use Rattle.goo_store_plans.specs.LookingUp.{LooksUp};
ghost use Rattle.goo_store_plans.specs.StoreFaults.{BlamesDisk};
ghost use Rattle.goo_store_values.specs.declared.statement_fault.StatementFault.TheVariants.{Memory};

use crate::device_progress::progress_change;
use crate::gathered_lots::{Gathered, add_lot};
use crate::known_rows::KnownBasis;
use crate::new_rows::day_string;
use crate::standing::{DeclarationBasis, find_standing};
use goo_core_shelf::device::Device;
use goo_store_changes::table_change::TableChange;
use goo_store_values::statement_fault::StatementFault;
use goo_store_values::{numbers, texts};
use goo_tables_accounts::counters::CountersRow;
use goo_tables_rows::declaration::DeclarationRow;
use goo_tables_rows::meta::MetaRow;
use goo_types::command::{Command, Declare};
use goo_types::lot::Lot;
use goo_types::range::Range;
use sqlite::{Alter, Connection};
use std::alloc::Global;

/// The row of a declaration under a number.
fn declaration_row(
    alloc: Global,
    declared: &Declare,
    number: u64,
) -> Result<DeclarationRow, StatementFault>
    ensures id { IfOk result (λ row. row.id ≡ number) }
    ensures states { IfOk result (λ row. declaration_of (declaration_in row) ≡ declared.now) }
    ensures reads { IfOk result (λ row. is_declaration (declaration_in row) ≡ true) }
    ensures fits { IfOk result DeclarationFits }
    ensures memory { number < 2 ^ 63 → IsOkUnless result Memory }
{
    if number >= 1 << 63 {
        return Err(StatementFault::Refused);
    }
    Ok(DeclarationRow {
        id: number,
        device: String::from_str(alloc, declared.device.text())?,
        first_day: day_string(alloc, declared.first_day)?,
        last_day: day_string(alloc, declared.last_day)?,
        gross: declared.gross.get(),
        aux: declared.aux.get(),
    })
}

/// What the certificates that are issued for a declaration have in common.
fn issued_lot(meta: &MetaRow, declared: &Declare, device: &Device) -> Result<Lot, StatementFault>
    ensures value { IfOk result
        (λ lot. (s : State) → s.own ≡ meta.now.code → s.today ≡ day_of (string_bytes meta.now.today)
        → lot ≡ lot_for s declared.now device.now) }
    ensures accepts { IsTrue (is_meta (meta_in meta.now))
        → IsLot (lot_stated meta.now declared.now device.now) → IsOk result }
{
    let own = numbers::registry_code(meta.code)?;
    let today = texts::day(&meta.today)?;
    let fields = device.lot_fields(own, declared, today);
    Lot::new(fields).ok_or(StatementFault::Refused)
}

/// The declaration and the device's progress.
fn begin(
    alloc: Global,
    declared: &Declare,
    carry: u64,
    standing: &DeclarationBasis,
) -> Result<Gathered, StatementFault>
    ensures begins { IfOk result (Begins declared.now carry standing.now) }
    ensures fits { IfOk result (λ gathered. All ChangeFits gathered.changes.items) }
    ensures memory { standing.now.number < 2 ^ 63 → carry < 2 ^ 63 → IsOkUnless result Memory }
{
    let row = declaration_row(alloc, declared, standing.number)?;
    let progress = progress_change(alloc, &declared.device, declared.last_day, carry)?;
    let mut changes = Vec::new(alloc);
    changes.push(TableChange::AddDeclaration(row))?;
    changes.push(progress)?;
    let added = Vec::new(alloc);
    Ok(Gathered {
        changes,
        added,
        next: standing.next_lot,
    })
}

/// The lot of the certificates, where some are issued. How many these are.
fn issue(
    alloc: Global,
    meta: &MetaRow,
    declared: &Declare,
    issued: Option<Range>,
    standing: &DeclarationBasis,
    gathered: &mut Gathered,
) -> Result<u64, StatementFault>
    ensures issues { IfOk result
        (Issues meta.now declared.now standing.now issued gathered.old gathered.new) }
    ensures fits { All ChangeFits gathered.old.changes.items
        → IfOk result (λ _. All ChangeFits gathered.new.changes.items) }
    ensures memory { IsTrue (is_meta (meta_in meta.now))
        → IsLot (lot_stated meta.now declared.now standing.now.device) → gathered.old.next < 2 ^ 63
        → IsOkUnless result Memory }
    ensures count { IfOk result (λ count. count ≡ count_of issued) }
{
    match issued {
        None => Ok(0),
        Some(range) => {
            let lot = issued_lot(meta, declared, &standing.device)?;
            add_lot(alloc, gathered, &lot)?;
            Ok(range.len())
        }
    }
}

/// The numbers that are given next, after so many serials more.
fn counters_after(meta: &MetaRow, count: u64) -> Result<CountersRow, StatementFault>
    ensures value { IfOk result
        (λ c. c ≡ record {
          next_serial = meta.now.next_serial + count;
          next_account =
              meta.now.next_account;
          next_cancellation = meta.now.next_cancellation;
          next_withdrawal =
              meta.now.next_withdrawal;
          next_notice = meta.now.next_notice;
        }) }
    ensures fits { IfOk result CountersFit }
    ensures accepts { meta.now.next_serial + count < 2 ^ 63 → IsOk result }
{
    let Some(next_serial) = meta.next_serial.checked_add(count) else {
        return Err(StatementFault::Refused);
    };
    if next_serial >= 1 << 63 {
        return Err(StatementFault::Refused);
    }
    Ok(CountersRow {
        next_serial,
        next_account: meta.next_account,
        next_cancellation: meta.next_cancellation,
        next_withdrawal: meta.next_withdrawal,
        next_notice: meta.next_notice,
    })
}

/// What an accepted declaration changes, by what was found for it and the reply that it gets.
fn declared_changes(
    alloc: Global,
    meta: &MetaRow,
    declared: &Declare,
    carry: u64,
    issued: Option<Range>,
    standing: &DeclarationBasis,
) -> Result<Gathered, StatementFault>
    ensures carries { IfOk result
        (λ gathered. (t : Tables) (q : Request) (reply : Reply)
        → IsDue t q reply meta.now declared.now carry issued standing.now
        → CarriesOut t q.command gathered) }
    ensures memory { IsWithinLimits meta.now declared.now carry issued standing.now
        → IsOkUnless result Memory }
    ensures fits { IfOk result (λ gathered. All ChangeFits gathered.changes.items) }
{
    let mut gathered = begin(alloc, declared, carry, standing)?;
    let count = issue(alloc, meta, declared, issued, standing, &mut gathered)?;
    let counters = counters_after(meta, count)?;
    gathered.changes.push(TableChange::SetCounters(counters))?;
    Ok(gathered)
}

/// What an accepted declaration changes, by the carry in Wh and the certificates that its reply
/// states. What is known of its basis isn't looked up.
///
/// # Errors
///
/// `Refused` where the device isn't registered or a number is too large, `Memory`, and the errors
/// of the statements.
pub fn declare_changes<S: Alter>(
    alloc: Global,
    conn: &mut Connection<S>,
    meta: &MetaRow,
    known: KnownBasis,
    declared: &Declare,
    carry: u64,
    issued: Option<Range>,
) -> Result<Gathered, StatementFault>
    ensures looks { LooksUp (state S.Store conn.old) (state S.Store conn.new) result
        (λ t gathered. (q : Request) (reply : Reply) → q.command ≡ Command.Declare declared.now
        → reply ≡ Declared carry issued → t.meta ≡ meta_in meta.now → IsBasisOf known t
        → IsAccepted t q reply → CarriesOut t q.command gathered) }
    ensures blames { BlamesDisk (state S.Store conn.old) (state S.Store conn.new) result
        (λ t. CanBeDeclared t known meta.now declared.now carry issued) }
    ensures fits { IfOk result (λ gathered. All ChangeFits gathered.changes.items) }
    ensures outside { conn.old.in_transaction ≡ false → conn.new.in_transaction ≡ false }
{
    let standing = find_standing(alloc, conn, known, &declared.device)?;
    declared_changes(alloc, meta, declared, carry, issued, &standing)
}
