//! The rows of a registry's certificates.
ghost use Rattle.std.specs.Prelude.{◌≡◌, ◌+◌, ◌^◌, ◌<◌, ◌≤◌, [], ◌++◌, cond, count_by, sum_by};
ghost use Rattle.std.specs.Prelude.{IfOk, IfErr, IfSome, OnOk};
ghost use Rattle.std.specs.FinMap.{entries};
ghost use Rattle.goo_types.specs.declared.fault.Fault.TheVariants.{Memory};
ghost use Rattle.goo_types.specs.Piece.{IsForward, IsRising};
ghost use Rattle.goo_ranges_rows.specs.Rows.{meeting, edited_all};
ghost use Rattle.goo_spec_runs.specs.NextRun.{ending_from, first_of};
ghost use Rattle.goo_core_shelf.specs.Rows.{naming_account, EndsFrom};
ghost use Rattle.goo_core_shelf.specs.Sought.{is_sought};
ghost use Rattle.goo_spec.specs.Energy.{is_issued_to, is_taken_back, is_corrected};
ghost use Rattle.goo_ranges_rows.specs.Certificates.{certificates_of, issued_in, corrected_in};
ghost use Rattle.std.specs.List.{filter, list_any};
ghost use Rattle.goo_spec.specs.Lots.{is_held_by};
ghost use Rattle.goo_core_list.specs.Rows.{inserts};

use crate::corrections::Corrections;
use crate::row_edits::{count_inserts, edit_each};
use goo_core_pages::paged::Pages;
use goo_core_shelf::sought::{Sought, is_sought};
use goo_ranges::Edit;
use goo_types::account_no::AccountNo;
use goo_types::fault::Fault;
use goo_types::gsrn::Gsrn;
use goo_types::piece::Piece;
use goo_types::place::Place;
use goo_types::range::Range;
use goo_types::registry_code::RegistryCode;
use std::alloc::{AllocError, Global};
use std::marker::Model;

/// How many of a row's certificates are a registry's own ones, issued to a device.
fn issued_in_row(row: &Piece, own: RegistryCode, device: &Gsrn) -> u64
    requires { IsForward row.now }
    ensures value { result ≡ issued_in own device.now row.now }
    ensures limit { result + row.now.first ≤ row.now.last + 1 }
    ensures small { row.now.last < 2 ^ 60 }
{
    let first = row.first.get();
    let last = row.last.get();
    if row.first.code() == own.get() && row.lot.device() == *device {
        last + 1 - first
    } else {
        0
    }
}

/// How many of a row's certificates a device's corrections withdrew, of so many that were issued to
/// it.
fn corrected_in_row(row: &Piece, issued: u64, device: &Gsrn, corrections: &Corrections) -> u64
    ensures value { result
        ≡ cond (is_taken_back device.now corrections.now row.now.place) issued 0 }
    ensures limit { result ≤ issued }
{
    match row.place {
        Place::Withdrawn(_, act) => {
            if corrections.withdrew(device, act) {
                issued
            } else {
                0
            }
        }
        _ => 0,
    }
}

/// How many of a registry's own certificates were issued to a device, and how many of them its
/// corrections withdrew.
#[derive(Clone, Copy)]
pub struct CountedRows {
    /// Those that were issued.
    pub issued: u64,
    /// Those of them that were withdrawn.
    pub corrected: u64,
}

/// The count of some rows' certificates.
fn counted_in_rows(
    rows: &[Piece],
    own: RegistryCode,
    device: &Gsrn,
    corrections: &Corrections,
) -> CountedRows
    requires { IsRising rows.now }
    ensures issued { result.issued ≡ sum_by (issued_in own device.now) rows.now }
    ensures corrected { result.corrected
        ≡ sum_by (corrected_in own device.now corrections.now) rows.now }
{
    let mut issued = 0;
    let mut corrected = 0;
    for row in rows {
        let count = issued_in_row(row, own, device);
        corrected += corrected_in_row(row, count, device, corrections);
        issued += count;
    }
    CountedRows { issued, corrected }
}

/// Adds copies of those rows whose place names an account.
fn add_naming(met: &mut Vec<Piece>, rows: &[Piece], account: AccountNo) -> Result<(), AllocError>
    ensures { OnOk result (met.new.items ≡ met.old.items ++ naming_account account rows.now) }
{
    for row in rows {
        if row.place.account() == account {
            met.push(*row)?;
        }
    }
    Ok(())
}

/// Whether an account holds one of some rows.
fn holds_one(rows: &[Piece], account: AccountNo) -> bool
    ensures { result ≡ list_any (λ p. is_held_by account p.place) rows.now }
{
    rows.iter().any(|row| match row.place {
        Place::Held(holder) => holder == account,
        _ => false,
    })
}

/// The first of those rows that a look-up is for and that end at a number or after it.
fn first_sought(rows: &[Piece], sought: &Sought, from: u64) -> Option<Piece>
    ensures { result ≡ first_of (ending_from from (filter (is_sought sought.now) rows.now)) }
{
    for row in rows {
        if is_sought(row, sought) && from <= row.last.get() {
            return Some(*row);
        }
    }
    None
}

/// The rows of a registry's certificates: by rising numbers, and no two have a number in common.
#[derive(Drop)]
pub struct Rows {
    pieces: Pages,
}

impl Model for Rows {
    ghost use Rattle.goo_types.specs.Piece.{IsRising};
    ghost use Rattle.goo_core_list.specs.Rows.{KeptRows, kept_rows};

    ghost Value = { KeptRows };

    ghost view = { λ r. kept_rows r.pieces.rows r.pieces.room };

    ghost invariant = { λ r. IsRising r.pieces.rows };
}

impl Rows {
    /// No rows.
    pub fn new(alloc: Global) -> Rows
        ensures { result.pieces ≡ [] }
    {
        Rows {
            pieces: Pages::new(alloc),
        }
    }

    /// A copy of the rows with a number of the range or next to one.
    ///
    /// # Errors
    ///
    /// `Memory` where an allocation was refused.
    pub fn meeting(&self, alloc: Global, range: Range) -> Result<Vec<Piece>, Fault>
        ensures met { IfOk result (λ met. met.items ≡ meeting range self.now.pieces) }
        ensures rising { IfOk result (λ met. IsRising met.items) }
        ensures memory { IfErr result (λ fault. fault ≡ Memory) }
    {
        Ok(self.pieces.meeting(alloc, range)?)
    }

    /// A copy of the rows whose place names an account.
    ///
    /// # Errors
    ///
    /// `Memory` where an allocation was refused.
    pub fn pieces_of(&self, alloc: Global, account: AccountNo) -> Result<Vec<Piece>, Fault>
        ensures met { IfOk result (λ met. met.items ≡ naming_account account self.now.pieces) }
        ensures rising { IfOk result (λ met. IsRising met.items) }
        ensures memory { IfErr result (λ fault. fault ≡ Memory) }
    {
        let mut met = Vec::new(alloc);
        for page in self.pieces.pages() {
            add_naming(&mut met, page.rows(), account)?;
        }
        Ok(met)
    }

    /// Whether an account holds one of the rows.
    pub fn holds(&self, account: AccountNo) -> bool
        ensures { result ≡ list_any (λ p. is_held_by account p.place) self.now.pieces }
    {
        for page in self.pieces.pages() {
            if holds_one(page.rows(), account) {
                return true;
            }
        }
        false
    }

    /// The first row that a look-up is for and that ends at a number or after it.
    pub fn next_from(&self, sought: &Sought, from: u64) -> Option<Piece>
        ensures found { result
            ≡ first_of (ending_from from (filter (is_sought sought.now) self.now.pieces)) }
        ensures ahead { IfSome result (EndsFrom from) }
    {
        for page in self.pieces.pages() {
            match first_sought(page.rows(), sought, from) {
                Some(row) => return Some(row),
                None => {}
            }
        }
        None
    }

    /// How many of a registry's own certificates were issued to a device, and how many of them its
    /// corrections withdrew.
    pub fn counted(
        &self,
        own: RegistryCode,
        device: &Gsrn,
        corrections: &Corrections,
    ) -> CountedRows
        ensures issued { result.issued
            ≡ count_by (is_issued_to own device.now) (entries (certificates_of self.now.pieces)) }
        ensures corrected { result.corrected
            ≡ count_by (is_corrected own device.now corrections.now)
            (entries (certificates_of self.now.pieces)) }
    {
        let _code = own.get();
        let mut issued = 0;
        let mut corrected = 0;
        for page in self.pieces.pages() {
            let counted = counted_in_rows(page.rows(), own, device, corrections);
            issued += counted.issued;
            corrected += counted.corrected;
        }
        CountedRows { issued, corrected }
    }

    /// Makes room for what some edits insert.
    ///
    /// # Errors
    ///
    /// `Memory` where an allocation was refused. The rows stay as they are.
    pub fn make_room(&mut self, edits: &[Edit]) -> Result<(), Fault>
        ensures rows { self.new.pieces ≡ self.old.pieces }
        ensures room { OnOk result (inserts edits.now ≤ self.new.room) }
        ensures memory { IfErr result (λ fault. fault ≡ Memory) }
    {
        let Some(count) = count_inserts(edits) else {
            return Err(Fault::Memory);
        };
        self.pieces.make_room(count)?;
        Ok(())
    }

    /// Carries out some edits for which there is room.
    pub fn edit(&mut self, edits: &[Edit])
        requires room { inserts edits.now ≤ self.old.room }
        requires rising { IsRising (edited_all edits.now self.old.pieces) }
        ensures { self.new.pieces ≡ edited_all edits.now self.old.pieces }
    {
        edit_each(&mut self.pieces, edits);
    }
}
