//! Own lots beside their declarations, where both come in the same order, as a registry makes them.

ghost use Rattle.std.specs.Prelude.{◌≡◌, ℕ, List, true, map, position, string_bytes};
ghost use Rattle.std.specs.Prelude.{IsTrue, IfSome};
ghost use Rattle.std.specs.List.{list_all};
ghost use Rattle.goo_tables_rows.specs.Rows.{declaration_in, lot_in};
ghost use Rattle.goo_store_rules.specs.WellKept.{has_declaration, is_declared, is_of_lot};

use goo_tables_rows::declaration::DeclarationRow;
use goo_tables_rows::lot::LotRow;

/// Whether a declaration is of a lot's device, with its first day.
fn is_of(lot: &LotRow, declaration: &DeclarationRow) -> bool
    ensures { result ≡ is_of_lot (lot_in lot.now) (declaration_in declaration.now) }
{
    lot.device == declaration.device && lot.first_day == declaration.first_day
}

/// The place of the first declaration of a lot's device with its first day.
fn place_of(lot: &LotRow, declarations: &[DeclarationRow]) -> Option<usize>
    ensures { result
        ≡ position (λ d. is_of_lot (lot_in lot.now) (declaration_in d)) declarations.now }
{
    declarations
        .iter()
        .position(|declaration| is_of(lot, declaration))
}

/// The declarations behind the first one of a lot's device with its first day.
fn behind<'a>(lot: &LotRow, declarations: &'a [DeclarationRow]) -> Option<&'a [DeclarationRow]>
    ensures declared { IfSome result
        (λ rest. has_declaration (map declaration_in declarations.now)
        (string_bytes lot.now.device) (string_bytes lot.now.first_day) ≡ true) }
    ensures among { IfSome result
        (λ rest. (device first_day : List ℕ)
        → has_declaration (map declaration_in rest.now) device first_day ≡ true
        → has_declaration (map declaration_in declarations.now) device first_day ≡ true) }
{
    let place = place_of(lot, declarations)?;
    Some(&declarations[place + 1..])
}

/// Whether each lot of the registry of this code has a declaration of its device with its first
/// day, behind that of the lot before. Where it hasn't, it may have one before it.
pub fn are_declared_in_turn(own: u32, lots: &[LotRow], declarations: &[DeclarationRow]) -> bool
    ensures { IsTrue result
        → list_all
        (λ row. is_declared (has_declaration (map declaration_in declarations.now)) own
        (lot_in row)) lots.now ≡ true }
{
    let mut left = declarations;
    for lot in lots {
        if lot.origin == own {
            let Some(rest) = behind(lot, left) else {
                return false;
            };
            left = rest;
        }
    }
    true
}
