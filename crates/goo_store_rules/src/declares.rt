//! Rows of `declaration` as declarations.

ghost use Rattle.std.specs.Prelude.{◌≡◌, true, map, IsSome, IfSome, IfOk, OnOk, ◌++◌, ◌∷◌, []};
ghost use Rattle.std.specs.List.{list_all};
ghost use Rattle.goo_tables_rows.specs.Rows.{declaration_in};
ghost use Rattle.goo_spec_tables.specs.Devices.{declaration_of};
ghost use Rattle.goo_spec_tables.specs.Readable.{is_declaration, reads};
ghost use Rattle.goo_types.specs.Gsrn.{gsrn_reading};

use goo_tables_rows::declaration::DeclarationRow;
use goo_types::command::Declare;
use goo_types::day::Day;
use goo_types::gsrn::Gsrn;
use goo_types::wh::Wh;
use std::alloc::{AllocError, Global};

/// The number of a device that a text states.
#[tactic(auto, unfolding(goo_types::specs::Gsrn::gsrn_reading))]
pub fn gsrn_in(text: &str) -> Option<Gsrn>
    ensures value { IfSome result (λ gsrn. gsrn ≡ text.now) }
    ensures readable { reads (gsrn_reading text.now) ≡ true → IsSome result }
{
    match Gsrn::read(text.as_bytes()) {
        Ok(gsrn) => Some(gsrn),
        Err(_) => None,
    }
}

/// The declaration in a row, where each of its values is one.
fn declare_in(row: &DeclarationRow) -> Option<Declare>
    ensures value { IfSome result (λ x. x ≡ declaration_of (declaration_in row.now)) }
    ensures readable { is_declaration (declaration_in row.now) ≡ true → IsSome result }
{
    Some(Declare {
        device: gsrn_in(&row.device)?,
        first_day: Day::read(row.first_day.as_bytes()).ok()?,
        last_day: Day::read(row.last_day.as_bytes()).ok()?,
        gross: Wh::new(row.gross)?,
        aux: Wh::new(row.aux)?,
    })
}

/// One declaration more.
fn push(declared: &mut Vec<Declare>, declaration: Declare) -> Result<(), AllocError>
    ensures { OnOk result (declared.new.items ≡ declared.old.items ++ declaration ∷ []) }
{
    declared.extend_from_slice(&[declaration])
}

/// The declarations in rows, where each value is one.
///
/// # Errors
///
/// Where an allocation is refused.
pub fn declares_in(
    alloc: Global,
    rows: &[DeclarationRow],
) -> Result<Option<Vec<Declare>>, AllocError>
    ensures value { IfOk result
        (λ o. IfSome o (λ xs. xs.items ≡ map declaration_of (map declaration_in rows.now))) }
    ensures readable { list_all (λ row. is_declaration (declaration_in row)) rows.now ≡ true
        → IfOk result IsSome }
{
    let mut declared = Vec::new(alloc);
    for row in rows {
        let Some(declaration) = declare_in(row) else {
            return Ok(None);
        };
        push(&mut declared, declaration)?;
    }
    Ok(Some(declared))
}
