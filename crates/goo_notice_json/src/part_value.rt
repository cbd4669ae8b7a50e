//! The JSON objects of a notice's parts, written and read.
ghost use Rattle.std.specs.Prelude.{◌≡◌, All, IfOk, map};
ghost use Rattle.serde_json.specs.View.{view, items_view};
ghost use Rattle.goo_notice_json.specs.Faults.{Gives};
ghost use Rattle.goo_notice_json.specs.Parts.{part_data, IsStatedPart, part_shape, parts_shape};
ghost use Rattle.goo_notice_json.specs.Parts.{part_of, parts_of};

use crate::carriers::is_carried;
use crate::fields::range;
use crate::lot_value::{check_lot, lot, lot_value};
use crate::members::{member_at, of_size, string_at};
use crate::value_fault::ValueFault;
use goo_types::part::Part;
use serde_json::{Value, json};
use std::alloc::{AllocError, Global};

/// The JSON object of a part, whose lot states its carrier where `carried` says so.
#[tactic(auto, unfolding(crate::specs::Parts::part_data))]
fn part_value(alloc: Global, part: &Part, carried: bool) -> Result<Value, AllocError>
    ensures value { IfOk result (λ value. view value ≡ part_data carried part.now) }
    ensures limits { IfOk result (λ _. IsStatedPart part.now) }
{
    let first = part.range.first().text();
    let last = part.range.last().text();
    let lot = lot_value(alloc, &part.lot, carried)?;
    json!(in alloc; {
        "first": (first.as_str()),
        "last": (last.as_str()),
        "lot": lot
    })
}

/// The JSON objects of parts, whose lots state their carrier where `carried` says so.
///
/// # Errors
///
/// `AllocError` where memory was refused.
pub fn part_values(alloc: Global, parts: &[Part], carried: bool) -> Result<Vec<Value>, AllocError>
    ensures values { IfOk result
        (λ values. map view values.items ≡ map (part_data carried) parts.now) }
    ensures limits { IfOk result (λ _. All IsStatedPart parts.now) }
{
    let mut values = Vec::new(alloc);
    for part in parts {
        values.push(part_value(alloc, part, carried)?)?;
    }
    Ok(values)
}

/// Checks that a value has the keys of a part, with their kinds. Lots state their carrier as
/// `carried` says.
#[tactic(auto, unfolding(crate::specs::Parts::part_shape))]
fn check_part(value: &Value, carried: Option<bool>) -> Result<usize, ValueFault>
    ensures { Gives (λ n. n) result (part_shape carried (view value.now)) }
{
    of_size(value, 3)?;
    string_at(value, "first")?;
    string_at(value, "last")?;
    let lot = member_at(value, "lot")?;
    check_lot(lot, is_carried(carried, lot))
}

/// Checks that each value has the keys of a part, with their kinds. Lots state their carrier as
/// `carried` says, and where it says nothing, each as it likes. The number that it gives means
/// nothing.
///
/// # Errors
///
/// `Shape` where one is no object with just the keys of a part, or a value in it is of another
/// kind.
pub fn check_parts(values: &[Value], carried: Option<bool>) -> Result<usize, ValueFault>
    ensures { Gives (λ n. n) result (parts_shape carried (items_view values.now)) }
{
    for value in values {
        check_part(value, carried)?;
    }
    Ok(0)
}

/// The part that a value of that shape states.
#[tactic(auto, unfolding(crate::specs::Parts::part_of))]
fn part(value: &Value, carried: bool) -> Result<Part, ValueFault>
    ensures { Gives (λ part. part) result (part_of carried (view value.now)) }
{
    let first = string_at(value, "first")?;
    let last = string_at(value, "last")?;
    let lot_value = member_at(value, "lot")?;
    Ok(Part {
        range: range(first, last)?,
        lot: lot(lot_value, carried)?,
    })
}

/// The parts that values of that shape state; their lots state their carrier where `carried` says
/// so.
///
/// # Errors
///
/// `Shape` or `Field`, whichever the first faulty value in order has: `Shape` where a key is
/// missing or its value of another kind, `Field` where a value is refused by its reader. `Memory`
/// where an allocation was refused.
pub fn parts(alloc: Global, values: &[Value], carried: bool) -> Result<Vec<Part>, ValueFault>
    ensures { Gives (λ parts. parts.items) result (parts_of carried (items_view values.now)) }
{
    let mut parts = Vec::new(alloc);
    for value in values {
        parts.push(part(value, carried)?)?;
    }
    Ok(parts)
}
