//! All rules, judged over all that was read of a registry's tables.

ghost use Rattle.std.specs.Prelude.{◌≡◌, ◌↔◌, ◌&&◌, IsTrue, IfOk};
ghost use Rattle.goo_store_rules.specs.Keeping.{has_good_values, has_good_corrections};
ghost use Rattle.goo_store_rules.specs.Keeping.{has_its_numbers};
ghost use Rattle.goo_store_rules.specs.Rules.{KeepsValues, KeepsWhole, KeepsNames, KeepsRules};

use crate::cut::are_joined;
use crate::keeping::{
    are_accepted, are_carried, are_corrections, are_declared, are_named, are_notices, are_numbered,
    are_placed,
};
use crate::lots::are_good;
use crate::produced::keeps_production;
use goo_store_open::finding::Found;
use std::alloc::{AllocError, Global};

/// Whether the values of rows, and their numbers, are right.
fn are_accepted_and_numbered(found: &Found) -> bool
    ensures { result
        ≡ (has_good_values found.now &&
        (has_good_corrections found.now && has_its_numbers found.now)) }
{
    are_accepted(found) && are_corrections(found) && are_numbered(found)
}

/// The same, and whether the days of lots are.
fn keeps_values(found: &Found) -> bool
    ensures { IsTrue result ↔ KeepsValues found.now }
{
    are_accepted_and_numbered(found) && are_good(&found.rows.production.lots)
}

/// Whether, in version 2, no piece is left to join with the one before it.
fn keeps_whole(found: &Found, version: u32) -> bool
    ensures { IsTrue result ↔ KeepsWhole version found.now }
{
    version != 2 || are_joined(&found.rows.production.pieces)
}

/// Whether what rows name is there, and notices are their texts.
///
/// # Errors
///
/// Where an allocation is refused.
fn keeps_names(alloc: Global, found: &Found) -> Result<bool, AllocError>
    ensures { IfOk result (λ yes. IsTrue yes ↔ KeepsNames found.now) }
{
    Ok(
        are_named(alloc, found)?
            && are_placed(alloc, found)?
            && are_notices(alloc, found)?
            && are_declared(alloc, found)?
            && are_carried(alloc, found)?,
    )
}

/// Whether all rules of the version are kept: version 2 has one more than version 1, that no piece
/// is left to join with the one before it.
///
/// # Errors
///
/// Where an allocation is refused.
pub fn keeps_rules(alloc: Global, found: &Found, version: u32) -> Result<bool, AllocError>
    ensures { IfOk result (λ yes. IsTrue yes ↔ KeepsRules version found.now) }
{
    if !keeps_values(found) || !keeps_whole(found, version) || !keeps_names(alloc, found)? {
        return Ok(false);
    }
    keeps_production(alloc, found.meta.code, &found.rows.production)
}
