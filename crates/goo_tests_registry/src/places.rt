//! Where certificates are.

ghost use Rattle.std.specs.Prelude.{◌≤◌, ◌<◌};

use crate::values::{account, act};
use goo_types::place::Place;

/// In an account.
pub fn held(holder: u32) -> Place
    requires above { 1 ≤ holder }
    requires below { holder < 1_000_000_000 }
{
    Place::Held(account(holder))
}

/// Used up, from an account, by a cancellation.
pub fn used(holder: u32, cancellation: u32) -> Place
    requires holder_above { 1 ≤ holder }
    requires holder_below { holder < 1_000_000_000 }
    requires act_above { 1 ≤ cancellation }
    requires act_below { cancellation < 1_000_000_000 }
{
    Place::Cancelled(account(holder), act(cancellation))
}

/// Taken back out of an account, by a withdrawal.
pub fn taken(holder: u32, withdrawal: u32) -> Place
    requires holder_above { 1 ≤ holder }
    requires holder_below { holder < 1_000_000_000 }
    requires act_above { 1 ≤ withdrawal }
    requires act_below { withdrawal < 1_000_000_000 }
{
    Place::Withdrawn(account(holder), act(withdrawal))
}

/// Expired in an account.
pub fn over(holder: u32) -> Place
    requires above { 1 ≤ holder }
    requires below { holder < 1_000_000_000 }
{
    Place::Expired(account(holder))
}

/// Sent from an account, with a notice.
pub fn away(holder: u32, notice: u32) -> Place
    requires holder_above { 1 ≤ holder }
    requires holder_below { holder < 1_000_000_000 }
    requires act_above { 1 ≤ notice }
    requires act_below { notice < 1_000_000_000 }
{
    Place::Exported(account(holder), act(notice))
}
