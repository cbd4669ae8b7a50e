//! Decisions over any shelf: [`decide`] decides on a request and changes nothing.
//!
//! What keeps a registry is a [`Shelf`]; [`ListShelf`] is one of plain lists. A [`Decision`] that
//! accepts a request hands out the [`Plan`] of its change, which the shelf commits.
#![tactic(auto)]

pub use goo_core_judges::decide;
pub use goo_core_list::list_shelf::ListShelf;
pub use goo_core_rules::decision::Decision;
pub use goo_core_shelf::account::Account;
pub use goo_core_shelf::cancel_record::CancelRecord;
pub use goo_core_shelf::counters::Counters;
pub use goo_core_shelf::device::Device;
pub use goo_core_shelf::found::{Arrival, DeviceTotals, Progress, Receipt};
pub use goo_core_shelf::plan::Plan;
pub use goo_core_shelf::sent::Sent;
pub use goo_core_shelf::shelf::Shelf;
