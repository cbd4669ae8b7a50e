//! A registry kept in a database: a shelf over the tables.
#![tactic(auto)]

mod accounts;
mod cancellations;
mod commits;
mod correctable;
mod corrections;
mod declarations;
mod device_numbers;
mod devices;
mod held;
mod kept_registry_row;
mod lots;
mod lowering;
mod net_energy;
mod next_rows;
mod notices;
pub mod opening;
mod peers;
mod receipts;
mod registry_row;
mod rows;
mod shelf;
pub mod sql_shelf;
mod taken;
mod totals;

pub use goo_store_open::fault::OpenFault;
pub use sql_shelf::SqlShelf;
