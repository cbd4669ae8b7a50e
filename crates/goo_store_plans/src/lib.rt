//! What a plan changes in the tables: looked up and gathered over a connection, and nothing of it
//! done yet.
#![tactic(auto)]

mod act_changes;
mod command_changes;
mod correction_basis;
mod device_progress;
mod edit_changes;
mod gathered_lots;
mod importing;
pub mod joining_pieces;
mod known_basis;
pub mod known_rows;
pub mod lot_numbers;
mod member_changes;
mod new_corrections;
mod new_declarations;
mod new_devices;
mod new_lots;
mod new_notices;
mod new_pieces;
mod new_receipts;
mod new_rows;
mod next_numbers;
pub mod plan_changes;
mod registry_row;
mod standing;
