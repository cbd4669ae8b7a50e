//! What a registry gives out as files: statements of accounts, documents of cancellations, holdings
//! as CSV, audits; and imports of declarations from CSV.
//!
//! Statements and holdings are written run by run as these are read, so that no call holds all runs
//! of an account.
#![tactic(auto)]

mod audit;
mod cancellation;
mod holdings;
mod import;
mod laws;
mod statement;
mod text_fault;
mod writing;

pub use audit::write_audit;
pub use cancellation::write_cancellation;
pub use goo_files_import::{Cause, ImportFault, ImportWatcher, Report, RowResult, Unwatched};
pub use holdings::write_holdings_csv;
pub use import::{import_declarations, import_declarations_watched, write_report};
pub use laws::{equal_texts, one_document, one_holdings_csv, one_statement};
pub use statement::write_statement;
pub use text_fault::ShowFault;
