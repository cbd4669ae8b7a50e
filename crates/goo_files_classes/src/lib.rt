//! Certificates by class, from statements alone: whoever adds up the lines of all statements by
//! technology, month, country or whatever a lot states, comes to the registry's own count.
//!
//! `specs/Told.antt` joins the runs of a statement (`AreRunsNaming` of `goo_files`) with the counts
//! of `goo_spec_laws`.
#![tactic(auto)]

ghost use Rattle.goo_files_classes.specs.Told.{StatementsAddUp};

/// The law, for every sound state; a registry that opened its records is in one.
///
/// The counts in the lines of an account's statement, of those lines whose lot passes a test and
/// whose place is of a kind, add up to the own certificates of that class that the account has
/// there (`each`); those of the statements of all accounts, to all that there are (`all`), and over
/// all kinds of places to those ever issued (`issued`). With `adds_up` of `Registry::run`: to those
/// that the declarations issued. The audit's numbers of certificates are two cases of it: those
/// issued to a device (`audited`), and those of them that its corrections withdrew (`taken_back`).
pub fn statements_add_up()
    ensures { StatementsAddUp }
{}
