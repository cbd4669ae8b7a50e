//! The line of a run of certificates.

ghost use Rattle.std.specs.Prelude.{◌≡◌, ◌++◌, ◌+◌, ◌≤◌, length};
ghost use Rattle.arrayvec.specs.ArrayString.{array_string_len};
ghost use Rattle.goo_files_documents.specs.Words.{place_text};
ghost use Rattle.goo_files_documents.specs.Runs.{numbers_text, lot_text, certificates_text};
ghost use Rattle.goo_files_documents.specs.Runs.{statement_line as statement_line_text};
ghost use Rattle.goo_files_documents.specs.Runs.{document_line as document_line_text};

use crate::pushes::{
    ROOM, push_aligned, push_device, push_integer, push_number, push_period, push_source, push_tech,
};
use arrayvec::ArrayString;
use goo_types::lot::Lot;
use goo_types::piece::Piece;
use goo_types::place::Place;

/// Writes which certificates a run has: the first, the last, and how many.
fn push_numbers(out: &mut ArrayString<ROOM>, run: &Piece)
    requires room { array_string_len out.old + 70 ≤ 256 }
    ensures bytes { out.new.bytes ≡ out.old.bytes ++ numbers_text run.now }
    ensures len { array_string_len out.new ≤ array_string_len out.old + 70 }
{
    push_number(out, run.first);
    out.push_str(" ");
    push_number(out, run.last);
    out.push_str(" ");
    push_aligned(out, run.last.get().saturating_sub(run.first.get()) + 1);
}

/// Writes what a lot states.
fn push_lot(out: &mut ArrayString<ROOM>, lot: &Lot)
    requires room { array_string_len out.old + 60 ≤ 256 }
    ensures bytes { out.new.bytes ≡ out.old.bytes ++ lot_text lot.now }
    ensures len { array_string_len out.new ≤ array_string_len out.old + 60 }
{
    push_device(out, &lot.device());
    out.push_str(" ");
    push_period(out, lot.first_day(), lot.last_day());
    out.push_str(" ");
    push_tech(out, &lot.tech());
    out.push_str(" ");
    push_source(out, &lot.source());
}

/// Writes which certificates a run has, and what their lot states.
fn push_certificates(out: &mut ArrayString<ROOM>, run: &Piece)
    requires room { array_string_len out.old + 140 ≤ 256 }
    ensures bytes { out.new.bytes ≡ out.old.bytes ++ certificates_text run.now }
    ensures len { array_string_len out.new ≤ array_string_len out.old + 140 }
{
    push_numbers(out, run);
    out.push_str(" ");
    push_lot(out, &run.lot);
}

/// Writes where certificates are.
fn push_place(out: &mut ArrayString<ROOM>, place: Place)
    requires { array_string_len out.old + 30 ≤ 256 }
    ensures bytes { out.new.bytes ≡ out.old.bytes ++ place_text place }
    ensures len { array_string_len out.new ≤ array_string_len out.old + 30 }
{
    match place {
        Place::Held(_) => out.push_str("held"),
        Place::Cancelled(_, act) => {
            out.push_str("cancelled:");
            push_integer(out, act.get() as u64);
        }
        Place::Expired(_) => out.push_str("expired"),
        Place::Withdrawn(_, act) => {
            out.push_str("withdrawn:");
            push_integer(out, act.get() as u64);
        }
        Place::Exported(_, act) => {
            out.push_str("exported:");
            push_integer(out, act.get() as u64);
        }
    }
}

/// The line of a run in a statement.
#[tactic(auto, unfolding(crate::specs::Runs::statement_line))]
pub fn statement_line(run: &Piece) -> ArrayString<ROOM>
    ensures { result.bytes ≡ statement_line_text run.now }
{
    let mut out = ArrayString::new();
    push_certificates(&mut out, run);
    out.push_str(" ");
    push_place(&mut out, run.place);
    out.push_str("\n");
    out
}

/// The line of a run in the document of a cancellation.
#[tactic(auto, unfolding(crate::specs::Runs::document_line))]
pub fn document_line(run: &Piece) -> ArrayString<ROOM>
    ensures { result.bytes ≡ document_line_text run.now }
{
    let mut out = ArrayString::new();
    push_certificates(&mut out, run);
    out.push_str("\n");
    out
}
