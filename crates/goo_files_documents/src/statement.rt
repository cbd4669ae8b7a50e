//! The first and the last lines of a statement.
ghost use Rattle.std.specs.Prelude.{◌≡◌, ◌++◌, ◌+◌, ◌≤◌, cond, codes, length};
ghost use Rattle.arrayvec.specs.ArrayString.{array_string_len};
ghost use Rattle.goo_files_documents.specs.Statement.{statement_head as head_text};
ghost use Rattle.goo_files_documents.specs.Statement.{statement_foot as foot_text};

use crate::counts::Counts;
use crate::pushes::{ROOM, push_code, push_day, push_holder, push_integer};
use arrayvec::ArrayString;
use goo_types::account_no::AccountNo;
use goo_types::day::Day;
use goo_types::holder_code::HolderCode;
use goo_types::registry_code::RegistryCode;

/// Writes whether an account is closed.
fn push_status(out: &mut ArrayString<ROOM>, closed: bool)
    requires { array_string_len out.old + 6 ≤ 256 }
    ensures bytes { out.new.bytes ≡ out.old.bytes ++ cond closed (codes "closed") (codes "open") }
    ensures len { array_string_len out.new ≤ array_string_len out.old + 6 }
{
    if closed {
        out.push_str("closed");
    } else {
        out.push_str("open");
    }
}

/// The lines before the runs of an account.
#[tactic(auto, unfolding(crate::specs::Statement::statement_head))]
pub fn statement_head(
    code: RegistryCode,
    today: Day,
    account: AccountNo,
    holder: &HolderCode,
    closed: bool,
) -> ArrayString<ROOM>
    ensures { result.bytes ≡ head_text code today account holder.now closed }
{
    let mut out = ArrayString::new();
    out.push_str("STATEMENT\nregistry ");
    push_code(&mut out, code);
    out.push_str("\ndate ");
    push_day(&mut out, today);
    out.push_str("\naccount ");
    push_integer(&mut out, account.get() as u64);
    out.push_str("\nholder ");
    push_holder(&mut out, holder);
    out.push_str("\nstatus ");
    push_status(&mut out, closed);
    out.push_str("\n");
    out
}

/// The lines after them: how many certificates are where.
#[tactic(auto, unfolding(crate::specs::Statement::statement_foot))]
pub fn statement_foot(counts: &Counts) -> ArrayString<ROOM>
    ensures { result.bytes ≡ foot_text counts.now }
{
    let mut out = ArrayString::new();
    out.push_str("held ");
    push_integer(&mut out, counts.held);
    out.push_str("\ncancelled ");
    push_integer(&mut out, counts.cancelled);
    out.push_str("\nexpired ");
    push_integer(&mut out, counts.expired);
    out.push_str("\nwithdrawn ");
    push_integer(&mut out, counts.withdrawn);
    out.push_str("\nexported ");
    push_integer(&mut out, counts.exported);
    out.push_str("\nEND\n");
    out
}
