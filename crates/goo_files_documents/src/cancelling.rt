//! The first and the last lines of the document of a cancellation.
ghost use Rattle.std.specs.Prelude.{◌≡◌, ◌++◌, ◌+◌, ◌≤◌, length};
ghost use Rattle.arrayvec.specs.ArrayString.{array_string_len};
ghost use Rattle.goo_files_documents.specs.Cancellation.{registry_lines, owner_lines};
ghost use Rattle.goo_files_documents.specs.Cancellation.{cancellation_head as head_text};
ghost use Rattle.goo_files_documents.specs.Cancellation.{cancellation_foot as foot_text};

use crate::cancellation::CancellationHead;
use crate::pushes::{ROOM, push_code, push_day, push_holder, push_integer, push_name, push_period};
use arrayvec::ArrayString;

/// Writes which cancellation of which registry it is.
fn push_registry(out: &mut ArrayString<ROOM>, head: &CancellationHead)
    requires { array_string_len out.old + 66 ≤ 256 }
    ensures bytes { out.new.bytes ≡ out.old.bytes ++ registry_lines head.now }
    ensures len { array_string_len out.new ≤ array_string_len out.old + 66 }
{
    out.push_str("CANCELLATION ");
    push_integer(out, head.act.get() as u64);
    out.push_str("\nregistry ");
    push_code(out, head.code);
}

/// Writes whose certificates it took, and for whom.
fn push_owner(out: &mut ArrayString<ROOM>, head: &CancellationHead)
    requires { array_string_len out.old + 132 ≤ 256 }
    ensures bytes { out.new.bytes ≡ out.old.bytes ++ owner_lines head.now }
    ensures len { array_string_len out.new ≤ array_string_len out.old + 132 }
{
    out.push_str("\naccount ");
    push_integer(out, head.account.get() as u64);
    out.push_str("\nholder ");
    push_holder(out, &head.holder);
    out.push_str("\nbeneficiary ");
    push_name(out, &head.beneficiary);
}

/// The lines before the certificates of a cancellation.
#[tactic(auto, unfolding(crate::specs::Cancellation::cancellation_head))]
pub fn cancellation_head(head: &CancellationHead) -> ArrayString<ROOM>
    ensures { result.bytes ≡ head_text head.now }
{
    let mut out = ArrayString::new();
    push_registry(&mut out, head);
    out.push_str("\ndate ");
    push_day(&mut out, head.day);
    push_owner(&mut out, head);
    out.push_str("\nperiod ");
    push_period(&mut out, head.use_first, head.use_last);
    out.push_str("\n");
    out
}

/// The lines after them: how many they are.
#[tactic(auto, unfolding(crate::specs::Cancellation::cancellation_foot))]
pub fn cancellation_foot(count: u64) -> ArrayString<ROOM>
    ensures { result.bytes ≡ foot_text count }
{
    let mut out = ArrayString::new();
    out.push_str("certificates ");
    push_integer(&mut out, count);
    out.push_str("\nEND\n");
    out
}
