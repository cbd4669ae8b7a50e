//! The text of a reply.
ghost use Rattle.std.specs.Prelude.{◌≡◌, ◌++◌, ◌+◌, ◌≤◌, codes, decimal, length};
ghost use Rattle.arrayvec.specs.ArrayString.{array_string_len};
ghost use Rattle.goo_desk_outcome.specs.Texts.{act_number, issued_text, reply_text};

use crate::pushes::{ROOM, push_integer, push_number};
use arrayvec::ArrayString;
use goo_types::act_no::ActNo;
use goo_types::range::Range;
use goo_types::reply::Reply;

/// Writes the members with the certificates that were issued, and the end of the object.
fn push_issued(out: &mut ArrayString<ROOM>, issued: Option<Range>)
    requires { array_string_len out.old + 90 ≤ 256 }
    ensures bytes { out.new.bytes ≡ out.old.bytes ++ issued_text issued }
    ensures len { array_string_len out.new ≤ array_string_len out.old + 90 }
{
    match issued {
        Some(range) => {
            out.push_str(",\"count\":");
            push_integer(out, range.len());
            out.push_str(",\"first\":\"");
            push_number(out, range.first());
            out.push_str("\",\"last\":\"");
            push_number(out, range.last());
            out.push_str("\"}");
        }
        None => out.push_str(",\"count\":0}"),
    }
}

/// Writes the end of an object: what stands before its last integer, that integer, and the brace.
fn push_one(out: &mut ArrayString<ROOM>, head: &str, integer: u64)
    requires { array_string_len out.old + length head.now + 21 ≤ 256 }
    ensures bytes { out.new.bytes ≡ out.old.bytes ++ (head.now ++ decimal integer ++ codes "}") }
    ensures len { array_string_len out.new ≤ array_string_len out.old + length head.now + 21 }
{
    out.push_str(head);
    push_integer(out, integer);
    out.push_str("}");
}

/// Writes an object of two integers, each after what stands before it.
fn push_two(out: &mut ArrayString<ROOM>, head: &str, first: u64, between: &str, second: u64)
    requires { array_string_len out.old + length head.now + length between.now + 41 ≤ 256 }
    ensures bytes { out.new.bytes
        ≡ out.old.bytes
        ++ (head.now ++ decimal first ++ between.now ++ decimal second ++ codes "}") }
    ensures len { array_string_len out.new
        ≤ array_string_len out.old + length head.now + length between.now + 41 }
{
    out.push_str(head);
    push_integer(out, first);
    push_one(out, between, second);
}

/// The number of an act, 0 where there is none.
fn number_of(act: Option<ActNo>) -> u64
    ensures { result ≡ act_number act }
{
    match act {
        Some(act) => act.get() as u64,
        None => 0,
    }
}

/// Writes a reply.
pub(crate) fn push_reply(out: &mut ArrayString<ROOM>, reply: Reply)
    requires { array_string_len out.old + 120 ≤ 256 }
    ensures bytes { out.new.bytes ≡ out.old.bytes ++ reply_text reply }
    ensures len { array_string_len out.new ≤ array_string_len out.old + 120 }
{
    match reply {
        Reply::Done => out.push_str("{}"),
        Reply::Account { account } => push_one(out, "{\"account\":", account.get() as u64),
        Reply::Declared { carry, issued } => {
            out.push_str("{\"carry\":");
            push_integer(out, carry);
            push_issued(out, issued);
        }
        Reply::Corrected {
            carry,
            count,
            withdrawal,
        } => {
            let withdrawal = number_of(withdrawal);
            out.push_str("{\"carry\":");
            push_integer(out, carry);
            push_two(out, ",\"count\":", count, ",\"withdrawal\":", withdrawal);
        }
        Reply::Moved { count } | Reply::Imported { count } => push_one(out, "{\"count\":", count),
        Reply::Cancelled {
            cancellation,
            count,
        } => {
            let cancellation = cancellation.get() as u64;
            push_two(
                out,
                "{\"cancellation\":",
                cancellation,
                ",\"count\":",
                count,
            );
        }
        Reply::Withdrawn { withdrawal, count } => {
            let withdrawal = withdrawal.get() as u64;
            push_two(out, "{\"count\":", count, ",\"withdrawal\":", withdrawal);
        }
        Reply::Advanced { expired } => push_one(out, "{\"expired\":", expired),
        Reply::Exported { notice, count } => {
            push_two(
                out,
                "{\"count\":",
                count,
                ",\"notice\":",
                notice.get() as u64,
            );
        }
    }
}
