//! Writing at the end of a line.

ghost use Rattle.std.specs.Prelude.{◌≡◌, ◌++◌, ◌+◌, ◌*◌, ◌-◌, ◌≤◌, ◌<◌, length, replicate, cond};
ghost use Rattle.std.specs.Prelude.{nat_lt, [], codes, decimal};
ghost use Rattle.arrayvec.specs.ArrayString.{array_string_len};
ghost use Rattle.goo_types.specs.Texts.{number_text, day_text};
ghost use Rattle.goo_files_documents.specs.Words.{right_aligned, code_text, period_text};

use arrayvec::ArrayString;
use goo_types::day::Day;
use goo_types::gsrn::Gsrn;
use goo_types::holder_code::HolderCode;
use goo_types::name::Name;
use goo_types::number::Number;
use goo_types::registry_code::RegistryCode;
use goo_types::source_code::SourceCode;
use goo_types::tech_code::TechCode;
use itoa::Buffer;

/// Room for each line, and for the lines at the head and at the foot of a text.
pub const ROOM: usize = 256;

/// Writes an integer.
pub(crate) fn push_integer(out: &mut ArrayString<ROOM>, integer: u64)
    requires { array_string_len out.old + 20 ≤ 256 }
    ensures bytes { out.new.bytes ≡ out.old.bytes ++ decimal integer }
    ensures len { array_string_len out.new ≤ array_string_len out.old + 20 }
{
    let mut digits = Buffer::new();
    out.push_str(digits.format(integer));
}

/// Writes an integer of up to 128 bits.
pub(crate) fn push_sum(out: &mut ArrayString<ROOM>, integer: u128)
    requires { array_string_len out.old + 39 ≤ 256 }
    ensures bytes { out.new.bytes ≡ out.old.bytes ++ decimal integer }
    ensures len { array_string_len out.new ≤ array_string_len out.old + 39 }
{
    let mut digits = Buffer::new();
    out.push_str(digits.format(integer));
}

/// Writes `count` spaces.
fn push_spaces(out: &mut ArrayString<ROOM>, count: usize)
    requires { array_string_len out.old + count ≤ 256 }
    ensures bytes { out.new.bytes ≡ out.old.bytes ++ replicate count 32 }
    ensures len { array_string_len out.new ≤ array_string_len out.old + count }
{
    for _ in 0..count {
        out.push_str(" ");
    }
}

/// Writes an integer in twelve places, with spaces before it.
#[tactic(auto, unfolding(crate::specs::Words::right_aligned))]
pub(crate) fn push_aligned(out: &mut ArrayString<ROOM>, integer: u64)
    requires { array_string_len out.old + 32 ≤ 256 }
    ensures bytes { out.new.bytes ≡ out.old.bytes ++ right_aligned 12 integer }
    ensures len { array_string_len out.new ≤ array_string_len out.old + 32 }
{
    let mut buffer = Buffer::new();
    let digits = buffer.format(integer);
    push_spaces(out, 12usize.saturating_sub(digits.len()));
    out.push_str(digits);
}

/// Writes a certificate number, fourteen digits.
pub(crate) fn push_number(out: &mut ArrayString<ROOM>, number: Number)
    requires { array_string_len out.old + 14 ≤ 256 }
    ensures bytes { out.new.bytes ≡ out.old.bytes ++ number_text number }
    ensures len { array_string_len out.new ≤ array_string_len out.old + 14 }
{
    let digits = number.text();
    out.push_str(digits.as_str());
}

/// Writes a day, ten bytes.
pub(crate) fn push_day(out: &mut ArrayString<ROOM>, day: Day)
    requires { array_string_len out.old + 10 ≤ 256 }
    ensures bytes { out.new.bytes ≡ out.old.bytes ++ day_text day }
    ensures len { array_string_len out.new ≤ array_string_len out.old + 10 }
{
    let text = day.text();
    out.push_str(text.as_str());
}

/// Writes a zero before a code of one digit.
fn push_zero(out: &mut ArrayString<ROOM>, code: u8)
    requires { array_string_len out.old + 1 ≤ 256 }
    ensures bytes { out.new.bytes ≡ out.old.bytes ++ cond (nat_lt code 10) (codes "0") [] }
    ensures len { array_string_len out.new ≤ array_string_len out.old + 1 }
{
    if code < 10 {
        out.push_str("0");
    } else {
        out.push_str("");
    }
}

/// Writes the code of a registry, two digits.
#[tactic(auto, unfolding(crate::specs::Words::code_text))]
pub(crate) fn push_code(out: &mut ArrayString<ROOM>, code: RegistryCode)
    requires { array_string_len out.old + 21 ≤ 256 }
    ensures bytes { out.new.bytes ≡ out.old.bytes ++ code_text code }
    ensures len { array_string_len out.new ≤ array_string_len out.old + 21 }
{
    push_zero(out, code.get());
    push_integer(out, code.get() as u64);
}

/// Writes a first and a last day.
pub(crate) fn push_period(out: &mut ArrayString<ROOM>, first: Day, last: Day)
    requires { array_string_len out.old + 21 ≤ 256 }
    ensures bytes { out.new.bytes ≡ out.old.bytes ++ period_text first last }
    ensures len { array_string_len out.new ≤ array_string_len out.old + 21 }
{
    push_day(out, first);
    out.push_str(" ");
    push_day(out, last);
}

/// Writes the number of a device, eighteen digits.
#[tactic(auto, using(crate::proofs::Lengths::device_length))]
pub(crate) fn push_device(out: &mut ArrayString<ROOM>, device: &Gsrn)
    requires { array_string_len out.old + 18 ≤ 256 }
    ensures bytes { out.new.bytes ≡ out.old.bytes ++ device.now }
    ensures len { array_string_len out.new ≤ array_string_len out.old + 18 }
{
    out.push_str(device.text());
}

/// Writes the technology of a device, seven bytes.
#[tactic(auto, using(crate::proofs::Lengths::text_length))]
pub(crate) fn push_tech(out: &mut ArrayString<ROOM>, tech: &TechCode)
    requires { array_string_len out.old + 7 ≤ 256 }
    ensures bytes { out.new.bytes ≡ out.old.bytes ++ tech.now }
    ensures len { array_string_len out.new ≤ array_string_len out.old + 7 }
{
    out.push_str(tech.text());
}

/// Writes an energy source, nine bytes.
#[tactic(auto, using(crate::proofs::Lengths::text_length))]
pub(crate) fn push_source(out: &mut ArrayString<ROOM>, source: &SourceCode)
    requires { array_string_len out.old + 9 ≤ 256 }
    ensures bytes { out.new.bytes ≡ out.old.bytes ++ source.now }
    ensures len { array_string_len out.new ≤ array_string_len out.old + 9 }
{
    out.push_str(source.text());
}

/// Writes the code of a holder.
#[tactic(auto, using(crate::proofs::Lengths::text_length))]
pub(crate) fn push_holder(out: &mut ArrayString<ROOM>, holder: &HolderCode)
    requires { array_string_len out.old + 16 ≤ 256 }
    ensures bytes { out.new.bytes ≡ out.old.bytes ++ holder.now }
    ensures len { array_string_len out.new ≤ array_string_len out.old + 16 }
{
    out.push_str(holder.text());
}

/// Writes a name.
#[tactic(auto, using(crate::proofs::Lengths::text_length))]
pub(crate) fn push_name(out: &mut ArrayString<ROOM>, name: &Name)
    requires { array_string_len out.old + 64 ≤ 256 }
    ensures bytes { out.new.bytes ≡ out.old.bytes ++ name.now }
    ensures len { array_string_len out.new ≤ array_string_len out.old + 64 }
{
    out.push_str(name.text());
}
