//! A table's report, line by line.
ghost use Rattle.std.specs.Prelude.{◌≡◌, ◌<◌, ◌≤◌, ◌+◌, [], ◌++◌, drop, length, slice_range};
ghost use Rattle.std.specs.Prelude.{OnOk, IfOk};
ghost use Rattle.std.specs.Char.{is_ascii_digit};
ghost use Rattle.std.specs.List.{list_all};
ghost use Rattle.goo_log_chain.specs.Rows.{digits as digits_of, is_done as done_test};
ghost use Rattle.goo_log_chain.specs.Rows.{is_number as number_test, is_refused as refused_test, row, row_at, rows_behind};

use std::alloc::{AllocError, Global};

/// The digits in front of a line.
fn digits(line: &[u8]) -> usize
    ensures { result ≡ digits_of line.now }
{
    line.iter().take_while(|byte| byte.is_ascii_digit()).count()
}

/// Whether a row was accepted, or repeated.
fn is_done(rest: &[u8]) -> bool
    ensures { result ≡ done_test rest.now }
{
    rest == b" accepted".as_slice() || rest == b" repeated".as_slice()
}

/// Whether each byte is a digit.
fn are_digits(text: &[u8]) -> bool
    ensures { result ≡ list_all is_ascii_digit text.now }
{
    text.iter().all(|byte| byte.is_ascii_digit())
}

/// Whether this is a number.
fn is_number(text: &[u8]) -> bool
    ensures { result ≡ number_test text.now }
{
    !text.is_empty() && are_digits(text)
}

/// Whether a row was refused, with a number.
fn is_refused(rest: &[u8]) -> bool
    ensures { result ≡ refused_test rest.now }
{
    match rest.strip_prefix(b" refused ") {
        Some(number) => is_number(number),
        None => false,
    }
}

/// Adds a line without what a second import may change.
fn push_row_at(out: &mut Vec<u8>, number: usize, line: &[u8]) -> Result<(), AllocError>
    requires { number ≤ length line.now }
    ensures { OnOk result (out.new.items ≡ out.old.items ++ row_at number line.now) }
{
    let rest = &line[number..];
    if number > 0 && is_done(rest) {
        out.extend_from_slice(&line[..number])?;
        return out.extend_from_slice(b" ");
    }
    if number > 0 && is_refused(rest) {
        out.extend_from_slice(&line[..number])?;
        return out.extend_from_slice(b" refused");
    }
    out.extend_from_slice(line)
}

/// Adds a line without what a second import may change.
#[tactic(auto, unfolding(crate::specs::Rows::row))]
fn push_row(out: &mut Vec<u8>, line: &[u8]) -> Result<(), AllocError>
    ensures { OnOk result (out.new.items ≡ out.old.items ++ row line.now) }
{
    let number = digits(line);
    push_row_at(out, number, line)
}

/// Goes on by one byte of a report: where it ends a line, the line is added. Gives back where the
/// line begins that goes on.
fn push_byte(
    out: &mut Vec<u8>,
    report: &[u8],
    start: usize,
    index: usize,
) -> Result<usize, AllocError>
    requires begun { start ≤ index }
    requires inside { index < length report.now }
    ensures { IfOk result (λ next. (next ≤ index + 1)
        × (out.old.items ++ rows_behind (slice_range report.now start index)
        (drop index report.now)
        ≡ out.new.items ++ rows_behind (slice_range report.now next (index + 1))
        (drop (index + 1) report.now))) }
{
    if report[index] != b'\n' {
        return Ok(start);
    }
    push_row(out, &report[start..index])?;
    out.extend_from_slice(b"\n")?;
    Ok(index + 1)
}

/// A report without what a second import may change.
pub(crate) fn rows(alloc: Global, report: &[u8]) -> Result<Vec<u8>, AllocError>
    ensures { IfOk result (λ out. out.items ≡ rows_behind [] report.now) }
{
    let mut out = Vec::new(alloc);
    let mut start = 0;
    for index in 0..report.len() {
        start = push_byte(&mut out, report, start, index)?;
    }
    push_row(&mut out, &report[start..])?;
    Ok(out)
}
