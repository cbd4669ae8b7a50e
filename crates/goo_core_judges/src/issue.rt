//! What a declaration issues.

ghost use Rattle.std.specs.Prelude.{◌≡◌, ◌≤◌, ◌+◌, ◌*◌, ◌-◌, [], ◌∷◌, Some, IfErr, IfOk};
ghost use Rattle.std.specs.Int.{IsInRange};
ghost use Rattle.goo_types.specs.declared.fault.Fault.TheVariants.{Memory};
ghost use Rattle.goo_spec.specs.Declare.{range_of};
ghost use Rattle.goo_core_judges.specs.Issue.{AreForIssue, issue_with, range_in, row_of};

use goo_core_rules::moved_rows::single;
use goo_ranges::Edit;
use goo_types::account_no::AccountNo;
use goo_types::fault::Fault;
use goo_types::lot::Lot;
use goo_types::number::Number;
use goo_types::piece::Piece;
use goo_types::place::Place;
use goo_types::range::Range;
use goo_types::refusal::Refusal;
use goo_types::registry_code::RegistryCode;
use std::alloc::{AllocError, Global};

/// Certificates that are issued to an account.
#[derive(Clone, Copy)]
pub struct Issue {
    /// Their numbers.
    pub range: Range,
    /// Their lot.
    pub lot: Lot,
    /// The account that is to hold them.
    pub account: AccountNo,
}

/// The appraisal of a declaration, by its checks.
#[derive(Clone, Copy)]
pub enum Appraisal {
    /// The first that fails.
    Fails(Refusal),
    /// None does.
    Passes(Terms),
}

/// What an accepted declaration earns and leaves.
#[derive(Clone, Copy)]
pub struct Terms {
    /// The Wh that are carried to the next one.
    pub carry: u64,
    /// What is issued, if anything is.
    pub issue: Option<Issue>,
}

/// `count` numbers of a registry from a serial on; None where `count` is 0.
pub fn numbers_from(code: RegistryCode, serial: u64, count: u64) -> Option<Range>
    requires above { 1 ≤ serial }
    requires below { serial + count ≤ 1_000_000_000_000 }
    ensures { result ≡ range_of (code * 1_000_000_000_000 + serial) count }
{
    if count == 0 {
        return None;
    }
    let first = Number::new(code.get(), serial)?;
    let last = Number::new(code.get(), serial + (count - 1))?;
    Range::new(first, last)
}

/// The certificates of a range, if there is one.
pub fn issue_of(range: Option<Range>, lot: &Lot, account: AccountNo) -> Option<Issue>
    ensures { result ≡ issue_with range lot.now account }
{
    match range {
        Some(range) => Some(Issue {
            range,
            lot: *lot,
            account,
        }),
        None => None,
    }
}

/// The numbers of an issue, if there is one.
pub fn issued_range(issue: &Option<Issue>) -> Option<Range>
    ensures { result ≡ range_in issue.now }
{
    match issue {
        Some(issue) => Some(issue.range),
        None => None,
    }
}

/// The edit that adds the row of an issue.
fn edit_of(alloc: Global, issue: &Issue) -> Result<Edit, AllocError>
    ensures deleted { IfOk result (λ edit. edit.delete.items ≡ []) }
    ensures inserted { IfOk result (λ edit. edit.insert.items ≡ row_of issue.now ∷ []) }
{
    let delete = Vec::new(alloc);
    let mut insert = Vec::new(alloc);
    insert.push(Piece {
        first: issue.range.first(),
        last: issue.range.last(),
        lot: issue.lot,
        place: Place::Held(issue.account),
    })?;
    Ok(Edit { delete, insert })
}

/// The edits that make an issue, if there is one: one row more. No row needs to be looked up: the
/// numbers are new, and no row is joined to this one, since the lot is new too.
///
/// # Errors
///
/// `Memory` where memory was refused.
pub fn issue_edits(alloc: Global, issue: Option<Issue>) -> Result<Vec<Edit>, Fault>
    ensures edits { IfOk result (λ edits. AreForIssue issue edits.items) }
    ensures memory { IfErr result (λ fault. fault ≡ Memory) }
{
    match issue {
        None => Ok(Vec::new(alloc)),
        Some(issue) => {
            let edit = edit_of(alloc, &issue)?;
            Ok(single(alloc, edit)?)
        }
    }
}
