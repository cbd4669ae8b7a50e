//! The JSON object of a notice, written and read.
ghost use Rattle.std.specs.Prelude.{◌≡◌, ◌==◌, IfOk, ℤ, codes};
ghost use Rattle.serde_json.specs.Data.{number, unsigned, Members, put as with_member};
ghost use Rattle.serde_json.specs.Find.{as_object};
ghost use Rattle.serde_json.specs.View.{view, items_view, members_view};
ghost use Rattle.goo_notice_json.specs.Faults.{Gives};
ghost use Rattle.goo_notice_json.specs.Fields.{accepted, integer_in};
ghost use Rattle.goo_notice_json.specs.Members.{of_size as of_size_stated};
ghost use Rattle.goo_types.specs.Notice.{notice_contents};
ghost use Rattle.goo_notice_text.specs.Notice.{are_carried as carried_test};
ghost use Rattle.goo_notice_text.specs.Notice.{carried_in as carried_by};
ghost use Rattle.goo_notice_text.specs.Notice.{version_of as version_number, notice_data};
ghost use Rattle.goo_notice_text.specs.Notice.{IsStatedNotice, is_notice, notice_fields_of};
ghost use Rattle.goo_notice_text.specs.Notice.{shaped_fields_of, notice_of};

use goo_notice_json::carriers::is_other;
use goo_notice_json::fields::{account_no, act_no, registry_code};
use goo_notice_json::members::{integer_at, items_at, of_size};
use goo_notice_json::object::{nothing, object_of, with_integer, with_items};
use goo_notice_json::part_value::{check_parts, part_values, parts};
use goo_notice_json::value_fault::ValueFault;
use goo_types::account_no::AccountNo;
use goo_types::act_no::ActNo;
use goo_types::notice::Notice;
use goo_types::part::Part;
use goo_types::registry_code::RegistryCode;
use serde_json::{Map, Value};
use std::alloc::{AllocError, Global};

/// The members with one more, the code of the registry that a notice is for.
fn with_addressee(
    alloc: Global,
    members: Result<Map<String, Value>, AllocError>,
    code: RegistryCode,
) -> Result<Map<String, Value>, AllocError>
    ensures { (ms : Members) → IfOk members (λ old. members_view old.entries ≡ ms)
        → IfOk result
        (λ new. members_view new.entries
        ≡ with_member (codes "addressee") (number (unsigned code)) ms) }
{
    with_integer(alloc, members, "addressee", u64::from(code.get()))
}

/// Whether the text of some parts states carriers: where one is another than electricity.
fn are_carried(parts: &[Part]) -> bool
    ensures { result ≡ carried_test parts.now }
{
    parts.iter().any(|part| is_other(part.lot.carrier()))
}

/// The version of a text: 2 where lots state their carrier, else 1.
fn version_of(carried: bool) -> u64
    ensures { result ≡ version_number carried }
{
    if carried { 2 } else { 1 }
}

/// The members with one more, the version of the text.
fn with_version(
    alloc: Global,
    members: Result<Map<String, Value>, AllocError>,
    carried: bool,
) -> Result<Map<String, Value>, AllocError>
    ensures { (ms : Members) → IfOk members (λ old. members_view old.entries ≡ ms)
        → IfOk result
        (λ new. members_view new.entries
        ≡ with_member (codes "version") (number (unsigned (version_number carried))) ms) }
{
    with_integer(alloc, members, "version", version_of(carried))
}

/// The JSON object of a notice, of version 2 where some lot has another carrier than electricity.
///
/// # Errors
///
/// `AllocError` where memory was refused.
pub fn notice_value(alloc: Global, notice: &Notice) -> Result<Value, AllocError>
    ensures value { IfOk result (λ value. view value ≡ notice_data notice.now) }
    ensures limits { IfOk result (λ _. IsStatedNotice notice.now) }
{
    let carried = are_carried(notice.parts());
    let parts = part_values(alloc, notice.parts(), carried)?;
    let members = nothing(alloc);
    let members = with_integer(alloc, members, "account", u64::from(notice.account().get()));
    let members = with_addressee(alloc, members, notice.addressee());
    let members = with_integer(alloc, members, "number", u64::from(notice.number().get()));
    let members = with_items(alloc, members, "parts", parts);
    let members = with_integer(alloc, members, "sender", u64::from(notice.sender().get()));
    let members = with_version(alloc, members, carried);
    object_of(members)
}

/// The version of a notice's text, 1 or 2.
fn version(number: i128) -> Result<u64, ValueFault>
    ensures { Gives (λ n. n) result (integer_in 1 2 number) }
{
    match u64::try_from(number) {
        Ok(1) => Ok(1),
        Ok(2) => Ok(2),
        _ => Err(ValueFault::Field),
    }
}

/// Whether lots state their carrier in a version; None where there is no such version.
fn carried_in(version: i128) -> Option<bool>
    ensures { result ≡ carried_by version }
{
    match u64::try_from(version) {
        Ok(1) => Some(false),
        Ok(2) => Some(true),
        _ => None,
    }
}

/// The notice with these contents, where they keep its rules.
fn notice_with(
    sender: RegistryCode,
    addressee: RegistryCode,
    number: ActNo,
    account: AccountNo,
    parts: Vec<Part>,
) -> Result<Notice, ValueFault>
    ensures { Gives (λ notice. notice) result
        (accepted is_notice (notice_contents sender addressee number account parts.items)) }
{
    Ok(Notice::new(sender, addressee, number, account, parts)?)
}

/// The notice that these members state.
#[tactic(auto, unfolding(crate::specs::Notice::notice_fields_of))]
fn notice_fields(
    alloc: Global,
    account: i128,
    addressee: i128,
    number: i128,
    sender: i128,
    version_no: i128,
    items: &[Value],
) -> Result<Notice, ValueFault>
    ensures { Gives (λ notice. notice) result
        (notice_fields_of account addressee number sender version_no (items_view items.now)) }
{
    let carried = version(version_no)? == 2;
    let sender = registry_code(sender)?;
    let addressee = registry_code(addressee)?;
    let number = act_no(number)?;
    let account = account_no(account)?;
    let parts = parts(alloc, items, carried)?;
    notice_with(sender, addressee, number, account, parts)
}

/// The count of the value's members, where it is an object of as many as a notice has.
fn of_notice_size(value: &Value) -> Result<usize, ValueFault>
    ensures { Gives (λ n. n) result (of_size_stated 6 (as_object (view value.now))) }
{
    of_size(value, 6)
}

/// The notice of these fields, once each of its parts has its shape.
fn shaped_fields(
    alloc: Global,
    account: i128,
    addressee: i128,
    number: i128,
    sender: i128,
    version_no: i128,
    items: &[Value],
) -> Result<Notice, ValueFault>
    ensures { Gives (λ notice. notice) result
        (shaped_fields_of account addressee number sender version_no (items_view items.now)) }
{
    check_parts(items, carried_in(version_no))?;
    notice_fields(alloc, account, addressee, number, sender, version_no, items)
}

/// The notice that a JSON value states. Its whole shape is looked at before any of its fields.
///
/// # Errors
///
/// `Shape` where the value or a part in it isn't an object with just the keys of a notice and
/// values of their kinds, with a carrier in each lot in version 2 and in none in version 1; else
/// `Field` where a value is refused by its reader, the version is neither, or the contents are no
/// notice; `Memory` where an allocation was refused.
#[tactic(auto, unfolding(crate::specs::Notice::notice_of))]
pub fn stated_notice(alloc: Global, value: &Value) -> Result<Notice, ValueFault>
    ensures { Gives (λ notice. notice) result (notice_of (view value.now)) }
{
    of_notice_size(value)?;
    let account = integer_at(value, "account")?;
    let addressee = integer_at(value, "addressee")?;
    let number = integer_at(value, "number")?;
    let items = items_at(value, "parts")?;
    let sender = integer_at(value, "sender")?;
    let version = integer_at(value, "version")?;
    shaped_fields(alloc, account, addressee, number, sender, version, items)
}
