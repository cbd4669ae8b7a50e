//! The one text of a notice, written and read.
ghost use Rattle.std.specs.Prelude.{◌≡◌, Ok, IfOk, IfErr};
ghost use Rattle.std.specs.Str.{bytes_eq};
ghost use Rattle.serde_json.specs.View.{view};
ghost use Rattle.goo_types.specs.declared.fault.Fault.TheVariants as fault;
ghost use Rattle.goo_notice_text.specs.Notice.{notice_text, IsStatedNotice, notice_of};
ghost use Rattle.goo_notice_text.specs.NoticeFaults.{as_notice, NoticeGives};
ghost use Rattle.goo_notice_text.specs.NoticeText.{canonical, notice_in};

use crate::notice_fault::NoticeFault;
use crate::notice_value::{notice_value, stated_notice};
use goo_notice_json::json_bytes::json_value;
use goo_types::fault::Fault;
use goo_types::notice::Notice;
use serde_json::Value;
use std::alloc::{AllocError, Global};

/// The text of a notice.
fn written(alloc: Global, notice: &Notice) -> Result<Vec<u8>, AllocError>
    ensures text { IfOk result (λ bytes. bytes.items ≡ notice_text notice.now) }
    ensures limits { IfOk result (λ _. IsStatedNotice notice.now) }
{
    notice_value(alloc, notice)?.to_vec(alloc)
}

/// The one compact text of a notice, which `read` takes for this notice again.
///
/// # Errors
///
/// `Memory` where an allocation is refused.
///
/// # Example
///
/// ```rust,ignore
/// let text = write(alloc, &notice)?;
/// let again = read(alloc, &text)?;
/// // again.is(&notice) is true. With a space after a colon of the text, `read` answers Canonical.
/// ```
pub fn write(alloc: Global, notice: &Notice) -> Result<Vec<u8>, Fault>
    ensures text { IfOk result (λ bytes. bytes.items ≡ notice_text notice.now) }
    ensures reads_back { IfOk result (λ bytes. notice_in bytes.items ≡ Ok notice.now) }
    ensures memory { IfErr result (λ e. e ≡ fault.Memory) }
{
    Ok(written(alloc, notice)?)
}

/// The notice that a JSON value states, whatever text the value came from.
///
/// # Errors
///
/// `Shape` where the value or a part in it isn't an object with just the keys of a notice and
/// values of their kinds, with a carrier in each lot in version 2 and in none in version 1; else
/// `Field` where a value is refused by its reader, the version is neither, or the contents are no
/// notice; `Memory` where an allocation is refused. Never `NotJson` or `Canonical`.
pub fn from_value(alloc: Global, value: &Value) -> Result<Notice, NoticeFault>
    ensures { NoticeGives (λ notice. notice) result (as_notice (notice_of (view value.now))) }
{
    Ok(stated_notice(alloc, value)?)
}

/// Whether the bytes are this text, and no other.
fn is_text(bytes: &[u8], text: &[u8]) -> bool
    ensures { result ≡ bytes_eq text.now bytes.now }
{
    text == bytes
}

/// The notice, where the bytes are its text.
fn canonical(alloc: Global, notice: Notice, bytes: &[u8]) -> Result<Notice, NoticeFault>
    ensures { NoticeGives (λ notice. notice) result (canonical bytes.now notice) }
{
    let text = written(alloc, &notice)?;
    if is_text(bytes, &text) {
        Ok(notice)
    } else {
        Err(NoticeFault::Canonical)
    }
}

/// The notice whose text the bytes are: the very bytes that [`write`] gives for it.
///
/// # Errors
///
/// The first of these that holds: `NotJson` where the bytes are no JSON text; `Shape` and `Field`
/// as [`from_value`] gives them; `Canonical` where the bytes state a notice, and aren't its text,
/// as one of version 2 with electricity alone. `Memory` where an allocation is refused.
#[tactic(auto, unfolding(crate::specs::NoticeText::notice_in))]
pub fn read(alloc: Global, bytes: &[u8]) -> Result<Notice, NoticeFault>
    ensures { NoticeGives (λ notice. notice) result (notice_in bytes.now) }
{
    let value = json_value(alloc, bytes)?.ok_or(NoticeFault::NotJson)?;
    canonical(alloc, from_value(alloc, &value)?, bytes)
}
