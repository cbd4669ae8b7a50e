//! The body of an import, with its notice.
ghost use Rattle.std.specs.Prelude.{◌≡◌};
ghost use Rattle.serde_json.specs.View.{view};
ghost use Rattle.goo_notice_json.specs.Faults.{Gives};
ghost use Rattle.goo_notice.specs.Import.{import_of};

use goo_notice_json::members::{member_at, of_size};
use goo_notice_json::value_fault::ValueFault;
use goo_notice_text::stated_notice;
use goo_types::command::Import;
use serde_json::Value;
use std::alloc::Global;

/// The import that a body states.
#[tactic(auto, unfolding(goo_notice::specs::Import::import_of))]
pub(crate) fn import(alloc: Global, body: &Value) -> Result<Import, ValueFault>
    ensures { Gives (λ c. c) result (import_of 1 (view body.now)) }
{
    of_size(body, 3)?;
    let notice = member_at(body, "notice")?;
    Ok(Import {
        notice: stated_notice(alloc, notice)?,
    })
}
