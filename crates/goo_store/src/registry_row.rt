//! The registry itself, as its row tells of it.

ghost use Rattle.std.specs.Prelude.{◌≡◌, Some, option_map, IfErr, IfOk, IfSome, IsOk, IsSomeAnd};
ghost use Rattle.std.specs.Prelude.{IsTrue};
ghost use Rattle.goo_tables_rows.specs.Rows.{Tables, meta_in};
ghost use Rattle.goo_core_shelf.specs.Counters.{counters_of};
ghost use Rattle.goo_core_shelf.specs.Meta.{meta_of};
ghost use Rattle.goo_core_shelf.specs.Shelf.{Looks};
ghost use Rattle.goo_store_pieces.specs.Found.{KeepsFound};
ghost use Rattle.goo_store_plans.specs.Found.{IsRowOf};
ghost use Rattle.goo_store_values.specs.Passing.{Accepts, Passes};
ghost use Rattle.goo_spec_tables.specs.Readable.{is_meta};
ghost use Rattle.goo_store_values.specs.declared.statement_fault.StatementFault.TheVariants.{Refused};
ghost use Rattle.goo_spec_tables.specs.States.{state_of};
ghost use Rattle.goo_store.specs.Seen.{Blames, seen_by};

use crate::sql_shelf::SqlShelf;
use goo_core_shelf::counters::Counters;
use goo_core_shelf::own::Meta;
use goo_store_values::noting::note_fault;
use goo_store_values::registry_row::row;
use goo_store_values::statement_fault::StatementFault;
use goo_store_values::{numbers, texts};
use goo_tables::meta::find_meta;
use goo_tables_rows::meta::MetaRow;
use goo_types::fault::Fault;
use goo_types::registry_code::RegistryCode;
use sqlite::{Alter, Error};

/// The next number of each kind.
#[tactic(auto, unfolding(goo_spec_tables::specs::States::state_of))]
fn counters_in_row(row: &MetaRow) -> Result<Counters, StatementFault>
    ensures value { IfOk result
        (λ counters. (t : Tables) → t.meta ≡ meta_in row.now
        → counters ≡ counters_of (state_of t)) }
    ensures accepts { IsTrue (is_meta (meta_in row.now)) → IsOk result }
    ensures cause { IfErr result (λ cause. cause ≡ Refused) }
{
    let counters = Counters::new(
        row.next_serial,
        row.next_account,
        row.next_cancellation,
        row.next_withdrawal,
        row.next_notice,
    );
    counters.ok_or(StatementFault::Refused)
}

/// What the registry knows of itself, as its row tells.
#[tactic(auto, unfolding(goo_spec_tables::specs::States::state_of))]
fn meta_in_row(row: &MetaRow) -> Result<Meta, StatementFault>
    ensures value { IfOk result
        (λ meta. (t : Tables) → t.meta ≡ meta_in row.now → meta ≡ meta_of (state_of t)) }
    ensures accepts { IsTrue (is_meta (meta_in row.now)) → IsOk result }
    ensures cause { IfErr result (λ cause. cause ≡ Refused) }
{
    let code = numbers::registry_code(row.code)?;
    let today = texts::day(&row.today)?;
    let counters = counters_in_row(row)?;
    Ok(Meta {
        code,
        today,
        counters,
    })
}

/// What the registry knows of itself, where its row was found. The row is kept.
fn read_meta(
    found: Result<Option<MetaRow>, Error>,
    own: &mut Option<MetaRow>,
) -> Result<Meta, StatementFault>
    ensures value { Passes found result
        (λ row meta. (t : Tables) → option_map meta_in row ≡ Some t.meta
        → meta ≡ meta_of (state_of t)) }
    ensures accepts { Accepts found result
        (λ row. IsSomeAnd row (λ m. IsTrue (is_meta (meta_in m)))) }
    ensures kept { KeepsFound found own.old own.new }
{
    let row = row(found)?;
    let meta = meta_in_row(&row)?;
    *own = Some(row);
    Ok(meta)
}

/// What the registry knows of itself, as the row tells that is kept, if one is.
fn meta_in_kept(own: &Option<MetaRow>) -> Option<Meta>
    ensures { IfSome result
        (λ meta. (t : Tables) → IsRowOf own.now t → meta ≡ meta_of (state_of t)) }
{
    let row = own.as_ref()?;
    meta_in_row(row).ok()
}

impl<S: Alter> SqlShelf<S> {
    /// What the registry knows of itself, where its row is kept and may be told.
    fn kept_registry(&self) -> Option<Meta>
        ensures answered { IfSome result (λ meta. IsTrue self.now.cache.answered) }
        ensures kept { IfSome result (λ meta. (t : Tables)
            → IsRowOf self.now.known_rows.own t → meta ≡ meta_of (state_of t)) }
    {
        if self.cache.answered {
            meta_in_kept(&self.known_rows.own)
        } else {
            None
        }
    }

    /// What the registry knows of itself: as the row tells that is kept, or else the one that is
    /// looked up, which is kept then.
    pub(crate) fn look_up_registry(&mut self) -> Result<Meta, Fault>
        ensures looks { Looks (seen_by self.old) (seen_by self.new) result
            (λ meta. meta ≡ meta_of (seen_by self.old).state) }
        ensures store { Blames self.old self.new result }
    {
        if self.refused {
            return Err(Fault::Store);
        }
        if let Some(meta) = self.kept_registry() {
            return Ok(meta);
        }
        let found = find_meta(self.alloc, &mut self.conn);
        self.cache.answered = found.is_ok();
        note_fault(
            read_meta(found, &mut self.known_rows.own),
            &mut self.refused,
        )
    }

    /// The registry's own code.
    pub(crate) fn look_up_code(&mut self) -> Result<RegistryCode, Fault>
        ensures looks { Looks (seen_by self.old) (seen_by self.new) result
            (λ code. code ≡ (seen_by self.old).state.own) }
        ensures store { Blames self.old self.new result }
    {
        let meta = self.look_up_registry()?;
        Ok(meta.code)
    }
}
