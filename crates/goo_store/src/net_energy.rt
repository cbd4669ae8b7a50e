//! What each device declared, added up a page of the declarations at a time.

ghost use Rattle.std.specs.Prelude.{◌≡◌, ◌≤◌, IfOk};
ghost use Rattle.goo_core_shelf.specs.Shelf.{Looks};
ghost use Rattle.goo_store_audit.specs.NetCounting.{IsNetPageAdded, IsSumBelow};
ghost use Rattle.goo_store_audit.specs.Summing.{AreDeclaredBy};
ghost use Rattle.goo_store_judge.specs.Moments.{tables_in};
ghost use Rattle.goo_tables_rows.specs.Stands.{defects};
ghost use Rattle.goo_store.specs.Seen.{Blames, database_of, seen_by};

use crate::sql_shelf::SqlShelf;
use goo_store_audit::nets::add_found;
use goo_store_values::noting::note_fault;
use goo_tables_pages::net::page_of_declarations;
use goo_types::fault::Fault;
use goo_types::gsrn::Gsrn;
use sqlite::Alter;
use std::alloc::Global;
use std::collections::BTreeMap;

impl<S: Alter> SqlShelf<S> {
    /// Adds the net energy of a page of the declarations under the number `low` or a later one; the
    /// number after the last of them.
    fn net_page(
        &mut self,
        alloc: Global,
        low: u64,
        sums: &mut BTreeMap<Gsrn, u128>,
    ) -> Result<u64, Fault>
        requires { IsSumBelow low sums.old }
        ensures looks { Looks (seen_by self.old) (seen_by self.new) result
            (λ next. IsNetPageAdded (tables_in (database_of self.old)).declarations low next
            sums.old sums.new) }
        ensures store { Blames self.old self.new result }
        ensures below { IfOk result (λ next. (low ≤ next) × IsSumBelow next sums.new) }
        ensures tables { defects (database_of self.new) ≡ 0
            → tables_in (database_of self.new) ≡ tables_in (database_of self.old) }
    {
        if self.refused {
            return Err(Fault::Store);
        }
        let found = page_of_declarations(alloc, &mut self.conn, low);
        self.cache.answered = found.is_ok();
        let next = add_found(found, low, sums);
        note_fault(next, &mut self.refused)
    }

    /// The net energy that each device declared, in Wh.
    pub(crate) fn net_energy(&mut self, alloc: Global) -> Result<BTreeMap<Gsrn, u128>, Fault>
        ensures looks { Looks (seen_by self.old) (seen_by self.new) result
            (AreDeclaredBy (seen_by self.old).state.declarations) }
        ensures store { Blames self.old self.new result }
    {
        let mut sums = BTreeMap::new(alloc);
        let mut low = 0;
        let mut next = self.net_page(alloc, low, &mut sums)?;
        while low < next {
            low = next;
            next = self.net_page(alloc, low, &mut sums)?;
        }
        Ok(sums)
    }
}
