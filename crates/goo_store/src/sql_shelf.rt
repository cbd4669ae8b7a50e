//! A shelf over the tables of a database.

ghost use Rattle.std.specs.Prelude.{◌≡◌, ◌≢◌, ◌⊎◌, [], Some, false, IsTrue, IfOk, IfErr, IsErrAnd};
ghost use Rattle.sqlite.specs.Held.{state as view};
ghost use Rattle.sqlite.specs.State.{HasCleanDisk, IsLive, Survives};
ghost use Rattle.goo_ranges_rows.specs.Rows.{AreRowsOf};
ghost use Rattle.goo_spec.specs.Created.{created};
ghost use Rattle.goo_spec.specs.Runs.{IsApart};
ghost use Rattle.goo_spec.specs.Sound.{IsSound};
ghost use Rattle.goo_tables_rows.specs.Columns.{no_schema};
ghost use Rattle.goo_tables_rows.specs.Met.{IsInKeyOrder};
ghost use Rattle.goo_tables_rows.specs.Stands.{HoldsOurs, defects};
ghost use Rattle.goo_core_shelf.specs.Shelf.{IsReady};
ghost use Rattle.goo_tables_accounts.specs.Changes.{begun};
ghost use Rattle.goo_store_opening.specs.Creating.{meta_of};
ghost use Rattle.goo_store_judge.specs.Moments.{IsWell, IsWell-prop, OpensAs, count};
ghost use Rattle.goo_store_judge.specs.Opening.{BlamesOpening};
ghost use Rattle.goo_store_pieces.specs.Found.{Knows, Knows-prop};
ghost use Rattle.goo_store_pieces.specs.Caching.{HoldsCache, HoldsCache-prop};
ghost use Rattle.goo_store_open.specs.Found.{IsOutside};
ghost use Rattle.goo_store_open.specs.declared.fault.OpenFault.TheVariants.{AlreadyThere};

use goo_store_open::fault::OpenFault;
use goo_store_opening::creating::{begin, is_empty};
use goo_store_pieces::cache::Cache;
use goo_store_plans::known_rows::KnownRows;
use goo_types::account_no::AccountNo;
use goo_types::day::Day;
use goo_types::registry_code::RegistryCode;
use goo_types::serial::Serial;
use sqlite::{Alter, Connection};
use std::alloc::Global;

/// A registry's state in a database. From the first call on that was refused for another cause than
/// memory, or that met a row which breaks the rules of the tables, it answers `Store` and calls the
/// database no more. What look-ups found is kept for the next commit, which needs it; what few
/// commits change is kept until one does.
pub struct SqlShelf<S: Alter> {
    pub(crate) alloc: Global,
    pub(crate) conn: Connection<S>,
    pub(crate) refused: bool,
    pub(crate) known_rows: KnownRows,
    pub(crate) cache: Cache,
    // The account of the page that was read ahead last, where that page was full and most of its
    // rows were of the lot of the row before.
    pub(crate) sharing_lots: Option<AccountNo>,
    ghost outside: { conn.in_transaction ≡ false },
    ghost well: { IsWell (view S.Store conn) } by { IsWell-prop (view S.Store conn) },
    ghost known: { Knows (view S.Store conn) known_rows } by { Knows-prop (view S.Store conn) known_rows },
    ghost cached: { HoldsCache (view S.Store conn) cache } by { HoldsCache-prop (view S.Store conn) cache },
}

impl<S: Alter + Drop> Drop for SqlShelf<S> {
    fn drop(self) {
        let SqlShelf {
            alloc: _,
            conn: _conn,
            refused: _,
            known_rows: _known_rows,
            cache: _cache,
            sharing_lots: _,
        } = self;
    }
}

impl<S: Alter> SqlShelf<S> {
    ghost use Rattle.goo_store.specs.Seen.{seen_by};

    /// The registry that a database holds by all rules.
    pub(crate) fn over(alloc: Global, conn: Connection<S>) -> SqlShelf<S>
        requires outside { conn.in_transaction ≡ false }
        requires well { IsLive (view S.Store conn) → IsWell (view S.Store conn) }
        ensures conn { result.conn ≡ conn }
        ensures ready { result.refused ≡ false }
    {
        let _known = conn.schema();
        SqlShelf {
            alloc,
            conn,
            refused: false,
            known_rows: KnownRows::none(alloc),
            cache: Cache::none(alloc),
            sharing_lots: None,
        }
    }

    /// A new registry in an empty database: it has this code, this date and this next serial, and
    /// knows nothing else.
    ///
    /// # Errors
    ///
    /// The database with `AlreadyThere` where it has a table, an index or a view; with `Store`
    /// where the disk failed, and `Memory` where memory was refused. The database is as it was
    /// then.
    pub fn create(
        alloc: Global,
        conn: Connection<S>,
        code: RegistryCode,
        next_serial: Serial,
        today: Day,
    ) -> Result<SqlShelf<S>, (Connection<S>, OpenFault)>
        requires { conn.in_transaction ≡ false }
        ensures state { IfOk result
            (λ shelf. (seen_by shelf).defects ≡ 0
            → (seen_by shelf).state ≡ created code today next_serial) }
        ensures rows { IfOk result
            (λ shelf. (seen_by shelf).defects ≡ 0 → (seen_by shelf).rows ≡ []) }
        ensures sound { IfOk result
            (λ shelf. (seen_by shelf).defects ≡ 0 → IsSound (seen_by shelf).state) }
        ensures rows_fit { IfOk result
            (λ shelf. (seen_by shelf).defects ≡ 0
            → AreRowsOf (seen_by shelf).state.at (seen_by shelf).rows) }
        ensures apart { IfOk result
            (λ shelf. (seen_by shelf).defects ≡ 0 → IsApart (seen_by shelf).rows) }
        ensures ready { IfOk result (λ shelf. IsReady (seen_by shelf)) }
        ensures there { IfErr result (λ e. e.1 ≡ AlreadyThere → e.0 ≡ conn) }
        ensures taken { (view S.Store conn).now.schema ≢ no_schema
            → IsErrAnd result (λ e. e.1 ≡ AlreadyThere) }
        ensures untaken { (view S.Store conn).now.schema ≡ no_schema
            → IfErr result (λ e. e.1 ≢ AlreadyThere) }
        ensures words { IfErr result (λ e. (e.1 ≡ AlreadyThere) ⊎ IsOutside e.1) }
        ensures blames { (view S.Store conn).now.schema ≡ no_schema
            → IfErr result (λ e. BlamesOpening (view S.Store conn) (view S.Store e.0) e.1) }
        ensures kept { IfErr result
            (λ e. HasCleanDisk (view S.Store e.0) → IsTrue (view S.Store e.0).is_open
            → ((view S.Store e.0).now ≡ (view S.Store conn).now)
            × ((view S.Store e.0).committed ≡ (view S.Store conn).committed)) }
        ensures outside { IfErr result (λ e. e.0.in_transaction ≡ false) }
        ensures crash { IfErr result
            (λ e. Survives (view S.Store conn) (view S.Store e.0)
            (HoldsOurs (view S.Store conn).is_open (begun (meta_of code today next_serial)))) }
    {
        let mut conn = conn;
        if !is_empty(&conn) {
            return Err((conn, OpenFault::AlreadyThere));
        }
        match begin(alloc, &mut conn, code, next_serial, today) {
            Ok(()) => Ok(SqlShelf::over(alloc, conn)),
            Err(cause) => Err((conn, OpenFault::from(cause))),
        }
    }

    /// How many calls were refused for another cause than memory: 0, and 1 from the first one on.
    pub(crate) fn count_refused(&self) -> u64
        ensures { result ≡ count self.now.refused }
    {
        if self.refused { 1 } else { 0 }
    }

    /// The database, with the registry in it: while there is no defect, it opens again as the
    /// state that the shelf has.
    pub fn into_connection(self) -> Connection<S>
        ensures conn { result ≡ self.conn }
        ensures outside { result.in_transaction ≡ false }
        ensures well { IsWell (view S.Store result) }
        ensures ordered { defects (view S.Store result) ≡ 0
            → IsInKeyOrder (view S.Store result).now }
        ensures opens { defects (view S.Store result) ≡ 0
            → OpensAs (view S.Store result).now.trees (Some (seen_by self).state) }
    {
        let SqlShelf {
            alloc: _,
            conn,
            refused: _,
            known_rows: _known_rows,
            cache: _cache,
            sharing_lots: _,
        } = self;
        conn
    }
}
