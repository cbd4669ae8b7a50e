//! Trees taken away.

ghost use Rattle.std.specs.Prelude.{◌≡◌, ◌⊎◌, ◌≤◌, IsTrue, IfSome, OnOk};
ghost use Rattle.sqlite.specs.Steps.{IsFresh};
ghost use Rattle.sqlite.specs.Tree.{Trees};
ghost use Rattle.sqlite_trees.specs.View.{doubt, IsClean, IsQuiet};
ghost use Rattle.goo_store_trees.specs.Less.{IsNamed, IsDropped, IsLessBoth};

use sqlite::Alter;
use sqlite_schema::schema::Table;
use sqlite_trees::error::StoreError;
use sqlite_trees::store::Shape;

/// The tree of the table of this name.
pub fn tree_of(tables: &[Table], name: &[u8]) -> Option<u32>
    ensures { IfSome result (IsNamed tables.now name.now) }
{
    match tables {
        [] => None,
        [table, rest @ ..] => {
            if table.name.as_slice() == name {
                Some(table.tree)
            } else {
                tree_of(rest, name)
            }
        }
    }
}

/// Frees a tree, if there is one and it is a table's.
fn drop_tree<S: Alter>(store: &mut S, tree: Option<u32>) -> Result<(), StoreError>
    requires { IsClean (S.Store.view store.old) → IsTrue (S.Store.view store.old).is_numbered }
    ensures dropped { OnOk result (IsClean (S.Store.view store.new)
        → IsDropped tree (S.Store.view store.old) (S.Store.view store.new)) }
    ensures quiet { IsQuiet S.Store.view S.Store.faults S.Store.recovers S.Store.is_shielded
        store.old store.new }
{
    match tree {
        Some(tree) if matches!(store.shape(tree), Shape::Table) => store.destroy(tree),
        _ => Ok(()),
    }
}

/// Frees both trees, each if it is a table's, and commits that.
///
/// # Errors
///
/// What the store refused.
pub fn drop_trees<S: Alter>(
    store: &mut S,
    one: Option<u32>,
    other: Option<u32>,
) -> Result<(), StoreError>
    requires { IsClean (S.Store.view store.old) → IsTrue (S.Store.view store.old).is_numbered }
    ensures fresh { OnOk result (IsClean (S.Store.view store.new)
        → IsFresh (S.Store.view store.new)) }
    ensures dropped { OnOk result (IsClean (S.Store.view store.new)
        → IsLessBoth one other (S.Store.view store.old).trees (S.Store.view store.new).trees) }
    ensures clean { doubt (S.Store.view store.old).is_clean
        ≤ doubt (S.Store.view store.new).is_clean }
    ensures crash { IsClean (S.Store.view store.new) → (db : Trees)
        → S.Store.recovers store.new db → S.Store.recovers store.old db
        ⊎ IsLessBoth one other (S.Store.view store.old).trees db }
{
    drop_tree(store, one)?;
    drop_tree(store, other)?;
    store.commit()
}
