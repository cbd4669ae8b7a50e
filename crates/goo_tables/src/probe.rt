//! Whether the database still answers.

ghost use Rattle.std.specs.Prelude.{◌≡◌, ⊤, false};
ghost use Rattle.sqlite.specs.State.{Survives};
ghost use Rattle.sqlite.specs.Held.{state};
ghost use Rattle.goo_tables_rows.specs.Refused.{FailsOnlyByFault};
ghost use Rattle.goo_tables_rows.specs.Stands.{Looks};

use sqlite::{Alter, Connection, Error};

/// Prepares a statement and doesn't run it, which a connection does only while it is open.
///
/// `survives`: whatever came before, a crash finds nothing that it would not have found without the
/// call. Other statements say so of an open connection alone.
///
/// # Errors
///
/// On the tables of a registry: `SqliteFailure` where memory was refused, the disk failed or an
/// earlier failure shut the connection. The database stays as it was.
pub fn probe<S: Alter>(conn: &mut Connection<S>) -> Result<(), Error>
    ensures looks { Looks (state S.Store conn.old) (state S.Store conn.new) result (λ t found. ⊤) }
    ensures refused { FailsOnlyByFault (state S.Store conn.old) (state S.Store conn.new) result
        (λ t. ⊤) }
    ensures outside { conn.old.in_transaction ≡ false → conn.new.in_transaction ≡ false }
    ensures survives { Survives (state S.Store conn.old) (state S.Store conn.new) (λ _. ⊥) }
{
    conn.prepare("SELECT version FROM meta")?;
    Ok(())
}
