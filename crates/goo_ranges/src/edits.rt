//! What a change of a book does to its rows.

ghost use Rattle.std.specs.Prelude.{◌≡◌, [], ◌∷◌, IfOk};

use goo_types::number::Number;
use goo_types::piece::Piece;
use goo_types::place::Place;
use std::alloc::{AllocError, Global};

/// The rows that a change of a book deletes, by their first numbers, and those that it inserts.
#[derive(Drop)]
pub struct Edit {
    /// The first numbers of the rows that are deleted, rising.
    pub delete: Vec<Number>,
    /// The rows that stand in their place, rising.
    pub insert: Vec<Piece>,
}

impl Edit {
    /// The edit that puts a whole row elsewhere, as when its certificates expire.
    ///
    /// # Errors
    ///
    /// `AllocError` where memory was refused.
    pub fn of_move(alloc: Global, row: &Piece, place: Place) -> Result<Edit, AllocError>
        ensures deleted { IfOk result (λ edit. edit.delete.items ≡ row.now.first ∷ []) }
        ensures inserted { IfOk result
            (λ edit. edit.insert.items ≡ record row.now { place = place } ∷ []) }
    {
        let mut delete = Vec::new(alloc);
        delete.push(row.first)?;
        let mut insert = Vec::new(alloc);
        insert.push(Piece { place, ..*row })?;
        Ok(Edit { delete, insert })
    }
}
