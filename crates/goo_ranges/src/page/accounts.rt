//! Runs of a page by account.

ghost use Rattle.std.specs.Prelude.{◌≡◌, map, IfOk, IfErr};
ghost use Rattle.goo_types.specs.Piece.{IsRising};
ghost use Rattle.goo_ranges.specs.Accounts.{AreAccountRuns, held};
ghost use Rattle.goo_ranges_pieces.specs.Joining.{IsJoining};
ghost use Rattle.goo_spec.specs.Runs.{IsApart};

use super::Page;
use goo_ranges_pieces::joined::push_joined;
use goo_types::fault::Fault;
use goo_types::lot::Lot;
use goo_types::piece::Piece;
use goo_types::place::Place;
use std::alloc::{AllocError, Global};

/// The pieces, each held by the account that its place names and with one lot, joined.
fn held_pieces(alloc: Global, pieces: &[Piece], lot: &Lot) -> Result<Vec<Piece>, AllocError>
    requires { IsRising pieces.now }
    ensures joined { IfOk result (λ out. IsJoining (map (held lot.now) pieces.now) out.items) }
    ensures apart { IfOk result (λ out. IsApart out.items) }
{
    let mut out = Vec::new(alloc);
    for piece in pieces {
        let held = Piece {
            lot: *lot,
            place: Place::Held(piece.place.account()),
            ..*piece
        };
        push_joined(&mut out, held)?;
    }
    Ok(out)
}

impl Page {
    /// The maximal ranges of consecutive numbers whose places name one account, whatever their
    /// lots, rising: each as a piece that this account holds. All have one lot, which says nothing.
    ///
    /// # Errors
    ///
    /// `Memory` where an allocation was refused.
    pub fn account_runs(&self) -> Result<Vec<Piece>, Fault>
        ensures runs { IfOk result (λ runs. AreAccountRuns self.now runs.items) }
        ensures memory { IfErr result (λ fault. fault ≡ Fault.Memory) }
    {
        let alloc = *self.pieces.allocator();
        let Some(first) = self.pieces.first() else {
            return Ok(Vec::new(alloc));
        };
        let runs = held_pieces(alloc, &self.pieces, &first.lot)?;
        Ok(runs)
    }
}
