//! Pieces of a picture that its grid and nodes alone place: the arrows and the rows.

ghost use Rattle.std.specs.Prelude.{◌≡◌, ℕ, List, IfOk, string_bytes};
ghost use Rattle.std.specs.List.{flat_map};
ghost use Rattle.sup_specs.specs.Values.{Bytes};

use crate::grid::Grid;
use std::alloc::{AllocError, Global};
use sup_specs::NodeName;

/// A piece, which has a text of its own.
pub trait Piece {
    ghost use Rattle.sup_svg.specs.declared.grid.Grid.{Grid};

    // Its text on this grid of these nodes.
    ghost drawn: { Grid → List Bytes → Self → List ℕ };

    /// Its text.
    fn text(&self, alloc: Global, grid: &Grid, nodes: &[NodeName]) -> Result<String, AllocError>
        ensures { IfOk result (λ s. string_bytes s ≡ drawn grid.now nodes.now self.now) };
}

/// The texts of these pieces, one behind the other.
pub fn pieces_text<P: Piece>(
    alloc: Global,
    grid: &Grid,
    nodes: &[NodeName],
    pieces: &[P],
) -> Result<String, AllocError>
    ensures { IfOk result (λ s. string_bytes s ≡ flat_map (P.drawn grid.now nodes.now) pieces.now) }
{
    let mut text = String::new(alloc);
    for piece in pieces {
        let piece = piece.text(alloc, grid, nodes)?;
        text.push_str(piece.as_str())?;
    }
    Ok(text)
}
