//! Whether any job is pending, on any board.
ghost use Rattle.std.specs.Prelude.{◌≡◌, not, Decides};
ghost use Rattle.boards.specs.Boards.{Empty, occupied};

use crate::board::Board;

/// Whether no job is pending on a board.
pub fn is_empty<B: Board>(board: &B) -> bool
    ensures test { result ≡ not (occupied (B.Board.means board.now).pending) }
    ensures jobs { Decides result (Empty (B.Board.means board.now)) }
{
    !(0..board.reach()).any(|component| board.pending(component))
}
