//! One of two boards.
ghost use Rattle.boards.specs.EitherBoards.{either_means, Same};
ghost use Rattle.std.proofs.Common.{rules};

use crate::board::Board;
use refusals::Refusal;

/// A board that is one of two kinds, where only a run tells which: it does as that board does.
// Not the kit's `Either`: callers name the variants, and of that one only this much is needed.
#[derive(Drop)]
pub enum Either<F, S> {
    First(F),
    Second(S),
}

// What the board that is there does, in the same words for either kind.
macro_rules! on_either {
    ($either:expr, $board:ident => $call:expr) => {
        match $either {
            Either::First($board) => $call,
            Either::Second($board) => $call,
        }
    };
}

impl<F: Board, S: Board> Board for Either<F, S> {
    ghost means = { either_means F.Board.means S.Board.means };

    ghost added = { λ b c t e k. Same (λ x y. F.Board.added x c t e y) (λ x y. S.Board.added x c t e y) b k };

    ghost struck = { λ b c t k. Same (λ x y. F.Board.struck x c t y) (λ x y. S.Board.struck x c t y) b k };

    ghost lawful = { Prim.search rules };

    fn reach(&self) -> u64 {
        on_either!(self, board => board.reach())
    }

    fn add(&mut self, component: u64, task: u64, due: u64) -> Result<(), Refusal> {
        on_either!(self, board => board.add(component, task, due))
    }

    fn strike(&mut self, component: u64, task: u64) -> Result<(), Refusal> {
        on_either!(self, board => board.strike(component, task))
    }

    fn pending(&self, component: u64) -> bool {
        on_either!(self, board => board.pending(component))
    }

    fn pick(&self, component: u64) -> Option<u64> {
        on_either!(self, board => board.pick(component))
    }
}
