//! Boards that are made empty, of a reach that is chosen.
ghost use Rattle.std.specs.Prelude.{◌≡◌, IfOk, OnErr, OnOk};
ghost use Rattle.std.specs.Result.{result_err};
ghost use Rattle.boards.specs.Boards.{empty_board, made_refusal, reach_refusal};

use crate::board::Board;
use refusals::Refusal;

/// A board that is made empty, and whose reach is set while no job is pending on it.
pub trait Resizable: Board {
    /// A board of reach 8 on which no job is pending.
    fn new() -> Self
        ensures { Self.means result ≡ empty_board 8 };

    // that a refusal changes nothing is said here too, as of each call of `Board`

    /// Sets the reach, from 1 to 8, of a board on which no job is pending.
    fn set_reach(&mut self, reach: u64) -> Result<(), Refusal>
        ensures refusal { result_err result ≡ reach_refusal (Self.means self.old) reach }
        ensures kept { OnErr result (self.new ≡ self.old) }
        ensures set { OnOk result (Self.means self.new ≡ empty_board reach) };
}

/// A board of this reach, from 1 to 8, on which no job is pending.
#[tactic(auto, unfolding(crate::specs::Boards::occupied))]
pub fn with_reach<B: Resizable + Drop>(reach: u64) -> Result<B, Refusal>
    ensures refusal { result_err result ≡ made_refusal reach }
    ensures board { IfOk result (λ board. B.means board ≡ empty_board reach) }
{
    let mut board = B::new();
    board.set_reach(reach)?;
    Ok(board)
}
