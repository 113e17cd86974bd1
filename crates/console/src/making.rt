//! The board that a text asks for.
ghost use Rattle.std.specs.Prelude.{◌≡◌, IfOk};
ghost use Rattle.std.specs.Result.{result_err};
ghost use Rattle.console.specs.Making.{side_refusal, board_refusal, SideMade, BoardMade};

use boards::{Either, Joined, with_reach};
use bracket::{BoardText, Kind, Side};
use deadline::Deadline;
use fixed::Fixed;
use refusals::Refusal;

/// A board of either kind.
pub type SideBoard = Either<Fixed, Deadline>;

/// The one place for whichever board a text asks for: a single one, or two that are joined.
pub type TextBoard = Either<SideBoard, Joined<SideBoard, SideBoard>>;

fn make_side(side: Side) -> Result<SideBoard, Refusal>
    ensures refusal { result_err result ≡ side_refusal side }
    ensures board { IfOk result (λ b. SideMade side b) }
{
    match side.kind {
        Kind::Fixed => with_reach(side.reach).map(Either::First),
        Kind::Deadline => with_reach(side.reach).map(Either::Second),
    }
}

/// Makes the board that a text asks for, with no job on it.
pub fn make_board(text: BoardText) -> Result<TextBoard, Refusal>
    ensures refusal { result_err result ≡ board_refusal text }
    ensures board { IfOk result (λ b. BoardMade text b) }
{
    match text {
        BoardText::Single(side) => make_side(side).map(Either::First),
        BoardText::Join(first, second) => {
            let first = make_side(first)?;
            let second = make_side(second)?;
            Ok(Either::Second(Joined::new(first, second)))
        }
    }
}
