//! Two boards as one.
ghost use Rattle.std.specs.Prelude.{◌≡◌, ◌-◌};
ghost use Rattle.boards.specs.JoinedBoards.{joined, side_of, BySide};
ghost use Rattle.boards.specs.Joins.{joined_lawful};

use crate::board::Board;
use refusals::Refusal;

/// Two boards as one: the components of the first, and then those of the second, as far as eight
/// go.
#[derive(Drop)]
pub struct Joined<F, S> {
    first: F,
    second: S,
}

/// The board that has a component, with the component's number there. (Not `Either`, which is a board.)
#[derive(Clone, Copy)]
enum Side {
    First(u64),
    Second(u64),
}

impl<F, S> Joined<F, S> {
    /// Joins two boards, whatever is pending on them.
    pub fn new(first: F, second: S) -> Joined<F, S>
        ensures { (result.first ≡ first) × (result.second ≡ second) }
    {
        Joined { first, second }
    }
}

impl<F: Board, S: Board> Joined<F, S> {
    fn side(&self, component: u64) -> Option<Side>
        ensures { result ≡ side_of (F.Board.means self.now.first).reach (λ c. Some (Side.First c)) (λ c. Some (Side.Second c)) None component }
    {
        let own = self.first.reach();
        if component < own {
            Some(Side::First(component))
        } else if component < 8 {
            Some(Side::Second(component - own))
        } else {
            None
        }
    }
}

// The arms of a method differ in the board's type alone and are written out: a macro for the three of them would hide which board answers.
impl<F: Board, S: Board> Board for Joined<F, S> {
    ghost means = { λ j. joined (F.Board.means j.first) (S.Board.means j.second) };

    // the side to which the component belongs does as that board does, and the other is as it was
    ghost added = { λ j c t e k. BySide (F.Board.means j.first).reach c (F.Board.added j.first c t e k.first × (k.second ≡ j.second)) (S.Board.added j.second (c - (F.Board.means j.first).reach) t e k.second × (k.first ≡ j.first)) };

    ghost struck = { λ j c t k. BySide (F.Board.means j.first).reach c (F.Board.struck j.first c t k.first × (k.second ≡ j.second)) (S.Board.struck j.second (c - (F.Board.means j.first).reach) t k.second × (k.first ≡ j.first)) };

    ghost lawful = { λ b. joined_lawful _ _ (F.Board.lawful b.first) (S.Board.lawful b.second) };

    fn reach(&self) -> u64 {
        (self.first.reach() + self.second.reach()).min(8)
    }

    fn add(&mut self, component: u64, task: u64, due: u64) -> Result<(), Refusal> {
        match self.side(component) {
            Some(Side::First(own)) => self.first.add(own, task, due),
            Some(Side::Second(own)) => self.second.add(own, task, due),
            None => Err(Refusal::UnknownComponent),
        }
    }

    fn strike(&mut self, component: u64, task: u64) -> Result<(), Refusal> {
        match self.side(component) {
            Some(Side::First(own)) => self.first.strike(own, task),
            Some(Side::Second(own)) => self.second.strike(own, task),
            None => Err(Refusal::UnknownComponent),
        }
    }

    fn pending(&self, component: u64) -> bool {
        match self.side(component) {
            Some(Side::First(own)) => self.first.pending(own),
            Some(Side::Second(own)) => self.second.pending(own),
            None => false,
        }
    }

    fn pick(&self, component: u64) -> Option<u64> {
        match self.side(component)? {
            Side::First(own) => self.first.pick(own),
            Side::Second(own) => self.second.pick(own),
        }
    }
}
