//! The boards by example.
ghost use Rattle.boards.specs.Boards.{empty_board};
ghost use Rattle.std.proofs.Common.{rules};

use boards::{Board, Either, Joined, Resizable, is_empty, with_reach};
use bracket::{BoardText, Kind, Side};
use console::make_board;
use deadline::Deadline;
use fixed::Fixed;
use refusals::Refusal;
use std::process::Abort;
use std::test::Fail;

// A board that serves no component.
#[derive(Drop)]
struct Nobody;

impl Board for Nobody {
    ghost means = { λ _. empty_board 0 };

    ghost added = { λ _ _ _ _ _. Unit {0} };

    ghost struck = { λ _ _ _ _. Unit {0} };

    ghost lawful = { Prim.search rules };

    fn reach(&self) -> u64 {
        0
    }

    fn add(&mut self, _component: u64, _task: u64, _due: u64) -> Result<(), Refusal> {
        Err(Refusal::UnknownComponent)
    }

    fn strike(&mut self, _component: u64, _task: u64) -> Result<(), Refusal> {
        Err(Refusal::UnknownComponent)
    }

    fn pending(&self, _component: u64) -> bool {
        false
    }

    fn pick(&self, _component: u64) -> Option<u64> {
        None
    }
}

// What every board refuses, tried at a component below the reach on a board without jobs.
fn refuses<B: Board>(rt: &impl Abort, board: &mut B, component: u64) {
    assert!(rt; is_empty(board));
    let reach = board.reach();
    assert_eq!(rt; board.add(reach, 9, 1), Err(Refusal::UnknownComponent));
    assert_eq!(rt; board.add(u64::MAX, 0, 1), Err(Refusal::UnknownComponent));
    assert_eq!(rt; board.add(component, 8, 1), Err(Refusal::UnknownTask));
    assert_eq!(rt; board.add(component, 7, 1), Ok(()));
    assert_eq!(rt; board.add(component, 7, 2), Err(Refusal::JobPending));
    assert!(rt; !is_empty(board));
    assert_eq!(rt; board.strike(reach, 9), Err(Refusal::UnknownComponent));
    assert_eq!(rt; board.strike(component, 8), Err(Refusal::UnknownTask));
    assert_eq!(rt; board.strike(component, 6), Err(Refusal::JobNotPending));
    assert_eq!(rt; board.pick(component), Some(7));
    assert_eq!(rt; board.strike(component, 7), Ok(()));
    assert_eq!(rt; board.strike(component, 7), Err(Refusal::JobNotPending));
    assert!(rt; !board.pending(component));
    assert!(rt; !board.pending(reach));
    assert_eq!(rt; board.pick(reach), None);
    assert!(rt; is_empty(board));
}

#[test]
fn every_board_refuses_alike(rt: HostRuntime) -> Result<(), Fail> {
    refuses(&rt, &mut with_reach::<Fixed>(3)?, 2);
    refuses(&rt, &mut Deadline::new(), 7);
    let mut joined = Joined::new(with_reach::<Fixed>(3)?, with_reach::<Deadline>(5)?);
    refuses(&rt, &mut joined, 2);
    refuses(&rt, &mut joined, 3);
    refuses(&rt, &mut joined, 7);
    let mut either: Either<Fixed, Deadline> = Either::Second(with_reach::<Deadline>(1)?);
    refuses(&rt, &mut either, 0);
    Ok(())
}

#[test]
fn a_fixed_board_picks_the_smallest_task(rt: HostRuntime) {
    let mut board = Fixed::new();
    assert!(rt; board.reach() == 8);
    assert_eq!(rt; board.add(4, 6, 10), Ok(()));
    assert_eq!(rt; board.add(4, 2, 99), Ok(()));
    assert_eq!(rt; board.add(5, 0, 1), Ok(()));
    assert_eq!(rt; board.pick(4), Some(2));
    assert_eq!(rt; board.pick(5), Some(0));
    assert_eq!(rt; board.pick(3), None);
    assert_eq!(rt; board.strike(4, 2), Ok(()));
    assert_eq!(rt; board.pick(4), Some(6));
    assert!(rt; board.pending(4));
    assert!(rt; !board.pending(3));
}

#[test]
fn a_deadline_board_picks_the_smallest_due_time_and_then_the_smaller_task(rt: HostRuntime) {
    let mut board = Deadline::new();
    assert!(rt; board.reach() == 8);
    assert_eq!(rt; board.add(1, 5, 40), Ok(()));
    assert_eq!(rt; board.add(1, 3, 40), Ok(()));
    assert_eq!(rt; board.add(1, 0, 41), Ok(()));
    assert_eq!(rt; board.add(0, 7, 50), Ok(()));
    assert_eq!(rt; board.pick(1), Some(3));
    assert_eq!(rt; board.pick(0), Some(7));
    assert_eq!(rt; board.strike(1, 3), Ok(()));
    assert_eq!(rt; board.pick(1), Some(5));
    assert_eq!(rt; board.add(1, 6, 39), Ok(()));
    assert_eq!(rt; board.pick(1), Some(6));
    assert_eq!(rt; board.strike(1, 6), Ok(()));
    assert_eq!(rt; board.strike(1, 5), Ok(()));
    assert_eq!(rt; board.pick(1), Some(0));
    assert_eq!(rt; board.add(1, 1, u64::MAX), Ok(()));
    assert_eq!(rt; board.pick(1), Some(0));
}

// All 64 jobs, in an order that is neither that of the due times nor its reverse.
fn fill(rt: &impl Abort, board: &mut Deadline) {
    for component in 0..8 {
        for task in 0..8 {
            let due = (component * 8 + task) * 37 % 64;
            assert_eq!(rt; board.add(component, task, due), Ok(()));
        }
    }
    for component in 0..8 {
        assert_eq!(rt; board.add(component, 0, 0), Err(Refusal::JobPending));
    }
}

// The picks come by rising due time, until nothing is left.
fn empty(rt: &impl Abort, board: &mut Deadline) -> Result<(), Fail> {
    for component in 0..8 {
        let mut before = 0;
        for _ in 0..8 {
            let task = board.pick(component).ok_or("no pick")?;
            assert!(rt; task < 8);
            let due = (component * 8 + task) * 37 % 64;
            assert!(rt; before <= due);
            before = due;
            assert_eq!(rt; board.strike(component, task), Ok(()));
        }
        assert_eq!(rt; board.pick(component), None);
    }
    assert!(rt; is_empty(board));
    Ok(())
}

#[test]
fn a_deadline_board_holds_all_64_jobs_and_again(rt: HostRuntime) -> Result<(), Fail> {
    let mut board = Deadline::new();
    fill(&rt, &mut board);
    empty(&rt, &mut board)?;
    fill(&rt, &mut board);
    empty(&rt, &mut board)
}

#[test]
fn the_reach_is_1_to_8_and_set_on_an_empty_board(rt: HostRuntime) {
    let mut board = Fixed::new();
    assert_eq!(rt; board.set_reach(0), Err(Refusal::ReachRange));
    assert_eq!(rt; board.set_reach(9), Err(Refusal::ReachRange));
    assert_eq!(rt; board.set_reach(1), Ok(()));
    assert_eq!(rt; board.add(0, 0, 5), Ok(()));
    assert_eq!(rt; board.set_reach(9), Err(Refusal::ReachRange));
    assert_eq!(rt; board.set_reach(8), Err(Refusal::BoardNotEmpty));
    assert!(rt; board.reach() == 1);
    assert_eq!(rt; board.strike(0, 0), Ok(()));
    assert_eq!(rt; board.set_reach(8), Ok(()));
    assert!(rt; board.reach() == 8);
    let mut dated = Deadline::new();
    assert_eq!(rt; dated.set_reach(u64::MAX), Err(Refusal::ReachRange));
    assert_eq!(rt; dated.add(7, 0, 5), Ok(()));
    assert_eq!(rt; dated.set_reach(4), Err(Refusal::BoardNotEmpty));
    assert!(rt; dated.reach() == 8);
    assert_eq!(rt; dated.strike(7, 0), Ok(()));
    assert_eq!(rt; dated.set_reach(4), Ok(()));
    assert_eq!(rt; dated.add(4, 0, 5), Err(Refusal::UnknownComponent));
}

#[test]
fn a_board_is_made_with_a_reach_of_1_to_8(rt: HostRuntime) -> Result<(), Fail> {
    assert_eq!(rt; with_reach::<Fixed>(0).err(), Some(Refusal::ReachRange));
    assert_eq!(rt; with_reach::<Fixed>(9).err(), Some(Refusal::ReachRange));
    assert_eq!(rt;
        with_reach::<Deadline>(u64::MAX).err(),
        Some(Refusal::ReachRange)
    );
    let smallest = with_reach::<Deadline>(1)?;
    assert!(rt; smallest.reach() == 1);
    assert!(rt; is_empty(&smallest));
    let largest = with_reach::<Fixed>(8)?;
    assert!(rt; largest.reach() == 8);
    assert!(rt; is_empty(&largest));
    Ok(())
}

#[test]
fn a_join_counts_the_second_board_from_its_start(rt: HostRuntime) -> Result<(), Fail> {
    let mut board = Joined::new(with_reach::<Fixed>(3)?, with_reach::<Deadline>(5)?);
    assert!(rt; board.reach() == 8);
    assert_eq!(rt; board.add(2, 4, 7), Ok(()));
    assert_eq!(rt; board.add(2, 1, 9), Ok(()));
    assert_eq!(rt; board.add(3, 4, 7), Ok(()));
    assert_eq!(rt; board.add(3, 1, 9), Ok(()));
    assert_eq!(rt; board.add(7, 0, 1), Ok(()));
    assert_eq!(rt; board.pick(2), Some(1));
    assert_eq!(rt; board.pick(3), Some(4));
    assert_eq!(rt; board.pick(7), Some(0));
    assert!(rt; !board.pending(4));
    assert!(rt; !board.pending(0));
    assert_eq!(rt; board.strike(3, 4), Ok(()));
    assert_eq!(rt; board.pick(2), Some(1));
    assert_eq!(rt; board.pick(3), Some(1));
    Ok(())
}

#[test]
fn what_lies_past_8_belongs_to_no_component(rt: HostRuntime) -> Result<(), Fail> {
    let mut second = with_reach::<Deadline>(8)?;
    assert_eq!(rt; second.add(1, 2, 3), Ok(()));
    assert_eq!(rt; second.add(2, 5, 6), Ok(()));
    let mut board = Joined::new(with_reach::<Fixed>(6)?, second);
    assert!(rt; board.reach() == 8);
    assert_eq!(rt; board.pick(7), Some(2));
    assert!(rt; !board.pending(8));
    assert_eq!(rt; board.pick(8), None);
    assert_eq!(rt; board.add(8, 0, 0), Err(Refusal::UnknownComponent));
    assert_eq!(rt; board.strike(8, 5), Err(Refusal::UnknownComponent));
    let small = Joined::new(with_reach::<Fixed>(1)?, with_reach::<Fixed>(2)?);
    assert!(rt; small.reach() == 3);
    assert_eq!(rt; small.pick(3), None);
    Ok(())
}

#[test]
fn a_join_of_joins_is_a_board(rt: HostRuntime) -> Result<(), Fail> {
    let left = Joined::new(with_reach::<Fixed>(1)?, with_reach::<Deadline>(2)?);
    let right = Joined::new(with_reach::<Deadline>(2)?, with_reach::<Fixed>(4)?);
    let mut board = Joined::new(left, right);
    assert!(rt; board.reach() == 8);
    assert_eq!(rt; board.add(0, 3, 9), Ok(()));
    assert_eq!(rt; board.add(2, 3, 9), Ok(()));
    assert_eq!(rt; board.add(2, 4, 8), Ok(()));
    assert_eq!(rt; board.add(4, 1, 9), Ok(()));
    assert_eq!(rt; board.add(4, 7, 2), Ok(()));
    assert_eq!(rt; board.add(7, 6, 1), Ok(()));
    assert_eq!(rt; board.pick(0), Some(3));
    assert_eq!(rt; board.pick(2), Some(4));
    assert_eq!(rt; board.pick(4), Some(7));
    assert_eq!(rt; board.pick(7), Some(6));
    assert!(rt; !board.pending(1));
    assert_eq!(rt; board.add(8, 0, 0), Err(Refusal::UnknownComponent));
    Ok(())
}

#[test]
fn a_board_may_serve_no_component(rt: HostRuntime) -> Result<(), Fail> {
    let mut second = Joined::new(Nobody, with_reach::<Fixed>(2)?);
    assert!(rt; second.reach() == 2);
    refuses(&rt, &mut second, 0);
    refuses(&rt, &mut second, 1);
    let mut first = Joined::new(with_reach::<Deadline>(2)?, Nobody);
    assert!(rt; first.reach() == 2);
    refuses(&rt, &mut first, 1);
    let mut none = Joined::new(Nobody, Nobody);
    assert!(rt; none.reach() == 0);
    assert!(rt; is_empty(&none));
    assert_eq!(rt; none.add(0, 0, 0), Err(Refusal::UnknownComponent));
    Ok(())
}

fn side(kind: Kind, reach: u64) -> Side {
    Side { kind, reach }
}

#[test]
fn a_text_asks_for_a_join_of_a_fixed_and_a_deadline_board(rt: HostRuntime) -> Result<(), Fail> {
    let mut board = make_board(BoardText::Join(side(Kind::Fixed, 3), side(Kind::Deadline, 5)))?;
    assert!(rt; board.reach() == 8);
    assert!(rt; is_empty(&board));
    for component in 2..4 {
        assert_eq!(rt; board.add(component, 6, 1), Ok(()));
        assert_eq!(rt; board.add(component, 1, 9), Ok(()));
    }
    assert_eq!(rt; board.pick(2), Some(1));
    assert_eq!(rt; board.pick(3), Some(6));
    Ok(())
}

#[test]
fn a_text_with_a_reach_of_9_makes_no_board(rt: HostRuntime) {
    assert_eq!(rt;
        make_board(BoardText::Single(side(Kind::Fixed, 9))).err(),
        Some(Refusal::ReachRange)
    );
    assert_eq!(rt;
        make_board(BoardText::Join(side(Kind::Fixed, 8), side(Kind::Deadline, 9))).err(),
        Some(Refusal::ReachRange)
    );
}
