//! The limits of every declaration: the last number accepted and the first one refused.
use controller::{Controller, Counts};
use refusals::Refusal;

#[test]
fn components(rt: HostRuntime) {
    let mut c = Controller::new(());
    assert_eq!(rt; c.component(201, 1, 10), Err(Refusal::LevelRange));
    assert_eq!(rt; c.component(0, 1, 10), Err(Refusal::LevelRange));
    assert_eq!(rt; c.component(200, 10, 10), Ok(0));
    assert_eq!(rt; c.component(200, 1, 10), Err(Refusal::LevelTaken));
    assert_eq!(rt; c.component(1, 11, 10), Err(Refusal::BudgetRange));
    assert_eq!(rt; c.component(1, 0, 10), Err(Refusal::BudgetRange));
    assert_eq!(rt; c.component(1, 1, 1_000_001), Err(Refusal::PeriodRange));
    assert_eq!(rt; c.component(1, 1, 0), Err(Refusal::PeriodRange));
    assert_eq!(rt; c.component(1, 1, 1_000_000), Ok(1));
    for level in 2..8 {
        assert_eq!(rt; c.component(level, 1, 1), Ok(level));
    }
    assert_eq!(rt; c.component(8, 1, 1), Err(Refusal::ComponentLimit));
}

#[test]
fn tasks(rt: HostRuntime) {
    let mut c = Controller::new(());
    assert_eq!(rt; c.task(0, 1), Err(Refusal::UnknownComponent));
    assert_eq!(rt; c.component(5, 1, 10), Ok(0));
    assert_eq!(rt; c.task(1, 1), Err(Refusal::UnknownComponent));
    assert_eq!(rt; c.task(0, 0), Err(Refusal::DeadlineRange));
    assert_eq!(rt; c.task(0, 1_000_001), Err(Refusal::DeadlineRange));
    assert_eq!(rt; c.task(0, 1_000_000), Ok(0));
    for number in 1..8 {
        assert_eq!(rt; c.task(0, 1), Ok(number));
    }
    assert_eq!(rt; c.task(0, 1), Err(Refusal::TaskLimit));
}

#[test]
fn uses(rt: HostRuntime) {
    let mut c = Controller::new(());
    assert_eq!(rt; c.component(5, 3, 10), Ok(0));
    assert_eq!(rt; c.component(6, 1, 10), Ok(1));
    assert_eq!(rt; c.declare_use(2, 0, 1), Err(Refusal::UnknownComponent));
    assert_eq!(rt; c.declare_use(0, 16, 1), Err(Refusal::ResourceRange));
    assert_eq!(rt; c.declare_use(0, 15, 0), Err(Refusal::AccessRange));
    assert_eq!(rt; c.declare_use(0, 15, 4), Err(Refusal::AccessRange));
    assert_eq!(rt; c.declare_use(0, 15, 3), Ok(()));
    assert_eq!(rt; c.declare_use(0, 15, 3), Err(Refusal::UseTwice));
    assert_eq!(rt; c.declare_use(1, 15, 1), Ok(()));
    assert_eq!(rt; c.task(1, 7), Ok(0));
    assert_eq!(rt;
        c.counts(),
        Counts {
            components: 2,
            tasks: 1,
            uses: 2,
        }
    );
}

// A number too large for a table is refused as it stands, and not cut to one that fits.
#[test]
fn largest(rt: HostRuntime) {
    let mut c = Controller::new(());
    assert_eq!(rt; c.component(u64::MAX, 1, 10), Err(Refusal::LevelRange));
    assert_eq!(rt; c.component(256 + 7, 1, 10), Err(Refusal::LevelRange));
    assert_eq!(rt; c.component(7, 1, u64::MAX), Err(Refusal::PeriodRange));
    assert_eq!(rt; c.component(7, u64::MAX, 10), Err(Refusal::BudgetRange));
    assert_eq!(rt;
        c.component(7, 4_294_967_296 + 1, 10),
        Err(Refusal::BudgetRange)
    );
    assert_eq!(rt; c.component(7, 1, 10), Ok(0));
    assert_eq!(rt; c.task(u64::MAX, 1), Err(Refusal::UnknownComponent));
    assert_eq!(rt; c.task(0, u64::MAX), Err(Refusal::DeadlineRange));
    assert_eq!(rt;
        c.declare_use(u64::MAX, 0, 1),
        Err(Refusal::UnknownComponent)
    );
    assert_eq!(rt; c.declare_use(0, u64::MAX, 1), Err(Refusal::ResourceRange));
    assert_eq!(rt; c.declare_use(0, 0, u64::MAX), Err(Refusal::AccessRange));
}
