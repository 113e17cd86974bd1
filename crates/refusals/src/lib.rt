//! Why a call is refused, and the number that stands for each cause.
#![tactic(auto)]

ghost use Rattle.std.specs.Prelude.{◌≡◌};
ghost use Rattle.refusals.specs.Numbers.{number_of};

/// The cause for which a call is refused, with the number by which it is reported.
#[derive(Clone, Copy, PartialEq, Eq, Debug)]
pub enum Refusal {
    /// A call of the draft while the plan runs, or any other call or question while it is drafted.
    WrongPhase = 1,
    /// A ninth component.
    ComponentLimit = 2,
    /// A level outside 1 to 200.
    LevelRange = 3,
    /// A level that another component has.
    LevelTaken = 4,
    /// A period outside 1 to 1,000,000.
    PeriodRange = 5,
    /// A budget outside 1 to the period.
    BudgetRange = 6,
    /// A component that is not declared, or not below a board's reach.
    UnknownComponent = 7,
    /// A ninth task of one component.
    TaskLimit = 8,
    /// A deadline outside 1 to 1,000,000.
    DeadlineRange = 9,
    /// A resource above 15.
    ResourceRange = 10,
    /// A second use of one resource by one component.
    UseTwice = 11,
    /// A longest access outside 1 to the component's budget.
    AccessRange = 12,
    /// A board's reach outside 1 to 8.
    ReachRange = 13,
    /// Sealing a plan that has no component.
    NoComponents = 14,
    /// A start above 10^15.
    StartRange = 15,
    /// A board whose reach is below the number of components.
    ReachTooSmall = 16,
    /// A board on which jobs are pending.
    BoardNotEmpty = 17,
    /// A task that is not declared, or, on a board, above 7.
    UnknownTask = 18,
    /// A job that is pending already.
    JobPending = 19,
    /// A caller that is not the one running.
    NotRunning = 20,
    /// A caller that holds a resource already.
    AlreadyHolding = 21,
    /// A lock of a resource whose use is not declared.
    UndeclaredUse = 22,
    /// An unlock of a resource that the caller's component does not hold.
    NotHeld = 23,
    /// A tick at clock 10^15.
    ClockEnd = 24,
    /// A job that is not pending.
    JobNotPending = 25,
    /// A line whose places are all taken.
    LineFull = 26,
    /// A position in a line at or past the number of records that it holds.
    PastEnd = 27,
}

impl Refusal {
    /// The number by which the cause is reported, from 1 on.
    pub fn number(self) -> u8
        ensures { result ≡ number_of self }
    {
        self as u8
    }
}
