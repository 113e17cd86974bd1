//! The commands that bracket text can say.

/// How a board picks the job that a component runs next.
#[derive(Clone, Copy, PartialEq, Eq, Debug)]
pub enum Kind {
    /// By fixed priority.
    Fixed,
    /// By earliest deadline.
    Deadline,
}

/// One board of a board form, with the reach as it is written.
#[derive(Clone, Copy, PartialEq, Eq, Debug)]
pub struct Side {
    pub kind: Kind,
    pub reach: u64,
}

/// The board that a text asks for: one board, or two that are joined.
#[derive(Clone, Copy, PartialEq, Eq, Debug)]
pub enum BoardText {
    Single(Side),
    Join(Side, Side),
}

/// One command. Its numbers are as they are written: whether they are in range is not the reader's concern.
// Each variant names the numbers of its own form, also where two forms have a component and a task alike.
#[derive(Clone, Copy, PartialEq, Eq, Debug)]
pub enum Command {
    Board(BoardText),
    Component {
        level: u64,
        budget: u64,
        period: u64,
    },
    Task {
        component: u64,
        deadline: u64,
    },
    Use {
        component: u64,
        resource: u64,
        access: u64,
    },
    Release {
        component: u64,
        task: u64,
    },
    Done {
        component: u64,
        task: u64,
    },
    Lock {
        component: u64,
        task: u64,
        resource: u64,
    },
    Unlock {
        component: u64,
        task: u64,
        resource: u64,
    },
    Tick,
    Runner,
    Budget {
        component: u64,
    },
    Ceiling,
    Holder {
        resource: u64,
    },
    Bound {
        component: u64,
    },
    Assured {
        component: u64,
    },
}
