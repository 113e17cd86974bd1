//! The two kinds of record that lines hold, each in the order of its fields.
ghost use Rattle.line.specs.Records.{job_le, refill_le};
ghost use Rattle.std.proofs.Common.{rules};

use crate::ranked::Ranked;

/// A pending job of a deadline board.
#[derive(Clone, Copy, PartialEq, Eq, PartialOrd, Ord, Debug)]
pub struct Job {
    /// The time by which the job is due.
    pub due: u64,
    /// The component of the job.
    pub component: u8,
    /// The component's task.
    pub task: u8,
}

// The two impls are alike but for their order: each impl states its laws itself, and a macro may write none.
impl Ranked for Job {
    ghost le = { job_le };

    ghost reflexive = { Prim.search rules };

    ghost total = { Prim.search rules };

    ghost transitive = { Prim.search rules };

    ghost antisymmetric = { Prim.search rules };

    fn at_most(&self, other: &Job) -> bool {
        self <= other
    }
}

/// The next refill of a component's budget.
#[derive(Clone, Copy, PartialEq, Eq, PartialOrd, Ord, Debug)]
pub struct Refill {
    /// The time of the refill.
    pub due: u64,
    /// The component whose budget is refilled.
    pub component: u8,
}

impl Ranked for Refill {
    ghost le = { refill_le };

    ghost reflexive = { Prim.search rules };

    ghost total = { Prim.search rules };

    ghost transitive = { Prim.search rules };

    ghost antisymmetric = { Prim.search rules };

    fn at_most(&self, other: &Refill) -> bool {
        self <= other
    }
}
