//! The set of a component's tasks that have a pending job, in one byte.
ghost use Rattle.std.specs.Prelude.{◌≡◌, ℕ, ◌<◌, true, not, ◌&&◌, ◌||◌, Decides, ◌==◌};
ghost use Rattle.fixed.specs.Tasks.{member, no_tasks, smallest};

/// A set of the tasks 0 to 7: bit k of the byte is set where task k is in the set.
#[derive(Clone, Copy)]
pub(crate) struct TaskSet {
    bits: u8,
}

impl TaskSet {
    pub(crate) fn new() -> TaskSet
        ensures { result ≡ no_tasks }
    {
        TaskSet { bits: 0 }
    }

    pub(crate) fn is_empty(self) -> bool
        ensures { Decides (not result) ((t : ℕ) × (member self t ≡ true)) }
    {
        self.bits == 0
    }

    pub(crate) fn contains(self, task: u64) -> bool
        ensures { result ≡ member self task }
    {
        task < 8 && (self.bits >> task) & 1 == 1
    }

    /// The set with the task in it.
    pub(crate) fn with(self, task: u64) -> TaskSet
        requires { task < 8 }
        ensures { (t : ℕ) → member result t ≡ (member self t || t == task) }
    {
        TaskSet {
            bits: self.bits | (1 << task),
        }
    }

    /// The set without the task.
    pub(crate) fn without(self, task: u64) -> TaskSet
        requires { task < 8 }
        ensures { (t : ℕ) → member result t ≡ (member self t && not (t == task)) }
    {
        TaskSet {
            bits: self.bits & !(1 << task),
        }
    }

    /// The smallest task of the set: as many as there are clear bits below the lowest set one.
    pub(crate) fn smallest(self) -> Option<u64>
        ensures { result ≡ smallest (member self) }
    {
        // an early answer: with `then` the proof of the two cases did not close
        if self.bits == 0 {
            return None;
        }
        Some(u64::from(self.bits.trailing_zeros()))
    }
}
