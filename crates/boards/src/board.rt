//! What every board does, stated once for all that is built on boards.
ghost use Rattle.std.specs.Prelude.{◌≡◌, ℕ, Decides, OnErr, OnOk};
ghost use Rattle.std.specs.Result.{result_err};
ghost use Rattle.boards.specs.Boards.{Meaning, Lawful, HasJob, add_refusal, strike_refusal, Gains, Loses};

use refusals::Refusal;

/// A board holds the pending jobs of the components below its reach, which is at most 8. Of each
/// component's tasks 0 to 7 a job is pending or not.
// A component and a task go together in two calls of the trait and in what serves them, and either may
// be out of range, to be refused: a struct of both would say nothing more.
pub trait Board {
    // what the board stands for: its reach, the pending jobs and the picks
    ghost means: { Self → Meaning };

    // what an added job leaves beyond that, by its component, task and due time
    ghost added: { Self → ℕ → ℕ → ℕ → Self → Type 0 };

    // what a struck job leaves beyond that, by its component and task
    ghost struck: { Self → ℕ → ℕ → Self → Type 0 };

    /// The number of components that the board serves.
    fn reach(&self) -> u64
        ensures { result ≡ (means self.now).reach };

    // that a refusal changes nothing is what each call promises of itself, and no type can say it

    /// Adds a job, due at a time.
    fn add(&mut self, component: u64, task: u64, due: u64) -> Result<(), Refusal>
        ensures refusal { result_err result ≡ add_refusal (means self.old) component task }
        ensures kept { OnErr result (self.new ≡ self.old) }
        ensures gains { OnOk result (Gains (means self.old) (means self.new) component task × added self.old component task due self.new) };

    /// Strikes a pending job.
    fn strike(&mut self, component: u64, task: u64) -> Result<(), Refusal>
        ensures refusal { result_err result ≡ strike_refusal (means self.old) component task }
        ensures kept { OnErr result (self.new ≡ self.old) }
        ensures loses { OnOk result (Loses (means self.old) (means self.new) component task × struck self.old component task self.new) };

    /// Whether a job of the component is pending.
    fn pending(&self, component: u64) -> bool
        ensures { Decides result (HasJob (means self.now) component) };

    /// The task whose job the component runs next, if any is pending.
    fn pick(&self, component: u64) -> Option<u64>
        ensures { result ≡ (means self.now).picked component };

    ghost lawful: { (b : Self) → Lawful (means b) };
}
