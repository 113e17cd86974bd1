//! The controller that callers see.
ghost use Rattle.std.specs.Prelude.{◌≡◌, []};
ghost use Rattle.controller.specs.Components.{counts_of};
ghost use Rattle.controller.specs.Draft.{component_answer, component_declared, task_answer, task_declared, use_answer, use_declared};
ghost use Rattle.controller.specs.View.{drafted};

use crate::counts::Counts;
use crate::plan::Plan;
use refusals::Refusal;

/// A plan in the making, and the board on which its jobs will stand.
#[derive(Drop)]
pub struct Controller<B> {
    board: B,
    plan: Plan,
}

// That the board stays as it was is said of each call: no type can, since calls to come will change it.
impl<B> Controller<B> {
    /// A controller that drafts a plan, of which nothing is declared yet.
    pub fn new(board: B) -> Controller<B>
        ensures plan { drafted result ≡ [] }
        ensures board { result.board ≡ board }
    {
        Controller {
            board,
            plan: Plan::new(),
        }
    }

    /// Declares a component, and answers its number. Components are numbered from 0 on, at most 8
    /// of them.
    ///
    /// The level is from 1 to 200, and no other component's; the larger it is, the more urgent is
    /// the component. The period is from 1 to 1,000,000, and the budget from 1 to the period.
    pub fn component(&mut self, level: u64, budget: u64, period: u64) -> Result<u64, Refusal>
        ensures answer { result ≡ component_answer (drafted self.old) level budget period }
        ensures plan { drafted self.new ≡ component_declared (drafted self.old) level budget period }
        ensures board { self.new.board ≡ self.old.board }
    {
        self.plan.component(level, budget, period)
    }

    /// Declares a task of a component, and answers its number there. The tasks of a component are
    /// numbered from 0 on, at most 8 of them.
    ///
    /// The deadline, from the release of a job on, is from 1 to 1,000,000.
    pub fn task(&mut self, component: u64, deadline: u64) -> Result<u64, Refusal>
        ensures answer { result ≡ task_answer (drafted self.old) component deadline }
        ensures plan { drafted self.new ≡ task_declared (drafted self.old) component deadline }
        ensures board { self.new.board ≡ self.old.board }
    {
        self.plan.task(component, deadline)
    }

    /// Declares that a component uses a resource, at most once for each resource from 0 to 15.
    ///
    /// The longest access is from 1 to the component's budget.
    pub fn declare_use(&mut self, component: u64, resource: u64, access: u64) -> Result<(), Refusal>
        ensures answer { result ≡ use_answer (drafted self.old) component resource access }
        ensures plan { drafted self.new ≡ use_declared (drafted self.old) component resource access }
        ensures board { self.new.board ≡ self.old.board }
    {
        self.plan.declare_use(component, resource, access)
    }

    /// How much is declared.
    pub fn counts(&self) -> Counts
        ensures { result ≡ counts_of (drafted self.now) }
    {
        self.plan.counts()
    }
}
