//! The board by fixed priority: a set of tasks for each component.
ghost use Rattle.std.specs.Prelude.{◌≤◌};
ghost use Rattle.fixed.specs.Tasks.{ClearFrom};

use crate::tasks::TaskSet;
use boards::{Board, Resizable, is_empty};
use refusals::Refusal;

/// A board that picks by fixed priority: the smaller a task's number is, the earlier it runs. It
/// keeps one byte for each component.
#[derive(Drop)]
pub struct Fixed {
    // a table of eight sets and no vector of `reach` sets, which would have to be filled anew each time
    // that the reach is set
    reach: u64,
    sets: [TaskSet; 8],
    ghost eight: { reach ≤ 8 },
    ghost clear: { ClearFrom reach sets },
}

impl Fixed {
    ghost use Rattle.std.specs.Prelude.{◌≡◌, IfOk, nat_lt};
    ghost use Rattle.std.specs.Bool.{then_some};
    ghost use Rattle.std.specs.Result.{result_err};
    ghost use Rattle.boards.specs.Boards.{job_refusal};
    ghost use Rattle.fixed.specs.Tasks.{set_at};
    ghost use Rattle.fixed.specs.FixedBoards.{fixed_means};

    // The component's set, if the component is below the reach.
    fn tasks_of(&self, component: u64) -> Option<TaskSet>
        ensures { result ≡ then_some (nat_lt component self.now.reach) (set_at self.now.sets component) }
    {
        // `as`, here and below: From has nothing from u64 to usize, and a component below the reach fits
        (component < self.reach).then(|| self.sets[component as usize])
    }

    // The component's set, for a call on one of its tasks. The call writes it back: a `&mut` to it
    // would need a starred clause with the proof of `clear` at each value that may be left there.
    fn tasks_of_job(&self, component: u64, task: u64) -> Result<TaskSet, Refusal>
        ensures refusal { result_err result ≡ job_refusal (fixed_means self.now) component task }
        ensures set { IfOk result (λ set. set ≡ set_at self.now.sets component) }
    {
        let set = self.tasks_of(component).ok_or(Refusal::UnknownComponent)?;
        if task > 7 {
            return Err(Refusal::UnknownTask);
        }
        Ok(set)
    }
}

impl Board for Fixed {
    ghost use Rattle.std.specs.Prelude.{◌≡◌};
    ghost use Rattle.fixed.specs.Tasks.{Smallest};
    ghost use Rattle.fixed.specs.FixedBoards.{fixed_pending, fixed_means};
    ghost use Rattle.fixed.specs.Fixeds.{fixed_lawful};

    ghost means = { fixed_means };

    // the board keeps nothing beyond its meaning
    ghost added = { λ _ _ _ _ _. Unit {0} };

    ghost struck = { λ _ _ _ _. Unit {0} };

    ghost lawful = { fixed_lawful };

    fn reach(&self) -> u64 {
        self.reach
    }

    fn add(&mut self, component: u64, task: u64, _due: u64) -> Result<(), Refusal> {
        let set = self.tasks_of_job(component, task)?;
        if set.contains(task) {
            return Err(Refusal::JobPending);
        }
        self.sets[component as usize] = set.with(task);
        Ok(())
    }

    fn strike(&mut self, component: u64, task: u64) -> Result<(), Refusal> {
        let set = self.tasks_of_job(component, task)?;
        if !set.contains(task) {
            return Err(Refusal::JobNotPending);
        }
        self.sets[component as usize] = set.without(task);
        Ok(())
    }

    fn pending(&self, component: u64) -> bool {
        self.tasks_of(component).is_some_and(|set| !set.is_empty())
    }

    fn pick(&self, component: u64) -> Option<u64>
        ensures is { result ≡ (fixed_means self.now).picked component }
        ensures smallest { Smallest (fixed_pending self.now component) result }
    {
        self.tasks_of(component)?.smallest()
    }
}

impl Resizable for Fixed {
    fn new() -> Fixed {
        Fixed {
            reach: 8,
            sets: [TaskSet::new(); 8],
        }
    }

    fn set_reach(&mut self, reach: u64) -> Result<(), Refusal> {
        if !(1..=8).contains(&reach) {
            return Err(Refusal::ReachRange);
        }
        if !is_empty(self) {
            return Err(Refusal::BoardNotEmpty);
        }
        self.reach = reach;
        Ok(())
    }
}
