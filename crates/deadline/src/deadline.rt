//! The deadline board.
ghost use Rattle.std.specs.Prelude.{◌≡◌, ◌≤◌, true};
ghost use Rattle.std.proofs.Props.{props};
ghost use Rattle.line.specs.Lines.{records_of};
ghost use Rattle.line.specs.Order.{sorted};
ghost use Rattle.line.specs.Records.{job_le};
ghost use Rattle.fixed.specs.FixedBoards.{fixed_pending};
ghost use Rattle.deadline.specs.Queues.{SameJobs, Distinct};

use boards::{Board, Resizable};
use fixed::Fixed;
use line::{Job, Line};
use refusals::Refusal;

/// How many jobs can be pending at once: 8 tasks of 8 components.
const JOBS: usize = 64;

/// A board that picks by earliest deadline: the job with the smallest due time, and of those the
/// smaller task.
///
/// The jobs are kept twice: in a line, in the order of their due times, and on a fixed board, where
/// one look at a byte tells whether a component has a job, or has this one. A line is lent its memory
/// at each call, and keeps none: the table of places is what this one is lent.
#[derive(Drop)]
pub struct Deadline {
    sets: Fixed,
    line: Line,
    places: [Job; JOBS],
    ghost fits: { line.held ≤ 64 },
    ghost same: { SameJobs (fixed_pending sets) (records_of line places) },
    ghost apart: { Distinct (records_of line places) } by { Prim.hlevel props },
    ghost in_order: { sorted job_le (records_of line places) ≡ true },
}

impl Deadline {
    ghost use Rattle.deadline.specs.Queues.{place_of, first_of};
    ghost use Rattle.deadline.specs.DeadlineBoards.{queue};

    // The pending jobs, in the order of their due times.
    fn jobs(&self) -> &[Job]
        ensures { result.now ≡ queue self.now }
    {
        self.line.records(&self.places)
    }

    // How many jobs stand before that of the component's task; all of them where there is none.
    fn place_of(&self, component: u64, task: u64) -> usize
        ensures { result ≡ place_of component task (queue self.now) }
    {
        let jobs = self.jobs();
        jobs.iter()
            .position(|job| u64::from(job.component) == component && u64::from(job.task) == task)
            .unwrap_or(jobs.len())
    }

    // The task of the component's first job.
    fn first_of(&self, component: u64) -> Option<u64>
        ensures { result ≡ first_of component (queue self.now) }
    {
        self.jobs()
            .iter()
            .find(|job| u64::from(job.component) == component)
            .map(|job| u64::from(job.task))
    }
}

impl Board for Deadline {
    ghost use Rattle.deadline.specs.Queues.{Earliest};
    ghost use Rattle.deadline.specs.DeadlineBoards.{queue, deadline_means, DeadlineAdded, DeadlineStruck};
    ghost use Rattle.deadline.specs.Deadlines.{deadline_lawful};

    ghost means = { deadline_means };

    ghost added = { DeadlineAdded };

    ghost struck = { DeadlineStruck };

    ghost lawful = { deadline_lawful };

    fn reach(&self) -> u64 {
        self.sets.reach()
    }

    fn add(&mut self, component: u64, task: u64, due: u64) -> Result<(), Refusal> {
        self.sets.add(component, task, due)?;
        // both are below 8 once accepted, so no bit is lost; `try_from` would add a refusal
        let job = Job {
            due,
            component: component as u8,
            task: task as u8,
        };
        self.line.add(&mut self.places, job)
    }

    fn strike(&mut self, component: u64, task: u64) -> Result<(), Refusal> {
        // found first, while the line agrees with the fixed board
        let at = self.place_of(component, task);
        self.sets.strike(component, task)?;
        self.line.take(&mut self.places, at).map(|_| ())
    }

    fn pending(&self, component: u64) -> bool {
        self.sets.pending(component)
    }

    fn pick(&self, component: u64) -> Option<u64>
        ensures is { result ≡ (deadline_means self.now).picked component }
        ensures earliest { Earliest component (queue self.now) result }
    {
        self.first_of(component)
    }
}

impl Resizable for Deadline {
    fn new() -> Deadline {
        // fills places that none reads; a `Default` of `Job` would be a job that means nothing
        let unused = Job {
            due: 0,
            component: 0,
            task: 0,
        };
        let sets = Fixed::new();
        Deadline {
            sets,
            line: Line::new(),
            places: [unused; JOBS],
        }
    }

    fn set_reach(&mut self, reach: u64) -> Result<(), Refusal> {
        self.sets.set_reach(reach)
    }
}
