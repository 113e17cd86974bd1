//! A component of a plan.
ghost use Rattle.std.specs.Prelude.{◌≡◌, ◌<◌, ◌≤◌};
ghost use Rattle.arrayvec.specs.ArrayVec.{array_vec_len};
ghost use Rattle.controller.specs.Rules.{fresh, with_task, with_use, uses_of};

use arrayvec::ArrayVec;

/// How many tasks a component may have.
pub(crate) const TASKS: usize = 8;

/// How many resources there are.
pub(crate) const RESOURCES: usize = 16;

/// A component: a budget in each period, and the tasks and resources that share it. The default
/// stands at the places of a plan that no component takes.
#[derive(Default, Drop)]
pub struct Component {
    pub(crate) level: u8,
    pub(crate) budget: u32,
    pub(crate) period: u32,
    // relative deadlines of the tasks declared so far
    pub(crate) deadlines: ArrayVec<u32, TASKS>,
    // the longest access that the component declares for each resource
    pub(crate) accesses: [Option<u32>; RESOURCES],
}

impl Component {
    /// A component that has no task and no use yet.
    pub(crate) fn new(level: u8, budget: u32, period: u32) -> Component
        ensures { result ≡ fresh level budget period }
    {
        Component {
            level,
            budget,
            period,
            deadlines: ArrayVec::new(),
            accesses: [None; RESOURCES],
        }
    }

    /// Declares one more task.
    pub(crate) fn add_task(&mut self, deadline: u32)
        requires { array_vec_len self.old.deadlines < 8 }
        ensures { self.new ≡ with_task self.old deadline }
    {
        self.deadlines.push(deadline);
    }

    /// Declares a use of the resource.
    pub(crate) fn add_use(&mut self, resource: usize, access: u32)
        requires { resource < 16 }
        ensures { self.new ≡ with_use self.old resource access }
    {
        self.accesses[resource] = Some(access);
    }

    /// How many uses the component declares.
    pub(crate) fn uses(&self) -> usize
        ensures number { result ≡ uses_of self.now }
        ensures few { result ≤ 16 }
    {
        // a loop: `filter` and `count` took four times the time of it
        let mut uses = 0;
        for access in &self.accesses {
            if access.is_some() {
                uses += 1;
            }
        }
        uses
    }
}
