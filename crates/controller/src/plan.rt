//! The plan that is drafted, declarations into it, and the causes for which one is refused.
ghost use Rattle.std.specs.Prelude.{◌≡◌, ◌<◌, ◌≤◌, [], length, Ok, Err, IfOk, IfErr, if◌then◌else◌};
ghost use Rattle.controller.specs.Rules.{IsSound};

use crate::component::{Component, RESOURCES};
use crate::counts::Counts;
use arrayvec::ArrayVec;
use refusals::Refusal;

/// How many components a plan may have.
pub(crate) const COMPONENTS: usize = 8;

const HIGHEST_LEVEL: u64 = 200;

const LONGEST_PERIOD: u64 = 1_000_000;

const LONGEST_DEADLINE: u64 = 1_000_000;

/// The cause, unless the condition holds.
fn ensure(holds: bool, cause: Refusal) -> Result<(), Refusal>
    ensures { result ≡ (if holds then Ok tt else Err cause) }
{
    if holds { Ok(()) } else { Err(cause) }
}

/// The components declared so far. A component's number is its place.
#[derive(Drop)]
pub struct Plan {
    components: ArrayVec<Component, COMPONENTS>,
    ghost sound: { IsSound components.items },
}

impl Plan {
    ghost use Rattle.refusals.specs.Causes.{answered};
    ghost use Rattle.controller.specs.Components.{component_at, counts_of};
    ghost use Rattle.controller.specs.Draft.{level_taken, component_refusal, task_refusal, use_refusal, component_answer, component_declared, task_answer, task_declared, use_answer, use_declared};
    ghost use Rattle.controller.specs.View.{declared};

    /// A plan that declares nothing.
    pub(crate) fn new() -> Plan
        ensures { declared result ≡ [] }
    {
        Plan {
            components: ArrayVec::new(),
        }
    }

    /// Whether a declared component has the level.
    fn level_taken(&self, level: u64) -> bool
        ensures { result ≡ level_taken (declared self.now) level }
    {
        self.components
            .iter()
            .any(|component| u64::from(component.level) == level)
    }

    /// Answers the first cause, if any, for which a component is refused.
    fn check_component(&self, level: u64, budget: u64, period: u64) -> Result<(), Refusal>
        ensures { result ≡ answered (component_refusal (declared self.now) level budget period) tt }
    {
        // the numbers of a declaration, here and below, are in no struct: it would be made only to be taken apart, since each has its
        // own cause
        ensure(!self.components.is_full(), Refusal::ComponentLimit)?;
        ensure((1..=HIGHEST_LEVEL).contains(&level), Refusal::LevelRange)?;
        ensure(!self.level_taken(level), Refusal::LevelTaken)?;
        ensure((1..=LONGEST_PERIOD).contains(&period), Refusal::PeriodRange)?;
        ensure((1..=period).contains(&budget), Refusal::BudgetRange)
    }

    /// The component with the number, where it is declared.
    fn component_at(&self, component: u64) -> Result<&Component, Refusal>
        ensures known { IfOk result (λ c. (component < length (declared self.now)) × (c.now ≡ component_at (declared self.now) component)) }
        ensures unknown { IfErr result (λ cause. (cause ≡ Refusal.UnknownComponent) × (length (declared self.now) ≤ component)) }
    {
        // `as`, here and below: From has nothing between u64 and usize, and no cast here loses a bit
        self.components
            .get(component as usize)
            .ok_or(Refusal::UnknownComponent)
    }

    /// Answers the first cause, if any, for which a task is refused.
    fn check_task(&self, component: u64, deadline: u64) -> Result<(), Refusal>
        ensures { result ≡ answered (task_refusal (declared self.now) component deadline) tt }
    {
        let tasked = self.component_at(component)?;
        ensure(!tasked.deadlines.is_full(), Refusal::TaskLimit)?;
        ensure(
            (1..=LONGEST_DEADLINE).contains(&deadline),
            Refusal::DeadlineRange,
        )
    }

    /// Answers the first cause, if any, for which a use is refused.
    fn check_use(&self, component: u64, resource: u64, access: u64) -> Result<(), Refusal>
        ensures { result ≡ answered (use_refusal (declared self.now) component resource access) tt }
    {
        let user = self.component_at(component)?;
        let earlier = user
            .accesses
            .get(resource as usize)
            .ok_or(Refusal::ResourceRange)?;
        ensure(earlier.is_none(), Refusal::UseTwice)?;
        let longest = u64::from(user.budget);
        ensure((1..=longest).contains(&access), Refusal::AccessRange)
    }

    /// Declares a component, and answers its number.
    pub(crate) fn component(&mut self, level: u64, budget: u64, period: u64) -> Result<u64, Refusal>
        ensures answer { result ≡ component_answer (declared self.old) level budget period }
        ensures after { declared self.new ≡ component_declared (declared self.old) level budget period }
    {
        self.check_component(level, budget, period)?;
        // each number was checked against its limit, here and below, so that no cast loses a bit; a `try_from` would add a refusal that
        // cannot come
        let number = self.components.len();
        self.components
            .push(Component::new(level as u8, budget as u32, period as u32));
        Ok(number as u64)
    }

    /// Declares a task of a component, and answers its number there.
    pub(crate) fn task(&mut self, component: u64, deadline: u64) -> Result<u64, Refusal>
        ensures answer { result ≡ task_answer (declared self.old) component deadline }
        ensures after { declared self.new ≡ task_declared (declared self.old) component deadline }
    {
        self.check_task(component, deadline)?;
        let tasked = &mut self.components[component as usize];
        let number = tasked.deadlines.len();
        tasked.add_task(deadline as u32);
        Ok(number as u64)
    }

    /// Declares that a component uses a resource, and how long at most at one time.
    pub(crate) fn declare_use(
        &mut self,
        component: u64,
        resource: u64,
        access: u64,
    ) -> Result<(), Refusal>
        ensures answer { result ≡ use_answer (declared self.old) component resource access }
        ensures after { declared self.new ≡ use_declared (declared self.old) component resource access }
    {
        self.check_use(component, resource, access)?;
        let user = component as usize;
        self.components[user].add_use(resource as usize, access as u32);
        Ok(())
    }

    /// How much is declared.
    pub(crate) fn counts(&self) -> Counts
        ensures { result ≡ counts_of (declared self.now) }
    {
        Counts {
            components: self.components.len() as u64,
            tasks: self
                .components
                .iter()
                .map(|component| component.deadlines.len() as u64)
                .sum(),
            uses: self
                .components
                .iter()
                .map(|component| component.uses() as u64)
                .sum(),
        }
    }
}
