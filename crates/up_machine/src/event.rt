ghost use Rattle.std.specs.Prelude.{◌≡◌, IfOk};

use crate::end::End;
use crate::job::Job;
use fo_core::World;
use std::alloc::{AllocError, Global};
use up_diagram::Cube;

/// Why a job is put back.
#[derive(Debug, Drop)]
pub enum Why {
    /// What was found lies no longer in its frame: the clause of this number refutes it.
    Refuted(World, u32),
    /// A look found no violating state besides those that it was to avoid.
    NoMore,
    /// The productive events have come to the limit on steps.
    Spent,
    /// Memory was wanting.
    NoMemory,
}

/// What comes before an obligation's state.
#[derive(Debug, Drop)]
pub enum Origin {
    /// An initial state in which it embeds.
    Initial(World),
    /// A step from the frame below to a state in which it embeds.
    Step(World),
}

/// An event of the machine. Its first number is the worker that makes it.
#[derive(Debug, Drop)]
pub enum Event {
    /// A violating state of the frontier's frame becomes an obligation.
    Seed(u32, World),
    /// The worker takes a job.
    Take(u32, Job),
    /// The worker puts its job back.
    Return(u32, Why),
    /// An obligation is blocked, and a clause is learnt from it.
    Learn(u32, Cube),
    /// Something comes before an obligation.
    Before(u32, Origin),
    /// An obligation is dropped, since the clause of this number already refutes it.
    Drop(u32, u32),
    /// A clause holds one frame further on, and rises by a level.
    Raise(u32),
    /// A clause doesn't hold one frame further on: a step leads out of its frame.
    Fail(u32, World),
    /// No state of the frontier's frame violates a safety.
    Secure(u32),
    /// The next frame is opened.
    Advance(u32),
    /// The run ends.
    Close(u32, End),
    /// The clause of the first number goes, since that of the second covers it.
    Retire(u32, u32, u32),
}

impl Why {
    /// A copy.
    pub fn copy(&self, alloc: Global) -> Result<Why, AllocError>
        ensures { IfOk result (λ x. x ≡ self.now) }
    {
        Ok(match self {
            Why::Refuted(world, clause) => Why::Refuted(world.copy(alloc)?, *clause),
            Why::NoMore => Why::NoMore,
            Why::Spent => Why::Spent,
            Why::NoMemory => Why::NoMemory,
        })
    }
}

impl Origin {
    /// A copy.
    pub fn copy(&self, alloc: Global) -> Result<Origin, AllocError>
        ensures { IfOk result (λ x. x ≡ self.now) }
    {
        Ok(match self {
            Origin::Initial(world) => Origin::Initial(world.copy(alloc)?),
            Origin::Step(world) => Origin::Step(world.copy(alloc)?),
        })
    }
}

impl Event {
    /// A copy.
    pub fn copy(&self, alloc: Global) -> Result<Event, AllocError>
        ensures { IfOk result (λ x. x ≡ self.now) }
    {
        Ok(match self {
            Event::Seed(worker, world) => Event::Seed(*worker, world.copy(alloc)?),
            Event::Take(worker, job) => Event::Take(*worker, *job),
            Event::Return(worker, why) => Event::Return(*worker, why.copy(alloc)?),
            Event::Learn(worker, cube) => Event::Learn(*worker, cube.copy(alloc)?),
            Event::Before(worker, origin) => Event::Before(*worker, origin.copy(alloc)?),
            Event::Drop(worker, clause) => Event::Drop(*worker, *clause),
            Event::Raise(worker) => Event::Raise(*worker),
            Event::Fail(worker, step) => Event::Fail(*worker, step.copy(alloc)?),
            Event::Secure(worker) => Event::Secure(*worker),
            Event::Advance(worker) => Event::Advance(*worker),
            Event::Close(worker, end) => Event::Close(*worker, end.copy(alloc)?),
            Event::Retire(worker, gone, by) => Event::Retire(*worker, *gone, *by),
        })
    }
}
