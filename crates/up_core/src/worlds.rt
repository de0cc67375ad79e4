//! Events that bring a world into the history, and the one by which a clause goes. None of their
//! calls takes memory.

ghost use Rattle.std.specs.Prelude.{◌≡◌, ◌+◌, ◌<◌, ◌≤◌, ◌^◌, OnOk, OnErr, MatchResult, length, sum};
ghost use Rattle.up_machine.specs.declared.event.Event.TheVariants.{Before, Fail, Retire, Seed};
ghost use Rattle.up_machine.specs.Legal.{IsLegal};
ghost use Rattle.up_core.specs.Known.{IsKnown, IsNotNow, IsNow};
ghost use Rattle.up_core.specs.View.{HasFewElements, elements_in, now, with_event};

use crate::kept::Core;
use fo_core::World;
use up_machine::{Cover, Event, NotNow, Origin};

/// How many elements a state has.
fn elements_of(world: &World) -> u32
    requires { sum world.now.sizes < 2 ^ 32 }
    ensures { result ≡ sum world.now.sizes }
{
    world.sizes.as_slice().iter().sum()
}

/// How many elements the new obligation's state has, if there is one.
fn elements_before(origin: &Origin) -> u32
    requires { HasFewElements origin.now }
    ensures { result ≡ elements_in origin.now }
{
    match origin {
        Origin::Initial(_) => 0,
        Origin::Step(world) => elements_of(world),
    }
}

impl Core {
    /// The violating state that the worker's look found becomes an obligation.
    ///
    /// It asks for fewer than 2^32 elements. It is refused after the end, where the steps are
    /// spent, and where a clause refutes the state in the frontier's frame. Then nothing changes
    /// but that what was handed in is dropped.
    pub fn seed(&mut self, worker: u32, world: World) -> Result<(), NotNow>
        requires known { IsKnown self.old (Seed worker world) }
        requires few { sum world.sizes < 2 ^ 32 }
        ensures made { OnOk result (self.new ≡ with_event self.old (Seed worker world)) }
        ensures same { OnErr result (self.new ≡ self.old) }
        ensures when { MatchResult result
            (λ _. IsNow self.old (Seed worker world))
            (λ why. IsNotNow self.old (Seed worker world) why) }
    {
        if let Err(why) = self.test_seed(worker, &world) {
            return Err(why);
        }
        let found = self.history.as_slice().len();
        self.widest = self.widest.max(elements_of(&world));
        self.state.seed(worker, found);
        self.history.push_reserved(Event::Seed(worker, world));
        self.spare -= 1;
        Ok(())
    }

    /// The step out of its clause's frame that the worker found is kept.
    ///
    /// It is refused after the end, where the steps are spent, and where a clause refutes the state
    /// that the step begins in, in the clause's frame. Then nothing changes but that what was
    /// handed in is dropped.
    pub fn fail(&mut self, worker: u32, step: World) -> Result<(), NotNow>
        requires { IsKnown self.old (Fail worker step) }
        ensures made { OnOk result (self.new ≡ with_event self.old (Fail worker step)) }
        ensures same { OnErr result (self.new ≡ self.old) }
        ensures when { MatchResult result
            (λ _. IsNow self.old (Fail worker step))
            (λ why. IsNotNow self.old (Fail worker step) why) }
    {
        if let Err(why) = self.test_fail(worker, &step) {
            return Err(why);
        }
        let found = self.history.as_slice().len();
        self.state.fail(worker, found);
        self.history.push_reserved(Event::Fail(worker, step));
        self.spare -= 1;
        Ok(())
    }

    /// A clause goes, since another covers it.
    ///
    /// It asks for room for an event besides one for each job that is out.
    pub fn retire(&mut self, worker: u32, cover: Cover)
        requires room { length (now self.old).jobs + 1 ≤ self.old.spare }
        requires legal { IsLegal self.old.sys self.old.limits (now self.old)
            (Retire worker cover.gone cover.by) }
        ensures made { self.new ≡ with_event self.old (Retire worker cover.gone cover.by) }
    {
        self.state.retire(cover.gone as usize);
        self.history
            .push_reserved(Event::Retire(worker, cover.gone, cover.by));
        self.spare -= 1;
    }

    /// An initial state or a step before it is kept for the obligation that the worker works on.
    ///
    /// It asks for fewer than 2^32 elements of a step. It is refused after the end, where the steps
    /// are spent, where a clause refutes the obligation's own state in the frame of its level, and
    /// where one refutes the state that a step begins in, in the frame below. Then nothing changes
    /// but that what was handed in is dropped.
    pub fn before(&mut self, worker: u32, origin: Origin) -> Result<(), NotNow>
        requires known { IsKnown self.old (Before worker origin) }
        requires few { HasFewElements origin }
        ensures made { OnOk result (self.new ≡ with_event self.old (Before worker origin)) }
        ensures same { OnErr result (self.new ≡ self.old) }
        ensures when { MatchResult result
            (λ _. IsNow self.old (Before worker origin))
            (λ why. IsNotNow self.old (Before worker origin) why) }
    {
        if let Err(why) = self.test_before(worker, &origin) {
            return Err(why);
        }
        let found = self.history.as_slice().len();
        self.widest = self.widest.max(elements_before(&origin));
        self.state.precede_by(worker, &origin, found);
        self.history.push_reserved(Event::Before(worker, origin));
        self.spare -= 1;
        Ok(())
    }
}
