//! Tests whether an event that asks that a state lies in a frame could be made as the frames stand
//! now. They change nothing that contracts see, and take no memory.

ghost use Rattle.std.specs.Prelude.{◌≡◌, MatchResult};
ghost use Rattle.up_machine.specs.declared.event.Event.TheVariants.{Before, Fail, Seed};
ghost use Rattle.up_core.specs.Known.{IsKnown, IsNotNow, IsNow};

use crate::kept::Core;
use crate::refuting::{fail_refuter, own_refuter, seed_refuter, step_refuter};
use fo_core::World;
use up_machine::{NotNow, Origin};

impl Core {
    /// Whether the violating state that the worker's look found could become an obligation now:
    /// what [`Core::seed`] would answer.
    pub fn test_seed(&mut self, worker: u32, world: &World) -> Result<(), NotNow>
        requires { IsKnown self.old (Seed worker world.now) }
        ensures same { self.new ≡ self.old }
        ensures when { MatchResult result
            (λ _. IsNow self.old (Seed worker world.now))
            (λ why. IsNotNow self.old (Seed worker world.now) why) }
    {
        if self.state.ended {
            return Err(NotNow::Closed);
        }
        if self.state.productive >= self.limits.steps {
            return Err(NotNow::Spent);
        }
        let history = self.history.as_slice();
        let sig = &self.sys.sig;
        let found = seed_refuter(history, &self.state, sig, world, &mut self.picks);
        if let Some(k) = found {
            return Err(NotNow::Refuted(k as u32));
        }
        Ok(())
    }

    /// Whether the step out of its clause's frame that the worker found could be kept now: what
    /// [`Core::fail`] would answer.
    pub fn test_fail(&mut self, worker: u32, world: &World) -> Result<(), NotNow>
        requires { IsKnown self.old (Fail worker world.now) }
        ensures same { self.new ≡ self.old }
        ensures when { MatchResult result
            (λ _. IsNow self.old (Fail worker world.now))
            (λ why. IsNotNow self.old (Fail worker world.now) why) }
    {
        if self.state.ended {
            return Err(NotNow::Closed);
        }
        if self.state.productive >= self.limits.steps {
            return Err(NotNow::Spent);
        }
        let history = self.history.as_slice();
        let sig = &self.sys.sig;
        let found = fail_refuter(history, &self.state, sig, world, worker, &mut self.picks);
        if let Some(k) = found {
            return Err(NotNow::Refuted(k as u32));
        }
        Ok(())
    }

    /// Whether what the worker found before its obligation could be kept now: what [`Core::before`]
    /// would answer.
    pub fn test_before(&mut self, worker: u32, origin: &Origin) -> Result<(), NotNow>
        requires { IsKnown self.old (Before worker origin.now) }
        ensures same { self.new ≡ self.old }
        ensures when { MatchResult result
            (λ _. IsNow self.old (Before worker origin.now))
            (λ why. IsNotNow self.old (Before worker origin.now) why) }
    {
        if self.state.ended {
            return Err(NotNow::Closed);
        }
        if self.state.productive >= self.limits.steps {
            return Err(NotNow::Spent);
        }
        let history = self.history.as_slice();
        let sig = &self.sys.sig;
        let own = own_refuter(history, &self.state, sig, worker, &mut self.picks);
        if let Some(k) = own {
            return Err(NotNow::Own(k as u32));
        }
        if let Origin::Step(p) = origin {
            let state = &self.state;
            let found = step_refuter(history, state, sig, p, worker, &mut self.picks);
            if let Some(k) = found {
                return Err(NotNow::Refuted(k as u32));
            }
            return Ok(());
        }
        Ok(())
    }
}
