//! Events by which a clause is learnt or rises. None of their calls takes memory.

ghost use Rattle.std.specs.Prelude.{◌≡◌, Some, OnOk, OnErr, MatchResult};
ghost use Rattle.up_diagram.specs.declared.cube.Cube.{Cube};
ghost use Rattle.up_machine.specs.declared.event.Event.TheVariants.{Learn, Raise};
ghost use Rattle.up_machine.specs.Finding.{HoldsWork};
ghost use Rattle.up_core.specs.declared.state.ObligationEntry.{ObligationEntry};
ghost use Rattle.up_core.specs.Known.{IsKnown, IsNotNow, IsNow};
ghost use Rattle.up_core.specs.Refuting.{own_in};
ghost use Rattle.up_core.specs.View.{now, with_event};

use crate::kept::Core;
use crate::lapsing::Lapse;
use crate::refuting::{own_entry, own_refuter};
use crate::state::State;
use up_diagram::Cube;
use up_machine::{Event, NotNow};

/// The level of the obligation that the worker works on, or 0.
fn own_level(state: &State, worker: u32) -> u32
    ensures { (e : ObligationEntry) →
        own_in worker state.now.obligations.items state.now.jobs.items ≡ Some e →
        result ≡ e.level }
{
    match own_entry(state.obligations.entries(), state.jobs.as_slice(), worker) {
        Some(entry) => entry.level,
        None => 0,
    }
}

impl Core {
    /// Whether a clause could be learnt now from the obligation that the worker works on.
    fn test_learn(&mut self, worker: u32) -> Result<(), NotNow>
        requires { HoldsWork (now self.old) worker }
        ensures same { self.new ≡ self.old }
        ensures when { (cube : Cube) → MatchResult result
            (λ _. IsNow self.old (Learn worker cube))
            (λ why. IsNotNow self.old (Learn worker cube) why) }
    {
        if self.state.ended {
            return Err(NotNow::Closed);
        }
        if self.state.productive >= self.limits.steps {
            return Err(NotNow::Spent);
        }
        let history = self.history.as_slice();
        let sig = &self.sys.sig;
        let own = own_refuter(history, &self.state, sig, worker, &mut self.picks);
        if let Some(k) = own {
            return Err(NotNow::Own(k as u32));
        }
        Ok(())
    }

    /// The obligation that the worker works on is blocked, and the cube's clause is learnt.
    ///
    /// It is refused after the end, where the steps are spent, and where a clause refutes the
    /// obligation's own state in the frame of its level. Then nothing changes but that what was
    /// handed in is dropped.
    pub fn learn(&mut self, worker: u32, cube: Cube) -> Result<(), NotNow>
        requires { IsKnown self.old (Learn worker cube) }
        ensures made { OnOk result (self.new ≡ with_event self.old (Learn worker cube)) }
        ensures same { OnErr result (self.new ≡ self.old) }
        ensures when { MatchResult result
            (λ _. IsNow self.old (Learn worker cube))
            (λ why. IsNotNow self.old (Learn worker cube) why) }
    {
        if let Err(why) = self.test_learn(worker) {
            return Err(why);
        }
        let history = self.history.as_slice();
        let found = history.len();
        let lapse = Lapse {
            history,
            sig: &self.sys.sig,
            cube: &cube,
            low: 0,
            high: own_level(&self.state, worker),
        };
        self.state.learn(&lapse, &mut self.picks, worker, found);
        self.history.push_reserved(Event::Learn(worker, cube));
        self.spare -= 1;
        Ok(())
    }

    /// The clause that the worker pushes holds one frame further on.
    ///
    /// It is refused after the end, and where the steps are spent, and then nothing changes.
    pub fn raise(&mut self, worker: u32) -> Result<(), NotNow>
        requires { IsKnown self.old (Raise worker) }
        ensures made { OnOk result (self.new ≡ with_event self.old (Raise worker)) }
        ensures same { OnErr result (self.new ≡ self.old) }
        ensures when { MatchResult result
            (λ _. IsNow self.old (Raise worker))
            (λ why. IsNotNow self.old (Raise worker) why) }
    {
        if self.state.ended {
            return Err(NotNow::Closed);
        }
        if self.state.productive >= self.limits.steps {
            return Err(NotNow::Spent);
        }
        let history = self.history.as_slice();
        let sig = &self.sys.sig;
        self.state.raise(history, sig, &mut self.picks, worker);
        self.history.push_reserved(Event::Raise(worker));
        self.spare -= 1;
        Ok(())
    }
}
