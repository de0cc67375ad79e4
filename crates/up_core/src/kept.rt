//! The machine in code: a history that is legal at all times, and numbers that are its replay.

ghost use Rattle.std.specs.Prelude.{◌≡◌, ℕ, ◌+◌, ◌≤◌, [], length, IfOk, OnOk, None};
ghost use Rattle.up_claims.specs.Inferring.{CanInfer};
ghost use Rattle.up_machine.specs.Due.{IsDue};
ghost use Rattle.up_machine.specs.Legal.{Legal};
ghost use Rattle.up_machine.specs.Ranges.{AreInRange};
ghost use Rattle.up_core.specs.View.{HasVariablesFor, now, numbers_of};

use crate::state::State;
use fo_core::{Order, System};
use std::alloc::{AllocError, Global};
use std::marker::Model;
use up_claims::Numbers;
use up_diagram::Picks;
use up_machine::{Event, Limits, Task};

/// The machine of property-directed reachability over universally quantified clauses: what has been
/// found of a system's frames, by the history of its events. Each event is legal where it comes.
///
/// Contracts see the system, its order and the limits, which no call changes, the history, and how
/// many events there is room for. Worlds and cubes stand in the history alone.
#[derive(Drop)]
pub struct Core {
    pub(crate) sys: System,
    pub(crate) order: Order,
    pub(crate) limits: Limits,
    pub(crate) history: Vec<Event>,
    pub(crate) state: State,
    pub(crate) spare: u32,
    pub(crate) picks: Picks,
    /// For how many variables the picks have room.
    pub(crate) variables: u32,
    /// The most elements of an obligation's state.
    pub(crate) widest: u32,
}

impl Model for Core {
    ghost use Rattle.std.specs.Coded.{codes};
    ghost use Rattle.fo_core.specs.contracts.formula.Formula as formula;
    ghost use Rattle.up_core.specs.View.{CoreView};
    ghost use Rattle.up_core.specs.Holding.{IsCore};

    ghost Value = { CoreView };

    ghost coded = { Prim.hlevel (codes, formula.the_row.coded) };

    ghost view = { λ c. record {
      sys = c.sys;
      order = c.order;
      limits = c.limits;
      history = c.history.items;
      spare = c.spare;
      variables = c.variables;
    } };

    ghost invariant = { λ c.
        IsCore c.sys c.order c.limits c.history c.state c.spare c.picks c.variables c.widest };
}

/// This many events and one for each job, where a number of 32 bits can tell it.
fn room_for(events: u32, jobs: usize) -> Result<u32, AllocError>
    ensures { IfOk result (λ n. n ≡ events + jobs) }
{
    match (events as usize).checked_add(jobs) {
        Some(wanted) => match u32::try_from(wanted) {
            Ok(wanted) => Ok(wanted),
            Err(_) => Err(AllocError),
        },
        None => Err(AllocError),
    }
}

/// Gives the picks room for this many variables, if they have less.
fn widen(
    alloc: Global,
    picks: &mut Picks,
    variables: &mut u32,
    widest: u32,
) -> Result<(), AllocError>
    requires { picks.old ≡ variables.old }
    ensures room { OnOk result (widest ≤ variables.new) }
    ensures picks { picks.new ≡ variables.new }
    ensures kept { variables.old ≤ variables.new }
{
    if *variables < widest {
        *picks = Picks::new(alloc, widest)?;
        *variables = widest;
    }
    Ok(())
}

impl Core {
    /// A machine before any event, with copies of the system and the order. It asks for limits in
    /// their ranges ([`Limits::are_in_range`]), for a well-sorted system
    /// ([`System::is_well_sorted`]) and for an order that rises along the edges of its sort graph
    /// for inference. The one error is out of memory.
    pub fn new(
        alloc: Global,
        sys: &System,
        order: &Order,
        limits: Limits,
    ) -> Result<Core, AllocError>
        requires infer { CanInfer sys.now order.now }
        requires in_range { AreInRange limits }
        ensures { IfOk result (λ c. c ≡ record {
          sys = sys.now;
          order = order.now;
          limits = limits;
          history = [];
          spare = 0;
          variables = 0;
        }) }
    {
        Ok(Core {
            sys: sys.copy(alloc)?,
            order: order.copy(alloc)?,
            limits,
            history: Vec::new(alloc),
            state: State::new(alloc)?,
            spare: 0,
            picks: Picks::new(alloc, 0)?,
            variables: 0,
            widest: 0,
        })
    }

    /// Makes room for this many events besides one for each job that is out, and for as many
    /// variables as the widest state of an obligation has elements. Where memory is refused the
    /// history stays, and no room is lost.
    pub fn reserve(&mut self, events: u32) -> Result<(), AllocError>
        ensures room { OnOk result (events + length (now self.new).jobs ≤ self.new.spare) }
        ensures variables { OnOk result ((k : ℕ) → HasVariablesFor self.new k) }
        ensures kept { self.old.spare ≤ self.new.spare }
        ensures kept_variables { self.old.variables ≤ self.new.variables }
        ensures same { self.new ≡
            record self.old { spare = self.new.spare; variables = self.new.variables } }
    {
        let wanted = room_for(events, self.state.jobs.len())?;
        self.history.reserve(wanted as usize)?;
        self.state.reserve(wanted as usize)?;
        let alloc = *self.history.allocator();
        widen(alloc, &mut self.picks, &mut self.variables, self.widest)?;
        self.spare = self.spare.max(wanted);
        Ok(())
    }

    /// How many events there is room for.
    pub fn spare(&self) -> u32
        ensures { result ≡ self.now.spare }
    {
        self.spare
    }

    /// For how many variables of a cube there is room.
    pub fn variables(&self) -> u32
        ensures { result ≡ self.now.variables }
    {
        self.variables
    }

    /// How far the machine has come.
    pub fn numbers(&self) -> Numbers
        ensures { result ≡ numbers_of (now self.now) }
    {
        Numbers {
            productive: self.state.productive as u64,
            frontier: self.state.clauses.frontier() as u64,
            clauses: self.state.clauses.len() as u64,
        }
    }

    /// The events so far.
    pub fn history(&self) -> &[Event]
        ensures { result.now ≡ self.now.history }
    {
        self.history.as_slice()
    }

    /// The system.
    pub fn system(&self) -> &System
        ensures { result.now ≡ self.now.sys }
    {
        &self.sys
    }

    /// The order of its sorts.
    pub fn order(&self) -> &Order
        ensures { result.now ≡ self.now.order }
    {
        &self.order
    }

    /// The limits.
    pub fn limits(&self) -> &Limits
        ensures { result.now ≡ self.now.limits }
    {
        &self.limits
    }

    /// What always holds: the system is well-sorted, and the order rises along the edges of its
    /// sort graph for inference; the limits are in their ranges; each event of the history is legal
    /// in the replay of those before it; and until the end there is room for an event of each job
    /// that is out, so that a worker can always report.
    pub fn stays_sound(&self)
        ensures infer { CanInfer self.now.sys self.now.order }
        ensures in_range { AreInRange self.now.limits }
        ensures legal { Legal self.now.sys self.now.limits self.now.history }
        ensures room { (now self.now).ending ≡ None → length (now self.now).jobs ≤ self.now.spare }
    {
        let _ = &self.history;
    }

    /// What is due: the task of a worker who asks. It is the same for all workers.
    pub fn next_task(&self, _worker: u32) -> Task
        ensures { IsDue self.now.sys self.now.limits (now self.now) result }
    {
        self.state.due(&self.limits)
    }
}
