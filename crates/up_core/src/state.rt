//! What the code keeps of the machine's state: numbers alone. Worlds and cubes stand in the
//! history, and these numbers say where.

ghost use Rattle.std.specs.Prelude.{ℕ, [], IfOk, OnOk};
ghost use Rattle.fo_core.specs.declared.system.System.{System};
ghost use Rattle.up_machine.specs.Machine.{start};
ghost use Rattle.up_core.specs.Mirror.{IsMirror};
ghost use Rattle.up_core.specs.Room.{HasSpare, HaveSameLists};

use crate::clauses::Clauses;
use crate::obligations::Obligations;
use std::alloc::{AllocError, Global};
use up_machine::Job;

/// A clause.
#[derive(Clone, Copy)]
pub(crate) struct ClauseEntry {
    /// The place in the history of the event that learnt it.
    pub learnt: usize,
    /// Its level.
    pub level: u32,
    /// Whether it is live.
    pub live: bool,
    /// The place in the history of its failed push that is valid, if one is.
    pub failed: Option<usize>,
}

/// What has become of an obligation.
#[derive(Clone, Copy)]
pub(crate) enum Progress {
    Ready,
    Out,
    Waiting,
    Done,
    /// The place in the history of the event that found its root.
    Rooted(usize),
}

/// An obligation.
#[derive(Clone, Copy)]
pub(crate) struct ObligationEntry {
    /// Its level.
    pub level: u32,
    /// The place in the history of the event that holds its world. Its state is copy 0.
    pub found: usize,
    /// The obligation that it comes before; none for a seed.
    pub parent: Option<u32>,
    /// What has become of it.
    pub progress: Progress,
}

/// A job that is out.
#[derive(Clone, Copy)]
pub(crate) struct JobEntry {
    /// The worker that has it.
    pub worker: u32,
    /// The job.
    pub job: Job,
    /// How many seed obligations were done when it was taken.
    pub done: u32,
}

/// The state as numbers.
#[derive(Drop)]
pub(crate) struct State {
    pub clauses: Clauses,
    pub obligations: Obligations,
    pub jobs: Vec<JobEntry>,
    /// The last frame of which no state violates a safety, as far as is known.
    pub secure: u32,
    /// How many seed obligations were done when a look last found no further violating state.
    pub calm: Option<u32>,
    /// How many productive events there were.
    pub productive: u32,
    /// Whether the run has ended.
    pub ended: bool,
}

impl State {
    /// The state before any event.
    pub fn new(alloc: Global) -> Result<State, AllocError>
        ensures mirror { (sys : System) → IfOk result (IsMirror sys [] start) }
        ensures room { IfOk result (HasSpare 0) }
    {
        Ok(State {
            clauses: Clauses::new(alloc)?,
            obligations: Obligations::new(alloc),
            jobs: Vec::new(alloc),
            secure: 0,
            calm: None,
            productive: 0,
            ended: false,
        })
    }

    /// Makes room for this many further clauses, obligations and jobs. Where memory is refused only
    /// the room may have grown.
    pub fn reserve(&mut self, events: usize) -> Result<(), AllocError>
        ensures room { OnOk result (HasSpare events self.new) }
        ensures kept { (n : ℕ) → HasSpare n self.old → HasSpare n self.new }
        ensures same { HaveSameLists self.old self.new }
    {
        self.clauses.reserve(events)?;
        self.obligations.reserve(events)?;
        self.jobs.reserve(events)?;
        Ok(())
    }
}
