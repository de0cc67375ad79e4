//! Which clause may go, since another covers it.

ghost use Rattle.std.specs.Prelude.{◌≡◌, ◌↔◌, ◌<◌, ◌^◌, ℕ, IfOk, IfSome, IsTrue, MatchOption, Some, length, slice_get};
ghost use Rattle.up_machine.specs.Rounds.{IsFirstCover};
ghost use Rattle.up_core.specs.Covering.{AllCanCover, CanCover, IsCovering, IsFirstBy, IsFoundPair, CanGoFor};
ghost use Rattle.up_core.specs.View.{MayRetire, now};

use crate::clauses::{Clauses, LiveClause};
use crate::kept::Core;
use crate::refuting::cube_at;
use crate::state::{ClauseEntry, JobEntry};
use crate::tasks::push_is_out;
use std::alloc::{AllocError, Global};
use up_diagram::{Picks, covers_in};
use up_machine::{Cover, Event};

/// Whether both clauses are live, and the second covers the first at its level or a higher one.
fn is_covering(history: &[Event], gone: &ClauseEntry, by: &ClauseEntry, picks: &mut Picks) -> bool
    requires { CanCover history.now picks.old by.now }
    ensures covering { IsTrue result ↔ IsCovering history.now gone.now by.now }
    ensures room { picks.new ≡ picks.old }
{
    if !gone.live || !by.live {
        return false;
    }
    if gone.level > by.level {
        return false;
    }
    if let Some(cover) = cube_at(history, by.learnt) {
        if let Some(old) = cube_at(history, gone.learnt) {
            return covers_in(cover, old, picks);
        }
        return false;
    }
    false
}

/// Whether the clause `gone` may go for the clause `by`, if no worker pushes it.
fn may_go(history: &[Event], gone: &LiveClause, by: &LiveClause, picks: &mut Picks) -> bool
    requires { CanCover history.now picks.old by.now.entry }
    ensures go { IsTrue result ↔ CanGoFor history.now gone.now by.now }
    ensures room { picks.new ≡ picks.old }
{
    if gone.number == by.number {
        return false;
    }
    is_covering(history, &gone.entry, &by.entry, picks)
}

/// The first clause for which this one may go.
fn first_by(
    history: &[Event],
    clauses: &Clauses,
    jobs: &[JobEntry],
    gone: &LiveClause,
    picks: &mut Picks,
) -> Option<usize>
    requires there { slice_get clauses.now.items gone.now.number ≡ Some gone.now.entry }
    requires cover { AllCanCover history.now picks.old clauses.now.items }
    ensures first { IsFirstBy history.now clauses.now.items jobs.now gone.now.number result }
    ensures within { IfSome result (λ by. by < length clauses.now.items) }
    ensures room { picks.new ≡ picks.old }
{
    if push_is_out(jobs, gone.number) {
        return None;
    }
    'each: for at in 0..clauses.count_live() {
        let by = clauses.live_at(at);
        if may_go(history, gone, &by, picks) {
            return Some(by.number);
        }
    }
    None
}

/// The first pair of clauses of which the one may go for the other.
fn first_pair(
    history: &[Event],
    clauses: &Clauses,
    jobs: &[JobEntry],
    picks: &mut Picks,
) -> Option<Cover>
    requires small { length clauses.now.items < 2 ^ 32 }
    requires cover { AllCanCover history.now picks.old clauses.now.items }
    ensures found { IsFoundPair history.now clauses.now.items jobs.now result }
    ensures room { picks.new ≡ picks.old }
{
    'each: for at in 0..clauses.count_live() {
        let gone = clauses.live_at(at);
        if let Some(by) = first_by(history, clauses, jobs, &gone, picks) {
            return Some(Cover {
                gone: gone.number as u32,
                by: by as u32,
            });
        }
    }
    None
}

impl Core {
    /// The first clause, with the first cover, that may be retired; none after the end. The one
    /// error is out of memory.
    pub fn cover(&self, alloc: Global) -> Result<Option<Cover>, AllocError>
        ensures { IfOk result (λ found. MatchOption found
            ((gone by : ℕ) → ¬ MayRetire (now self.now) gone by)
            (λ c. IsFirstCover (now self.now) c.gone c.by)) }
    {
        if self.state.ended {
            return Ok(None);
        }
        let mut picks = Picks::new(alloc, self.variables)?;
        let history = self.history.as_slice();
        let jobs = self.state.jobs.as_slice();
        Ok(first_pair(history, &self.state.clauses, jobs, &mut picks))
    }
}
