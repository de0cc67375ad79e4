//! The verdict of a run that has ended.

ghost use Rattle.std.specs.Prelude.{◌≡◌, ℕ, ◌<◌, ◌^◌, ◌++◌, None, Some, IfOk, OnOk, MatchOption, length, option_map};
ghost use Rattle.up_machine.specs.declared.end.End.TheVariants.{Bounded};
ghost use Rattle.up_machine.specs.declared.event.Event.TheVariants.{Close};
ghost use Rattle.up_machine.specs.Told.{Told};
ghost use Rattle.up_core.specs.Telling.{CanTell, CanTellLeaves, IsVerdictBy, IsVerdictOf, last_of, told_clauses as clauses_told, told_from};
ghost use Rattle.up_core.specs.View.{now};

use crate::clauses::Clauses;
use crate::frames::copy_cube_at;
use crate::kept::Core;
use crate::leaves::leaves_of;
use crate::links::links_of;
use crate::state::{ClauseEntry, State};
use fo_core::{Seq, Sig};
use std::alloc::{AllocError, Global};
use up_claims::{Kept, Verdict};
use up_machine::{End, Event};

/// Appends the entry's clause, if it is live and has at least this level.
fn push_told(
    alloc: Global,
    history: &[Event],
    level: u32,
    entry: &ClauseEntry,
    clauses: &mut Seq<Kept>,
) -> Result<(), AllocError>
    ensures { OnOk result (clauses.new ≡
        clauses.old ++ told_from history.now level entry.now) }
{
    if !entry.live || entry.level < level {
        return Ok(());
    }
    if let Some(cube) = copy_cube_at(alloc, history, entry.learnt)? {
        clauses.push(Kept {
            level: entry.level,
            cube,
        })?;
    }
    Ok(())
}

/// The live clauses of at least this level, in the order in which they were learnt.
fn told_clauses(
    alloc: Global,
    history: &[Event],
    level: u32,
    clauses: &Clauses,
) -> Result<Seq<Kept>, AllocError>
    ensures { IfOk result (λ told. told ≡ clauses_told history.now level clauses.now.items) }
{
    let mut told = Seq::new(alloc);
    'each: for at in 0..clauses.count_live() {
        let clause = clauses.live_at(at);
        push_told(alloc, history, level, &clause.entry, &mut told)?;
    }
    Ok(told)
}

/// What a bounded run tells: all live clauses, and for each frame up to the frontier its leave.
fn told_bounded(alloc: Global, history: &[Event], state: &State) -> Result<Verdict, AllocError>
    requires few { length state.now.clauses.items < 2 ^ 32 }
    requires each { CanTellLeaves history.now state.now }
    ensures { (sig : _) (w : _) →
        IfOk result (λ verdict. IsVerdictBy sig history.now state.now w Bounded verdict) }
{
    let leaves = leaves_of(alloc, history, state)?;
    let clauses = told_clauses(alloc, history, 0, &state.clauses)?;
    Ok(Verdict::Bounded(state.clauses.frontier(), clauses, leaves))
}

/// What the worker's end of a run tells.
fn told_by(
    alloc: Global,
    sig: &Sig,
    history: &[Event],
    state: &State,
    worker: u32,
    end: &End,
) -> Result<Verdict, AllocError>
    requires few { length state.now.clauses.items < 2 ^ 32 }
    requires there { CanTell sig.now history.now state.now worker end.now }
    ensures { IfOk result (λ verdict.
        IsVerdictBy sig.now history.now state.now worker end.now verdict) }
{
    match end {
        End::Safe(level) => {
            let clauses = told_clauses(alloc, history, *level + 1, &state.clauses)?;
            Ok(Verdict::Safe(*level, clauses))
        }
        End::Unsafe(run) => Ok(Verdict::Unsafe(run.copy(alloc)?)),
        End::NoUniversal => {
            let links = links_of(alloc, sig, history, state, worker)?;
            Ok(Verdict::NoUniversal(links))
        }
        End::Bounded => told_bounded(alloc, history, state),
        End::Spent => Ok(Verdict::Spent(state.productive)),
        End::Over(kind, excess) => Ok(Verdict::Over(*kind, excess.weight)),
    }
}

/// What the last event of a run tells, if it is an end.
fn told(
    alloc: Global,
    sig: &Sig,
    history: &[Event],
    state: &State,
    last: Option<&Event>,
) -> Result<Option<Verdict>, AllocError>
    requires few { length state.now.clauses.items < 2 ^ 32 }
    requires there { (w : ℕ) (end : _) →
        option_map (λ event. event.now) last ≡ Some (Close w end) →
        CanTell sig.now history.now state.now w end }
    ensures { IfOk result (λ found. MatchOption found
        ((w : ℕ) (end : _) → ¬ (option_map (λ event. event.now) last.entry ≡ Some (Close w end)))
        (λ verdict. IsVerdictOf sig.now history.now state.now
        (option_map (λ event. event.now) last.entry) verdict)) }
{
    match last {
        Some(Event::Close(worker, end)) => {
            let verdict = told_by(alloc, sig, history, state, *worker, end)?;
            Ok(Some(verdict))
        }
        _ => Ok(None),
    }
}

/// The last event, if there is one.
fn last_event(history: &[Event]) -> Option<&Event>
    ensures { option_map (λ event. event.now) result ≡ last_of history.now }
{
    history.get(history.len().saturating_sub(1))
}

impl Core {
    /// The verdict of a run that has ended; none before. The one error is out of memory.
    pub fn verdict(&self, alloc: Global) -> Result<Option<Verdict>, AllocError>
        ensures { IfOk result (λ found. MatchOption found
            ((now self.now).ending ≡ None)
            (Told self.now.sys self.now.history)) }
    {
        let history = self.history.as_slice();
        let last = last_event(history);
        told(alloc, &self.sys.sig, history, &self.state, last)
    }
}
