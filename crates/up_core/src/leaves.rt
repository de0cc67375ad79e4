//! The leave of each frame that a bounded run tells: the first live clause of the frame's level, by
//! its place among the live ones, with the step of its failed push.

ghost use Rattle.std.specs.Prelude.{◌≡◌, ℕ, ◌+◌, ◌<◌, ◌≤◌, ◌^◌, None, Some, IfOk, length, option_map, slice_get};
ghost use Rattle.std.specs.Option.{option_or};
ghost use Rattle.up_core.specs.Mirror.{Pairs};
ghost use Rattle.up_core.specs.Telling.{AreLeavesBy, AreMarks, CanTellLeaves, HasLeave, IsLeaveBy, next_place as place_after, own_mark, step_at};

use crate::clauses::entry_at;
use crate::refuting::world_at;
use crate::state::{ClauseEntry, State};
use fo_core::{Seq, World};
use std::alloc::{AllocError, Global};
use up_claims::Leave;
use up_machine::Event;

/// The first live clause of a level.
#[derive(Clone, Copy)]
pub(crate) struct Mark {
    /// How many live clauses come before it.
    pub place: u32,
    /// The place in the history of its failed push that is valid, if one is.
    pub failed: Option<usize>,
}

/// Marks the clause of this entry as the first of its level, if it is live and none is marked yet.
fn mark_entry(marks: &mut [Option<Mark>], entry: &ClauseEntry, place: u32)
    ensures count { length marks.new ≡ length marks.old }
    ensures marked { (k : ℕ) (mark : _) → slice_get marks.old k ≡ Some mark →
        slice_get marks.new k ≡ Some (option_or mark (own_mark (k + 1) place entry.now)) }
{
    if !entry.live || entry.level == 0 {
        return;
    }
    let at = entry.level as usize - 1;
    if at >= marks.len() {
        return;
    }
    if marks[at].is_none() {
        marks[at] = Some(Mark {
            place,
            failed: entry.failed,
        });
    }
}

/// How many live clauses come before the next one.
fn next_place(place: u32, entry: &ClauseEntry) -> u32
    requires { place + 1 < 2 ^ 32 }
    ensures { result ≡ place_after place entry.now }
{
    if entry.live { place + 1 } else { place }
}

/// Marks the first live clause of each level.
fn mark_all(marks: &mut [Option<Mark>], clauses: &[ClauseEntry])
    requires few { length clauses.now < 2 ^ 32 }
    requires none { (k : ℕ) (mark : _) → slice_get marks.old k ≡ Some mark → mark ≡ None }
    ensures { AreMarks (length marks.old) clauses.now marks.new }
{
    let mut place = 0;
    'each: for k in 0..clauses.len() {
        let entry = entry_at(clauses, k);
        mark_entry(marks, &entry, place);
        place = next_place(place, &entry);
    }
}

/// For each level from 1 to the frontier the mark of its first live clause.
fn marks_of(
    alloc: Global,
    frontier: u32,
    clauses: &[ClauseEntry],
) -> Result<Vec<Option<Mark>>, AllocError>
    requires { length clauses.now < 2 ^ 32 }
    ensures { IfOk result (λ marks. AreMarks frontier clauses.now marks.items) }
{
    let mut marks = vec![in alloc; None; frontier as usize]?;
    mark_all(marks.as_mut_slice(), clauses);
    Ok(marks)
}

/// The step of a mark's failed push, if it has one.
fn step_of(history: &[Event], failed: Option<usize>) -> Option<&World>
    ensures { option_map (λ world. world.now) result ≡ step_at history.now failed }
{
    match failed {
        Some(place) => world_at(history, place),
        None => None,
    }
}

/// The leave of this level, by its mark.
fn leave_of(
    alloc: Global,
    history: &[Event],
    level: u32,
    mark: Option<Mark>,
) -> Result<Leave, AllocError>
    requires { HasLeave history.now mark }
    ensures { IfOk result (λ leave. IsLeaveBy history.now level mark leave) }
{
    match mark {
        Some(mark) => match step_of(history, mark.failed) {
            Some(step) => Ok(Leave {
                level,
                clause: mark.place,
                step: step.copy(alloc)?,
            }),
            None => unreachable!(),
        },
        None => unreachable!(),
    }
}

/// The leaves of the levels from 1 on, by their marks.
fn leaves_by(
    alloc: Global,
    history: &[Event],
    marks: &[Option<Mark>],
) -> Result<Seq<Leave>, AllocError>
    requires few { length marks.now < 2 ^ 32 }
    requires each { (k : ℕ) (mark : _) → slice_get marks.now k ≡ Some mark →
        HasLeave history.now mark }
    ensures { IfOk result (λ leaves.
        Pairs marks.now leaves (λ k mark leave. IsLeaveBy history.now (k + 1) mark leave)) }
{
    let mut leaves = Seq::new(alloc);
    'each: for k in 0..marks.len() {
        leaves.push(leave_of(alloc, history, k as u32 + 1, marks[k])?)?;
    }
    Ok(leaves)
}

/// The leave of each frame from 1 to the frontier.
pub(crate) fn leaves_of(
    alloc: Global,
    history: &[Event],
    state: &State,
) -> Result<Seq<Leave>, AllocError>
    requires few { length state.now.clauses.items < 2 ^ 32 }
    requires each { CanTellLeaves history.now state.now }
    ensures { IfOk result (λ leaves. AreLeavesBy history.now state.now leaves) }
{
    let marks = marks_of(alloc, state.clauses.frontier(), state.clauses.entries())?;
    leaves_by(alloc, history, marks.as_slice())
}
