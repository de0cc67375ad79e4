//! The cubes of the frames, copied out of the history.

ghost use Rattle.std.specs.Prelude.{◌≡◌, ◌≤◌, ◌++◌, IfOk, OnOk, slice_get};
ghost use Rattle.std.specs.Option.{option_and_then};
ghost use Rattle.up_machine.specs.Machine.{cubes_from};
ghost use Rattle.up_core.specs.Listing.{AreUnmet, cube_from, listed};
ghost use Rattle.up_core.specs.Mirror.{cube_of};
ghost use Rattle.up_core.specs.View.{now};

use crate::clauses::Clauses;
use crate::kept::Core;
use crate::refuting::cube_at;
use crate::state::ClauseEntry;
use fo_core::Seq;
use std::alloc::{AllocError, Global};
use up_diagram::Cube;
use up_machine::Event;

/// A copy of the cube that the event at a place learnt, if it did.
pub(crate) fn copy_cube_at(
    alloc: Global,
    history: &[Event],
    place: usize,
) -> Result<Option<Cube>, AllocError>
    ensures { IfOk result (λ cube. cube ≡
        option_and_then cube_of (slice_get history.now place)) }
{
    match cube_at(history, place) {
        Some(cube) => Ok(Some(cube.copy(alloc)?)),
        None => Ok(None),
    }
}

/// Appends a copy of the entry's cube, if its clause is live and has at least this level.
fn push_from(
    alloc: Global,
    history: &[Event],
    level: u32,
    entry: &ClauseEntry,
    cubes: &mut Seq<Cube>,
) -> Result<(), AllocError>
    ensures { OnOk result (cubes.new ≡
        cubes.old ++ cube_from history.now level entry.now) }
{
    if !entry.live || entry.level < level {
        return Ok(());
    }
    if let Some(cube) = copy_cube_at(alloc, history, entry.learnt)? {
        cubes.push(cube)?;
    }
    Ok(())
}

/// Copies of the cubes of the live entries of at least this level, in their order.
pub(crate) fn copy_cubes(
    alloc: Global,
    history: &[Event],
    level: u32,
    clauses: &Clauses,
) -> Result<Seq<Cube>, AllocError>
    ensures { IfOk result (λ cubes. cubes ≡ listed history.now level clauses.now.items) }
{
    let mut cubes = Seq::new(alloc);
    'each: for at in 0..clauses.count_live() {
        let clause = clauses.live_at(at);
        push_from(alloc, history, level, &clause.entry, &mut cubes)?;
    }
    Ok(cubes)
}

impl Core {
    /// The cubes of the live clauses of at least this level, in the order in which they were
    /// learnt.
    ///
    /// For a level of at least 1 they tell the frame of that number, so no state that is reached
    /// within that number of steps meets one of them. The one error is out of memory.
    pub fn frame(&self, alloc: Global, level: u32) -> Result<Seq<Cube>, AllocError>
        ensures cubes { IfOk result (λ cubes. cubes ≡ cubes_from (now self.now).clauses level) }
        ensures unmet { 1 ≤ level → IfOk result (λ cubes. AreUnmet self.now.sys level cubes) }
    {
        let history = self.history.as_slice();
        copy_cubes(alloc, history, level, &self.state.clauses)
    }
}
