ghost use Rattle.std.specs.Prelude.{◌≡◌, ◌↔◌, ◌<◌, ◌≤◌, ◌+◌, length, IsTrue, IfOk, OnOk};
ghost use Rattle.up_block.specs.Passing.{CanPass, HasNone, GoesOn, IsFirstPass};
ghost use Rattle.up_claims.specs.Blocked.{Passes};

use crate::question::Question;
use fo_core::{Finder, Order, Query, System};
use std::alloc::{AllocError, Global};
use up_diagram::{Cube, Picks, without};

/// What a pass over the literals of a cube asks about the cubes that lose one: for an initial state
/// in it, and for a step into it.
#[derive(Drop)]
pub struct Pass<'a> {
    pub sys: &'a System,
    pub order: &'a Order,
    pub root: Question,
    pub before: Question,
    pub picks: Picks,
}

/// A pass over the literals of this cube, whose two queries these are.
pub fn pass_of<'a>(
    alloc: Global,
    sys: &'a System,
    order: &'a Order,
    root: Query,
    before: Query,
    cube: &Cube,
) -> Result<Pass<'a>, AllocError>
    ensures { IfOk result (IsFirstPass sys.now order.now root before cube.now) }
{
    let Ok(room) = u32::try_from(cube.sorts.len()) else {
        return Err(AllocError);
    };
    Ok(Pass {
        sys,
        order,
        root: Question::new(alloc, root, 0),
        before: Question::new(alloc, before, 1),
        picks: Picks::new(alloc, room)?,
    })
}

impl Pass<'_> {
    /// Whether no world meets the queries of the cube. What was found for earlier cubes is tried
    /// first.
    fn has_none<F: Finder>(
        &mut self,
        alloc: Global,
        f: &mut F,
        cube: &Cube,
    ) -> Result<bool, AllocError>
        requires { CanPass (F.limit f.old) self.old cube.now }
        ensures limit { F.limit f.new ≡ F.limit f.old }
        ensures goes_on { OnOk result (GoesOn self.old self.new) }
        ensures answer { IfOk result (λ b. IsTrue b ↔ HasNone self.old cube.now) }
    {
        let sys = self.sys;
        let order = self.order;
        if self.root.is_shown(sys, cube, &mut self.picks) {
            return Ok(false);
        }
        if self.before.is_shown(sys, cube, &mut self.picks) {
            return Ok(false);
        }
        if self.root.ask(alloc, f, sys, order, cube)? {
            return Ok(false);
        }
        Ok(!self.before.ask(alloc, f, sys, order, cube)?)
    }

    /// Goes over the literals once, in order, and drops each without which the queries have no
    /// world. Memory is answered to be wanting where the cube has 2^32 literals or more.
    pub fn over<F: Finder>(
        &mut self,
        alloc: Global,
        f: &mut F,
        cube: Cube,
    ) -> Result<Cube, AllocError>
        requires { CanPass (F.limit f.old) self.old cube }
        ensures limit { F.limit f.new ≡ F.limit f.old }
        ensures passed { IfOk result (λ rest. Passes (HasNone self.old) 0 cube rest) }
    {
        let Ok(count) = u32::try_from(cube.lits.len()) else {
            return Err(AllocError);
        };
        let mut rest = cube;
        let mut kept = 0;
        'each: for _tried in 0..count {
            let less = without(alloc, &rest, kept)?;
            if self.has_none(alloc, f, &less)? {
                rest = less;
                continue;
            }
            kept += 1;
        }
        Ok(rest)
    }
}
