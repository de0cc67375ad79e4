//! What is told of a system, and the worlds that show it.

ghost use Rattle.std.specs.Prelude.{◌≡◌, IfOk};

use crate::kind::Kind;
use fo_core::{Seq, World};
use fo_embed::Map;
use std::alloc::{AllocError, Global};
use up_diagram::Cube;

/// A clause with its level.
#[derive(Debug, Drop)]
pub struct Kept {
    /// The clause stands in the frames up to this one.
    pub level: u32,
    /// The cube that the clause denies.
    pub cube: Cube,
}

/// A link of a chain: a state that embeds in a reached one.
#[derive(Debug, Drop)]
pub struct Link {
    /// One initial state, or a step from the state of the link before.
    pub origin: World,
    /// The state, a world of one copy.
    pub state: World,
    /// How the state embeds in the last copy of the origin.
    pub map: Map,
}

/// A step by which a frame is left, so that a clause doesn't hold one frame further on.
#[derive(Debug, Drop)]
pub struct Leave {
    /// The frame that is left.
    pub level: u32,
    /// The clause, by its place in the list of clauses.
    pub clause: u32,
    /// A step from the frame into the clause's cube, a world of two copies.
    pub step: World,
}

/// What is told of a system.
#[derive(Debug, Drop)]
pub enum Verdict {
    /// These clauses, of levels above this number, are a universal invariant.
    Safe(u32, Seq<Kept>),
    /// This is a violating run.
    Unsafe(World),
    /// These links are a chain, and no violating run has at most as many steps. So there is no
    /// universal invariant (Karbyshev, Bjørner, Itzhaky, Rinetzky and Shoham, "Property-directed
    /// inference of universal invariants or proving their absence", 2015).
    NoUniversal(Seq<Link>),
    /// The frames of these clauses hold, the states of the frame of this number violate no safety,
    /// and each frame up to it is left by a step.
    Bounded(u32, Seq<Kept>, Seq<Leave>),
    /// So many productive steps of the search were spent.
    Spent(u32),
    /// A query of this kind was above the limit, with this weight.
    Over(Kind, u64),
    /// No violating run has at most so many steps.
    NoRun(u32),
}

impl Kept {
    /// A copy.
    pub fn copy(&self, alloc: Global) -> Result<Kept, AllocError>
        ensures { IfOk result (λ x. x ≡ self.now) }
    {
        Ok(Kept {
            level: self.level,
            cube: self.cube.copy(alloc)?,
        })
    }
}

impl Link {
    /// A copy.
    pub fn copy(&self, alloc: Global) -> Result<Link, AllocError>
        ensures { IfOk result (λ x. x ≡ self.now) }
    {
        Ok(Link {
            origin: self.origin.copy(alloc)?,
            state: self.state.copy(alloc)?,
            map: self.map.copy(alloc)?,
        })
    }
}

impl Leave {
    /// A copy.
    pub fn copy(&self, alloc: Global) -> Result<Leave, AllocError>
        ensures { IfOk result (λ x. x ≡ self.now) }
    {
        Ok(Leave {
            level: self.level,
            clause: self.clause,
            step: self.step.copy(alloc)?,
        })
    }
}

/// A copy of the clauses.
fn copy_clauses(alloc: Global, clauses: &[Kept]) -> Result<Seq<Kept>, AllocError>
    ensures { IfOk result (λ s. s ≡ clauses.now) }
{
    let mut copies = Seq::new(alloc);
    'each: for item in clauses {
        copies.push(item.copy(alloc)?)?;
    }
    Ok(copies)
}

/// A copy of the links.
fn copy_links(alloc: Global, links: &[Link]) -> Result<Seq<Link>, AllocError>
    ensures { IfOk result (λ s. s ≡ links.now) }
{
    let mut copies = Seq::new(alloc);
    'each: for item in links {
        copies.push(item.copy(alloc)?)?;
    }
    Ok(copies)
}

/// A copy of the steps.
fn copy_leaves(alloc: Global, leaves: &[Leave]) -> Result<Seq<Leave>, AllocError>
    ensures { IfOk result (λ s. s ≡ leaves.now) }
{
    let mut copies = Seq::new(alloc);
    'each: for item in leaves {
        copies.push(item.copy(alloc)?)?;
    }
    Ok(copies)
}

impl Verdict {
    /// A copy.
    pub fn copy(&self, alloc: Global) -> Result<Verdict, AllocError>
        ensures { IfOk result (λ x. x ≡ self.now) }
    {
        Ok(match self {
            Verdict::Safe(frame, clauses) => {
                Verdict::Safe(*frame, copy_clauses(alloc, clauses.as_slice())?)
            }
            Verdict::Unsafe(run) => Verdict::Unsafe(run.copy(alloc)?),
            Verdict::NoUniversal(links) => {
                Verdict::NoUniversal(copy_links(alloc, links.as_slice())?)
            }
            Verdict::Bounded(frame, clauses, leaves) => Verdict::Bounded(
                *frame,
                copy_clauses(alloc, clauses.as_slice())?,
                copy_leaves(alloc, leaves.as_slice())?,
            ),
            Verdict::Spent(steps) => Verdict::Spent(*steps),
            Verdict::Over(kind, weight) => Verdict::Over(*kind, *weight),
            Verdict::NoRun(steps) => Verdict::NoRun(*steps),
        })
    }
}
