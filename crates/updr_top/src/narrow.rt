//! Whether all of a verdict has a text. Sizes of worlds are numbers of 32 bits by their type; that of
//! a clause's variables there are fewer than 2^32 has to be asked.

ghost use Rattle.std.specs.Prelude.{◌<◌, ◌^◌, IsTrue};
ghost use Rattle.std.specs.List.{All};
ghost use Rattle.updr_top.specs.Narrow.{HasFewVariables, IsNarrow, IsNarrowLeave, IsNarrowLink};

use up_claims::{Kept, Leave, Link, Verdict};

/// Looks at each size, so that it is known to be a number of 32 bits.
pub fn go_through(sizes: &[u32])
    ensures { All (λ n. n < 2 ^ 32) sizes.now }
{
    'each: for size in sizes {
        let _size = *size;
    }
}

/// Looks at the sizes of a link's worlds.
fn go_through_link(link: &Link)
    ensures { IsNarrowLink link.now }
{
    go_through(link.origin.sizes.as_slice());
    go_through(link.state.sizes.as_slice());
}

/// Looks at the sizes of the worlds of links.
fn go_through_links(links: &[Link])
    ensures { All IsNarrowLink links.now }
{
    'each: for link in links {
        go_through_link(link);
    }
}

/// Looks at the sizes of a leave's world, and at its clause's number.
fn go_through_leave(leave: &Leave)
    ensures { IsNarrowLeave leave.now }
{
    go_through(leave.step.sizes.as_slice());
    let _clause = leave.clause;
}

/// Looks at the sizes of the worlds of leaves.
fn go_through_leaves(leaves: &[Leave])
    ensures { All IsNarrowLeave leaves.now }
{
    'each: for leave in leaves {
        go_through_leave(leave);
    }
}

/// Whether each of these clauses has fewer than 2^32 variables.
fn have_few_variables(clauses: &[Kept]) -> bool
    ensures { IsTrue result → All HasFewVariables clauses.now }
{
    'each: for kept in clauses {
        if kept.cube.sorts.len() > u32::MAX as usize {
            return false;
        }
    }
    true
}

/// Whether each clause of the verdict has fewer than 2^32 variables. All else of it has a text by
/// its type.
pub fn is_narrow(verdict: &Verdict) -> bool
    ensures { IsTrue result → IsNarrow verdict.now }
{
    match verdict {
        Verdict::Safe(_, clauses) => have_few_variables(clauses.as_slice()),
        Verdict::Unsafe(run) => {
            go_through(run.sizes.as_slice());
            true
        }
        Verdict::NoUniversal(links) => {
            go_through_links(links.as_slice());
            true
        }
        Verdict::Bounded(_, clauses, leaves) => {
            go_through_leaves(leaves.as_slice());
            have_few_variables(clauses.as_slice())
        }
        Verdict::Spent(steps) => {
            let _steps = *steps;
            true
        }
        Verdict::Over(_, weight) => {
            let _weight = *weight;
            true
        }
        Verdict::NoRun(_) => true,
    }
}
