//! Laws about copies taken out of a world, and about the states that a system reaches, each the
//! contract of a function that does nothing.

ghost use Rattle.std.specs.Prelude.{◌≡◌, ℕ, length};
ghost use Rattle.fo_core.specs.declared.system.System.{System};
ghost use Rattle.fo_core.specs.declared.world.World.{World};
ghost use Rattle.fo_core.specs.RunLaws.{KeepsAlone, KeepsPair, ReachedByStep};
ghost use Rattle.fo_core.specs.Runs.{alone, pair};
ghost use Rattle.fo_core.specs.Sorted.{IsSystem};

/// A copy alone is a world of one copy, in which it is the same state. A world of one copy is that
/// copy alone.
pub fn copy_alone_keeps_meaning()
    ensures keeps { (sys : System) (w : World) (c : ℕ) → IsSystem sys → KeepsAlone sys w c }
    ensures itself { (w : World) → length w.copies ≡ 1 → alone w 0 ≡ w }
{}

/// A copy and the next one are a world of two copies, in which they are the same states and the
/// same step. A world of two copies is that pair.
pub fn pair_of_copies_keeps_meaning()
    ensures keeps { (sys : System) (w : World) (c : ℕ) → IsSystem sys → KeepsPair sys w c }
    ensures itself { (w : World) → length w.copies ≡ 2 → pair w 0 ≡ w }
{}

/// A well-sorted system reaches within no step the initial states, and within one more step the
/// states that it reaches without it and those that a step leads to from these.
pub fn reached_step_by_step()
    ensures { (sys : System) → IsSystem sys → ReachedByStep sys }
{}
