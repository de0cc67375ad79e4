//! Laws about verdicts, each the contract of a function that does nothing.

ghost use Rattle.std.specs.Prelude.{◌↔◌, ◌+◌, ◌<◌, ◌≤◌, ℕ, List, length};
ghost use Rattle.std.specs.List.{All};
ghost use Rattle.fo_core.specs.declared.formula.Formula.{Formula};
ghost use Rattle.fo_core.specs.declared.system.System.{System};
ghost use Rattle.fo_core.specs.declared.world.World.{World};
ghost use Rattle.fo_core.specs.Finds.{HasNoWorld};
ghost use Rattle.fo_core.specs.Runs.{IsRun, IsSafe};
ghost use Rattle.fo_core.specs.Sorted.{IsSystem};
ghost use Rattle.up_diagram.specs.declared.cube.Cube.{Cube};
ghost use Rattle.up_diagram.specs.Cubes.{IsCube};
ghost use Rattle.up_claims.specs.declared.verdict.Kept.{Kept};
ghost use Rattle.up_claims.specs.declared.verdict.Leave.{Leave};
ghost use Rattle.up_claims.specs.declared.verdict.Link.{Link};
ghost use Rattle.up_claims.specs.declared.verdict.Verdict.{Verdict};
ghost use Rattle.up_claims.specs.Chains.{IsChain};
ghost use Rattle.up_claims.specs.CubeInvariants.{AreInvariant};
ghost use Rattle.up_claims.specs.Frames.{IsInFrame};
ghost use Rattle.up_claims.specs.Inductive.{IsInvariant, IsUniversalInvariant};
ghost use Rattle.up_claims.specs.InferQueries.{clauses_of};
ghost use Rattle.up_claims.specs.Judging.{HasCubes, IsShown, judge_queries};
ghost use Rattle.up_claims.specs.RunQueries.{IsLeastRun, run_queries};
ghost use Rattle.up_claims.specs.Verdicts.{printed_frame, IsBounded, HasNoRunWithin, Holds, IsShortest};

/// Where a system has a chain, no universal sentences are an invariant of it: a chain is an
/// abstract counterexample (Karbyshev, Bjørner, Itzhaky, Rinetzky and Shoham, "Property-directed
/// inference of universal invariants or proving their absence", 2015).
pub fn a_chain_leaves_no_universal_invariant()
    ensures { (sys : System) (links : List Link) (fs : List Formula) →
        IsChain sys links → ¬ IsUniversalInvariant sys fs }
{}

/// The clauses of well-sorted cubes are a universal invariant exactly where no initial state meets
/// a cube, no step leads into one from a state that meets none, and no such state violates a
/// safety.
pub fn clauses_are_a_universal_invariant_where_cubes_are_avoided()
    ensures { (sys : System) (cubes : List Cube) →
        All (IsCube sys.sig) cubes →
        IsUniversalInvariant sys (clauses_of sys.sig cubes) ↔ AreInvariant sys cubes }
{}

/// No violating run has at most `k` steps exactly where no query of a run of so many steps has a
/// world.
pub fn no_run_where_no_run_query_has_a_world()
    ensures { (sys : System) (k : ℕ) →
        HasNoRunWithin sys k ↔ All (HasNoWorld sys.sig) (run_queries sys (k + 1)) }
{}

/// A verdict with well-sorted clauses holds of a well-sorted system exactly where what its worlds
/// are to show is so, and none of its queries has a world.
pub fn holds_where_no_judge_query_has_a_world()
    ensures { (sys : System) (told : Verdict) →
        IsSystem sys → HasCubes sys.sig told →
        Holds sys told ↔
        IsShown sys told × All (HasNoWorld sys.sig) (judge_queries sys told) }
{}

/// The least of the violating runs of fewest steps is a shortest one.
pub fn the_least_run_is_shortest()
    ensures { (sys : System) (steps k : ℕ) (w : World) →
        IsLeastRun sys steps k w → IsShortest sys w }
{}

/// A system that has an invariant is safe.
pub fn a_system_with_an_invariant_is_safe()
    ensures { (sys : System) (fs : List Formula) → IsInvariant sys fs → IsSafe sys }
{}

/// The frames of a bounded verdict that holds hold: each state that a run reaches within `i` steps
/// is in frame `i`. So no violating run has at most as many steps as the number of the last frame.
pub fn frames_of_a_bounded_verdict_hold()
    ensures frames { (sys : System) (last : ℕ) (clauses : List Kept) (leaves : List Leave) →
        IsBounded sys last clauses leaves →
        (w : World) → IsRun sys w →
        (c i : ℕ) → c < length w.copies → c ≤ i →
        IsInFrame sys (printed_frame clauses i) w c }
    ensures runs { (sys : System) (last : ℕ) (clauses : List Kept) (leaves : List Leave) →
        IsBounded sys last clauses leaves → 1 ≤ last → HasNoRunWithin sys last }
{}
