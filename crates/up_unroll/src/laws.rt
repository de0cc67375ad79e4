//! A law about the definitions, the contract of a function that does nothing.

ghost use Rattle.std.specs.Prelude.{◌≡◌, ℕ};
ghost use Rattle.fo_core.specs.declared.system.System.{System};
ghost use Rattle.fo_core.specs.Sorted.{IsSystem};
ghost use Rattle.up_unroll.specs.declared.unrolling.Unrolled.{Unrolled};
ghost use Rattle.up_unroll.specs.Unrolling.{IsUnrolled};

/// A search for a violating run has at most one answer.
pub fn one_answer_of_unroll()
    ensures { (sys : System) (limit steps : ℕ) (a b : Unrolled) → IsSystem sys →
        IsUnrolled sys limit steps a → IsUnrolled sys limit steps b → a ≡ b }
{}
