//! A law about the definitions, the contract of a function that does nothing.

ghost use Rattle.std.specs.Prelude.{ℕ};
ghost use Rattle.fo_core.specs.declared.system.System.{System};
ghost use Rattle.fo_core.specs.Sorted.{IsSystem};
ghost use Rattle.up_verify.specs.declared.verified.Verified.{Verified};
ghost use Rattle.up_verify.specs.Verifying.{IsVerification, AreAlike};

/// A verification has at most one answer, but for the world that shows a failure where a query of the
/// search for the least one is above the limit.
pub fn one_answer_of_verify()
    ensures { (sys : System) (limit : ℕ) (a b : Verified) → IsSystem sys →
        IsVerification sys limit a → IsVerification sys limit b → AreAlike a b }
{}
