//! Laws about the definitions, each the contract of a function that does nothing.

ghost use Rattle.std.specs.Prelude.{◌↔◌};
ghost use Rattle.std.specs.List.{All};
ghost use Rattle.fo_core.specs.declared.system.System.{System};
ghost use Rattle.fo_core.specs.Sorted.{IsSystem};
ghost use Rattle.up_claims.specs.Claims.{properties};
ghost use Rattle.up_claims.specs.Inductive.{IsInductive, NothingBreaks};
ghost use Rattle.up_claims.specs.VerifyQueries.{verify_cases, NeverBreaks};

/// The safeties and invariants together are inductive exactly where no world shows that one of them
/// fails at the start or by a transition, so where no world meets a query that verifies them.
pub fn inductive_where_nothing_breaks()
    ensures { (sys : System) → IsSystem sys → IsInductive sys (properties sys) ↔ NothingBreaks sys }
{}

/// They are inductive exactly where no case of the system's verification breaks.
pub fn inductive_where_no_case_breaks()
    ensures { (sys : System) → IsSystem sys → IsInductive sys (properties sys) ↔ All (NeverBreaks sys) (verify_cases sys) }
{}
