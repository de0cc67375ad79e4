//! What follows for values from the definitions of `specs/`.
ghost use Rattle.std.specs.Prelude.{ℕ, Bool, List};
ghost use Rattle.prop_core.specs.declared.lit.Lit.{Lit};
ghost use Rattle.prop_core.specs.Formula.{MeetsClause, MeetsAll};
ghost use Rattle.prop_core.specs.Answers.{HaveNoValues};
ghost use Rattle.prop_core.specs.Propagation.{Follows, IsDerivation, IsRefutation};

/// A clause that follows by unit propagation is met by all values that meet the clauses.
pub fn propagation_is_sound()
    ensures { (clauses : List (List Lit)) (clause : List Lit) (v : ℕ → Bool) → MeetsAll v clauses → Follows clauses clause → MeetsClause v clause }
{}

/// The clauses of a derivation are met by all values that meet the clauses it begins with.
pub fn derivation_is_sound()
    ensures { (clauses steps : List (List Lit)) (v : ℕ → Bool) → MeetsAll v clauses → IsDerivation clauses steps → MeetsAll v steps }
{}

/// Where there is a refutation, no values meet the clauses.
pub fn refutation_is_sound()
    ensures { (vars : ℕ) (cs steps : List (List Lit)) → IsRefutation vars cs steps → HaveNoValues cs }
{}
