//! Laws of the weight of queries, each the contract of a function that does nothing.

ghost use Rattle.std.specs.Prelude.{ℕ, ◌≤◌, ◌++◌, true, List, length};
ghost use Rattle.std.specs.List.{All};
ghost use Rattle.fo_core.specs.declared.formula.Formula.{Formula};
ghost use Rattle.fo_core.specs.Literals.{IsLiteral, IsSubMultiset, cube_claim};
ghost use Rattle.fo_core.specs.QueryWeight.{IsNoHeavier};
ghost use Rattle.fo_core.specs.Universal.{IsUniversal};

/// Leaving literals, and then variables that stand in none, out of a claim that some elements
/// meet them all makes no query heavier. The literals that are left may name other variables than
/// before, so nothing ties the ones to the others but that there are no more of them.
pub fn fewer_literals_are_no_heavier()
    ensures { (ss ts : List ℕ) (fs gs : List Formula)
        → IsSubMultiset ts ss → All IsLiteral fs → All IsLiteral gs → length gs ≤ length fs
        → IsNoHeavier (cube_claim ts gs) (cube_claim ss fs) }
{}

/// Nor does leaving out formulas of any shape that have no existential in negation normal form,
/// where the others stay as they are.
pub fn fewer_formulas_are_no_heavier()
    ensures { (ss ts : List ℕ) (front part back : List Formula)
        → IsSubMultiset ts ss → All (IsUniversal true) part
        → IsNoHeavier (cube_claim ts (front ++ back)) (cube_claim ss (front ++ (part ++ back))) }
{}
