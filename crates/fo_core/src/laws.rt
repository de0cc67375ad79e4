//! Laws about the definitions, each the contract of a function that does nothing.

ghost use Rattle.std.specs.Prelude.{◌≡◌, ◌⊎◌, ◌↔◌, ◌++◌, ◌+◌, ◌<◌, ℕ, true, List, [], length, map, slice_index_or};
ghost use Rattle.std.specs.List.{All, AllZip};
ghost use Rattle.fo_core.specs.declared.signature.Sig.{Sig};
ghost use Rattle.fo_core.specs.declared.term.Term.{Term};
ghost use Rattle.fo_core.specs.declared.formula.Formula.{Formula};
ghost use Rattle.fo_core.specs.declared.system.System.{System};
ghost use Rattle.fo_core.specs.declared.world.World.{World};
ghost use Rattle.fo_core.specs.Truth.{Truth, value};
ghost use Rattle.fo_core.specs.Sorted.{IsTerm, IsFormula, IsSystem};
ghost use Rattle.fo_core.specs.Runs.{AreElements, IsSafe, Reach, Violates};
ghost use Rattle.fo_core.specs.Over.{all_over, some_over, variables};
ghost use Rattle.fo_core.specs.SortGraph.{HasExistential, FormulaEdge};
ghost use Rattle.fo_core.specs.Tables.{tuples, place};
ghost use Rattle.fo_core.specs.Tuples.{tuple_at, all_tuples};
ghost use Rattle.fo_core.specs.Agreeing.{Agree};
ghost use Rattle.fo_core.specs.Shift.{shift};

/// In a finite world each formula is true or it is not, under any values.
pub fn truth_is_decided()
    ensures { (sig : Sig) (w : World) (c : ℕ) (f : Formula) (vs : List ℕ) → Truth sig w c f vs ⊎ (¬ Truth sig w c f vs) }
{}

/// Truth speaks of the copies that a formula names, and of no others: where two worlds agree on
/// those copies, the formula is true in both or in neither.
pub fn truth_reads_named_copies()
    ensures { (sig : Sig) (n : ℕ) (v : World) (c : ℕ) (w : World) (d : ℕ) → Agree n v c w d → (f : Formula) (ss vs : List ℕ) → IsFormula sig n f ss → Truth sig v c f vs ↔ Truth sig w d f vs }
{}

/// A term reads the values of the variables that are bound, and none behind them.
pub fn terms_read_bound_values()
    ensures { (sig : Sig) (n : ℕ) (w : World) (c : ℕ) (t : Term) (ss vs more : List ℕ) (s : ℕ) → IsTerm sig n t ss s → length vs ≡ length ss → value sig w c t (vs ++ more) ≡ value sig w c t vs }
{}

/// A system is safe exactly where no reachable state violates a safety.
pub fn safe_where_no_reachable_state_violates()
    ensures { (sys : System) → IsSystem sys → IsSafe sys ↔ ((k : ℕ) (s : World) → Reach sys k s → ¬ Violates sys s 0) }
{}

/// A shifted formula is true where the formula is true that many copies on.
pub fn shifted_moves_copies()
    ensures { (sig : Sig) (w : World) (c by : ℕ) (f : Formula) (vs : List ℕ) → Truth sig w c (shift sig by f) vs ↔ Truth sig w (c + by) f vs }
{}

/// A formula under a list of universals is true exactly where it is for all elements of their sorts,
/// and under a list of existentials exactly where it is for some.
pub fn quantifiers_range_over_elements()
    ensures all { (sig : Sig) (w : World) (c : ℕ) (ss : List ℕ) (f : Formula) (vs : List ℕ) → Truth sig w c (all_over ss f) vs ↔ ((xs : List ℕ) → AreElements w.sizes xs ss → Truth sig w c f (vs ++ xs)) }
    ensures some { (sig : Sig) (w : World) (c : ℕ) (ss : List ℕ) (f : Formula) (vs : List ℕ) → Truth sig w c (some_over ss f) vs ↔ ((xs : List ℕ) × AreElements w.sizes xs ss × Truth sig w c f (vs ++ xs)) }
{}

/// A formula under quantifiers over sorts of the signature is well-sorted where the formula is under
/// variables of these sorts.
pub fn quantified_formulas_are_well_sorted()
    ensures all { (sig : Sig) (n : ℕ) (rs : List ℕ) (f : Formula) (ss : List ℕ) → All (λ s. s < sig.sorts) rs → IsFormula sig n f (ss ++ rs) → IsFormula sig n (all_over rs f) ss }
    ensures some { (sig : Sig) (n : ℕ) (rs : List ℕ) (f : Formula) (ss : List ℕ) → All (λ s. s < sig.sorts) rs → IsFormula sig n f (ss ++ rs) → IsFormula sig n (some_over rs f) ss }
{}

/// Outermost existentials add no edge to the sort graph, and universals over a formula that has no
/// existential add none.
pub fn outer_quantifiers_add_no_edge()
    ensures all { (a b : ℕ) (ss : List ℕ) (f : Formula) → ¬ HasExistential b f true → FormulaEdge a b (all_over ss f) true → FormulaEdge a b f true }
    ensures some { (a b : ℕ) (ss : List ℕ) (f : Formula) → FormulaEdge a b (some_over ss f) true → FormulaEdge a b f true }
{}

/// The variables that come after others have the values that come after theirs.
pub fn variables_read_values()
    ensures { (sig : Sig) (w : World) (c : ℕ) (vs ys : List ℕ) → map (λ t. value sig w c t (vs ++ ys)) (variables (length vs) (length ys)) ≡ ys }
{}

/// Tuples of elements below some sizes have the numbers from 0 on, as many as there are tuples: each
/// number is that of the tuple that it has, and each tuple the one that has its number.
pub fn tuples_are_numbered()
    ensures number { (ns : List ℕ) (j : ℕ) → j < tuples ns → place ns (tuple_at ns j) ≡ j }
    ensures below { (ns : List ℕ) (j : ℕ) → j < tuples ns → AllZip (λ x n. x < n) (tuple_at ns j) ns }
    ensures tuple { (ns xs : List ℕ) → AllZip (λ x n. x < n) xs ns → tuple_at ns (place ns xs) ≡ xs }
{}

/// All tuples stand in the order of their numbers.
pub fn all_tuples_are_in_order()
    ensures count { (ns : List ℕ) → length (all_tuples ns) ≡ tuples ns }
    ensures each { (ns : List ℕ) (j : ℕ) (d : List ℕ) → j < tuples ns → slice_index_or (all_tuples ns) j d ≡ tuple_at ns j }
{}
