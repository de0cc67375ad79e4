//! Laws about judging verdicts, each the contract of a function that does nothing.

ghost use Rattle.std.specs.Prelude.{◌≡◌, ◌↔◌, ℕ, List};
ghost use Rattle.std.specs.List.{All, flat_map};
ghost use Rattle.fo_core.specs.declared.formula.Formula.{Formula};
ghost use Rattle.fo_core.specs.declared.system.System.{System};
ghost use Rattle.fo_core.specs.Finds.{IsLight};
ghost use Rattle.fo_core.specs.Sorted.{IsSystem};
ghost use Rattle.up_claims.specs.declared.verdict.Link.{Link};
ghost use Rattle.up_claims.specs.declared.verdict.Verdict.{Verdict};
ghost use Rattle.up_claims.specs.declared.verdict.Verdict.TheVariants as verdict;
ghost use Rattle.up_claims.specs.Inductive.{IsUniversalInvariant};
ghost use Rattle.up_claims.specs.Judging.{judge_queries};
ghost use Rattle.up_claims.specs.Verdicts.{Holds};
ghost use Rattle.up_cert.specs.declared.judged.Judged.{Judged};
ghost use Rattle.up_cert.specs.declared.judged.Judged.TheVariants as judged;
ghost use Rattle.up_cert.specs.declared.spot.Spot.{Spot};
ghost use Rattle.up_cert.specs.Asked.{IsVerdict};
ghost use Rattle.up_cert.specs.Judging.{FindsHeavy, IsJudged};
ghost use Rattle.up_cert.specs.VerdictSpots.{Passes, queries_at, spots_of};

/// All spots of a verdict over the system's signature pass exactly where it holds.
pub fn a_verdict_holds_where_all_spots_pass()
    ensures { (sys : System) (told : Verdict) → IsVerdict sys.sig told →
        All (Passes sys told) (spots_of told) ↔ Holds sys told }
{}

/// The queries of all spots, in their order, are those that are to have no world for the verdict to
/// hold.
pub fn queries_of_the_spots_judge_a_verdict()
    ensures { (sys : System) (told : Verdict) →
        flat_map (queries_at sys told) (spots_of told) ≡ judge_queries sys told }
{}

/// A verdict that is judged to hold does, and one that is judged to be wrong doesn't.
pub fn judged_rightly()
    ensures holds { (sys : System) (limit : ℕ) (told : Verdict) → IsVerdict sys.sig told →
        IsJudged sys limit told judged.Holds → Holds sys told }
    ensures wrong { (sys : System) (limit : ℕ) (told : Verdict) (s : Spot) →
        IsJudged sys limit told (judged.Wrong s) → ¬ Holds sys told }
{}

/// A weight that is told is that of the first query above the limit, of all that are to have no
/// world for the verdict to hold, and those before it have none. Where a verdict is judged to hold,
/// none of them is above the limit.
pub fn the_first_excess_is_told()
    ensures heavy { (sys : System) (limit weight : ℕ) (told : Verdict) →
        IsSystem sys → IsVerdict sys.sig told →
        IsJudged sys limit told (judged.Over weight) →
        FindsHeavy sys.sig limit (judge_queries sys told) weight }
    ensures light { (sys : System) (limit : ℕ) (told : Verdict) →
        IsJudged sys limit told judged.Holds →
        All (IsLight sys.sig limit) (judge_queries sys told) }
{}

/// Where a chain is judged to hold, the system has no universal invariant.
pub fn an_accepted_chain_leaves_no_universal_invariant()
    ensures { (sys : System) (limit : ℕ) (links : List Link) (fs : List Formula) →
        IsJudged sys limit (verdict.NoUniversal links) judged.Holds →
        ¬ IsUniversalInvariant sys fs }
{}

/// A verdict is judged in one way.
pub fn one_judgement()
    ensures { (sys : System) (limit : ℕ) (told : Verdict) (a b : Judged) →
        IsJudged sys limit told a → IsJudged sys limit told b → a ≡ b }
{}
