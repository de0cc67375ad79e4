//! Laws about the texts of reports, each the contract of a function that does nothing.

ghost use Rattle.std.specs.Prelude.{◌≡◌, ℕ, List, [], ◌++◌};
ghost use Rattle.fo_core.specs.declared.names.Names.{Names};
ghost use Rattle.fo_core.specs.declared.signature.Sig.{Sig};
ghost use Rattle.fo_core.specs.Sorted.{IsSig};
ghost use Rattle.up_claims.specs.declared.report.Report.{Report};
ghost use Rattle.up_report.specs.ClauseTexts.{CanName};
ghost use Rattle.up_report.specs.Reports.{IsReport, StopsAt};

/// A text is the text of at most one report.
pub fn one_report_has_a_text()
    ensures { (sig : Sig) (names : Names) (bytes : List ℕ) (r s : Report) →
        IsSig sig → CanName sig names →
        IsReport sig names bytes r → IsReport sig names bytes s → r ≡ s }
{}

/// Reports end by themselves: no other report goes on after one.
pub fn no_report_begins_another()
    ensures { (sig : Sig) (names : Names) (bytes more : List ℕ) (r s : Report) →
        IsSig sig → CanName sig names →
        IsReport sig names bytes r → IsReport sig names (bytes ++ more) s → more ≡ [] }
{}

/// There is at most one first place at which no report goes on.
pub fn reading_stops_at_one_place()
    ensures { (sig : Sig) (names : Names) (bytes : List ℕ) (p q : ℕ) →
        StopsAt sig names bytes p → StopsAt sig names bytes q → p ≡ q }
{}
