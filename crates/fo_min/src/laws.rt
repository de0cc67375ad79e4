//! Laws about the definitions, each the contract of a function that does nothing.

ghost use Rattle.std.specs.Prelude.{◌≡◌, ℕ};
ghost use Rattle.fo_core.specs.declared.query.Query.{Query};
ghost use Rattle.fo_core.specs.declared.signature.Sig.{Sig};
ghost use Rattle.fo_core.specs.Queries.{IsQuery};
ghost use Rattle.fo_core.specs.Sorted.{IsSig};
ghost use Rattle.fo_min.specs.declared.found.Excess.{Excess};
ghost use Rattle.fo_min.specs.declared.found.Least.{Least};
ghost use Rattle.fo_min.specs.Found.{IsExcess, IsFoundLeast};

/// At most one query of a search is the first above the limit.
pub fn one_excess()
    ensures { (sig : Sig) (q : Query) (limit : ℕ) (x y : Excess) →
        IsExcess sig q limit x → IsExcess sig q limit y → x ≡ y }
{}

/// A search for the least world has at most one answer.
pub fn one_answer_of_least()
    ensures { (sig : Sig) (q : Query) (limit : ℕ) (a b : Least) → IsSig sig → IsQuery sig q →
        IsFoundLeast sig q limit a → IsFoundLeast sig q limit b → a ≡ b }
{}
