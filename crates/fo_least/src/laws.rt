//! Laws about the definitions, each the contract of a function that does nothing.

ghost use Rattle.std.specs.Prelude.{◌≡◌, ◌↔◌, ◌++◌, List, [], ◌∷◌, length};
ghost use Rattle.fo_core.specs.declared.query.Query.{Query};
ghost use Rattle.fo_core.specs.declared.signature.Sig.{Sig};
ghost use Rattle.fo_core.specs.declared.world.World.{World};
ghost use Rattle.fo_core.specs.Finds.{HasWorld};
ghost use Rattle.fo_core.specs.Queries.{IsQuery};
ghost use Rattle.fo_core.specs.Sorted.{IsSig};
ghost use Rattle.fo_core.specs.Tables.{Fits};
ghost use Rattle.fo_least.specs.Begins.{OneBegins};
ghost use Rattle.fo_core.specs.Asked.{AreNextSizes, AreNextValues, IsAsked, least_queries};
ghost use Rattle.fo_core.specs.Least.{world_values, IsLeast};

/// A query has at most one least world.
pub fn one_least_world()
    ensures { (sig : Sig) (q : Query) (v w : World) → IsLeast sig q v → IsLeast sig q w → v ≡ w }
{}

/// A world is least exactly where some world meets the query, and the world's sizes and values are
/// those that a search settles one by one: each is the least with which some world is left.
pub fn least_where_settled()
    ensures { (sig : Sig) (q : Query) (w : World) → IsSig sig → IsQuery sig q → Fits sig w →
        length w.copies ≡ q.copies →
        IsLeast sig q w ↔
        (HasWorld sig q × AreNextSizes sig q w.sizes ×
        AreNextValues sig q w.sizes (world_values w)) }
{}

/// A search asks queries that the least world determines: each that it asks stands in the list of
/// that world's queries, right after those asked before it.
pub fn asked_queries_are_those_of_the_least_world()
    ensures { (sig : Sig) (q : Query) (before : List Query) (p : Query) (w : World) →
        IsSig sig → IsQuery sig q → IsAsked sig q before p → IsLeast sig q w →
        (after : List Query) × (before ++ p ∷ after ≡ least_queries sig q w) }
{}

/// Where some world meets the query, it isn't so that no world is the least. It is said with two
/// negations since infinitely many worlds may come before one that meets the query, so that the
/// least can't be found from it by looking at each.
pub fn some_world_is_least()
    ensures { (sig : Sig) (q : Query) → HasWorld sig q → ¬ ((w : World) → ¬ IsLeast sig q w) }
{}

/// Which query a search asks next is determined: of two lists of queries that it asks to find the
/// least world of one query, each with the query asked last, one begins the other.
pub fn asked_queries_are_determined()
    ensures { (sig : Sig) (q : Query) (before others : List Query) (p r : Query) →
        IsAsked sig q before p → IsAsked sig q others r →
        OneBegins (before ++ p ∷ []) (others ++ r ∷ []) }
{}
