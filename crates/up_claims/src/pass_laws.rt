//! Laws about the pass that drops literals of a blocked cube, each the contract of a function that
//! does nothing.

ghost use Rattle.std.specs.Prelude.{◌≡◌, ◌≤◌, ℕ, List, Option};
ghost use Rattle.fo_core.specs.declared.query.Query.{Query};
ghost use Rattle.fo_core.specs.declared.system.System.{System};
ghost use Rattle.fo_core.specs.Finds.{HasNoWorld, IsLight};
ghost use Rattle.fo_core.specs.QueryWeight.{query_weight};
ghost use Rattle.up_claims.specs.declared.kind.Kind.{Kind};
ghost use Rattle.up_claims.specs.Blocked.{IsBlocked, IsPass, IsMinimal};
ghost use Rattle.up_claims.specs.InferAsked.{IsBlockAsked};
ghost use Rattle.up_claims.specs.InferQueries.{root_query, before_query};
ghost use Rattle.up_diagram.specs.declared.cube.Cube.{Cube};
ghost use Rattle.up_diagram.specs.Cubes.{HasPlaces, without};

/// What one pass leaves of a blocked cube is blocked, and without any one of its literals it isn't:
/// a literal whose loss unblocks the cube can't be dropped once later ones are gone either.
pub fn a_pass_leaves_a_minimal_cube()
    ensures { (sys : System) (frame : Option (List Cube)) (cube rest : Cube) → HasPlaces cube →
        IsBlocked sys frame cube → IsPass sys frame cube rest → IsMinimal sys frame rest }
{}

/// A pass leaves one cube.
pub fn a_pass_has_one_result()
    ensures { (sys : System) (frame : Option (List Cube)) (cube rest other : Cube) →
        IsPass sys frame cube rest → IsPass sys frame cube other → rest ≡ other }
{}

/// A cube without a literal has queries that are no heavier than the cube's own. So where the
/// queries of a blocked cube aren't above a limit, no query that the cube's block asks is.
pub fn no_query_of_a_pass_is_heavier()
    ensures root { (sys : System) (cube : Cube) (k : ℕ) →
        query_weight sys.sig (root_query sys (without cube k)) ≤
        query_weight sys.sig (root_query sys cube) }
    ensures before { (sys : System) (frame : Option (List Cube)) (cube : Cube) (k : ℕ) →
        query_weight sys.sig (before_query sys frame (without cube k)) ≤
        query_weight sys.sig (before_query sys frame cube) }
    ensures light { (sys : System) (limit : ℕ) (frame : Option (List Cube)) (cube : Cube)
        (asked : List Query) (what : Kind) (q : Query) →
        HasNoWorld sys.sig (root_query sys cube) →
        HasNoWorld sys.sig (before_query sys frame cube) →
        IsLight sys.sig limit (root_query sys cube) →
        IsLight sys.sig limit (before_query sys frame cube) →
        IsBlockAsked sys frame cube asked what q → IsLight sys.sig limit q }
{}
