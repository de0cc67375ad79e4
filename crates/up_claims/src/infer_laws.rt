//! Laws about the queries of property-directed reachability, each the contract of a function that
//! does nothing.

ghost use Rattle.std.specs.Prelude.{◌↔◌, Option, List};
ghost use Rattle.std.specs.List.{All};
ghost use Rattle.fo_core.specs.declared.system.System.{System};
ghost use Rattle.fo_core.specs.Finds.{HasNoWorld};
ghost use Rattle.fo_core.specs.Sorted.{IsSystem};
ghost use Rattle.up_diagram.specs.declared.cube.Cube.{Cube};
ghost use Rattle.up_diagram.specs.Cubes.{IsCube};
ghost use Rattle.up_claims.specs.Blocked.{NoInitial, NoStep, NoSeed, IsBlocked};
ghost use Rattle.up_claims.specs.Finding.{IsSeed, IsRoot, IsStepInto};
ghost use Rattle.up_claims.specs.Frames.{IsFrame};
ghost use Rattle.up_claims.specs.InferQueries.{seed_query, root_query, before_query};
ghost use Rattle.up_claims.specs.InferSaid.{AsksFor};

/// The queries of inference are well-sorted, are met by what they are named for, and are stratified
/// for each numbering of the sorts that the system is for inference.
pub fn inference_queries_say_what_they_find()
    ensures seed { (sys : System) (frame avoid : List Cube) →
        IsSystem sys → All (IsCube sys.sig) frame → All (IsCube sys.sig) avoid →
        AsksFor sys (seed_query sys frame avoid) (IsSeed sys frame avoid) }
    ensures root { (sys : System) (cube : Cube) →
        IsSystem sys → IsCube sys.sig cube →
        AsksFor sys (root_query sys cube) (IsRoot sys cube) }
    ensures before { (sys : System) (frame : Option (List Cube)) (cube : Cube) →
        IsSystem sys → IsFrame sys.sig frame → IsCube sys.sig cube →
        AsksFor sys (before_query sys frame cube) (IsStepInto sys frame cube) }
{}

/// A cube is blocked exactly where two queries have no world: that of an initial state in it, and
/// that of a step into it from the frame.
pub fn blocked_where_no_world_shows_it()
    ensures initial { (sys : System) (cube : Cube) →
        IsSystem sys → IsCube sys.sig cube →
        NoInitial sys cube ↔ HasNoWorld sys.sig (root_query sys cube) }
    ensures step { (sys : System) (frame : Option (List Cube)) (cube : Cube) →
        IsSystem sys → IsFrame sys.sig frame → IsCube sys.sig cube →
        NoStep sys frame cube ↔ HasNoWorld sys.sig (before_query sys frame cube) }
    ensures blocked { (sys : System) (frame : Option (List Cube)) (cube : Cube) →
        IsSystem sys → IsFrame sys.sig frame → IsCube sys.sig cube →
        IsBlocked sys frame cube ↔
        HasNoWorld sys.sig (root_query sys cube) × HasNoWorld sys.sig (before_query sys frame cube) }
{}

/// The query of a seed has no world exactly where no copy of any world is a state of the frame that
/// violates a safety and meets none of the cubes to avoid.
pub fn no_seed_in_any_copy()
    ensures { (sys : System) (frame avoid : List Cube) →
        IsSystem sys → All (IsCube sys.sig) frame → All (IsCube sys.sig) avoid →
        HasNoWorld sys.sig (seed_query sys frame avoid) ↔ NoSeed sys frame avoid }
{}
