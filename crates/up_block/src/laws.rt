//! A law about the definitions, the contract of a function that does nothing.

ghost use Rattle.std.specs.Prelude.{◌≡◌, ℕ, List, Option};
ghost use Rattle.fo_core.specs.declared.system.System.{System};
ghost use Rattle.fo_core.specs.Sorted.{IsSystem};
ghost use Rattle.up_block.specs.declared.blocking.Blocking.{Blocking};
ghost use Rattle.up_block.specs.Blocking.{IsBlocking};
ghost use Rattle.up_claims.specs.Frames.{IsFrame};
ghost use Rattle.up_diagram.specs.declared.cube.Cube.{Cube};
ghost use Rattle.up_diagram.specs.Cubes.{IsCube};

/// Blocking a cube has at most one answer.
pub fn one_answer_of_block()
    ensures { (sys : System) (limit : ℕ) (frame : Option (List Cube)) (cube : Cube) (a b : Blocking) →
        IsSystem sys → IsFrame sys.sig frame → IsCube sys.sig cube →
        IsBlocking sys limit frame cube a → IsBlocking sys limit frame cube b → a ≡ b }
{}
