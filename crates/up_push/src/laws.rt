//! A law about the definitions, the contract of a function that does nothing.

ghost use Rattle.std.specs.Prelude.{◌≡◌, ℕ, List};
ghost use Rattle.std.specs.List.{All};
ghost use Rattle.fo_core.specs.declared.system.System.{System};
ghost use Rattle.fo_core.specs.Sorted.{IsSystem};
ghost use Rattle.up_diagram.specs.declared.cube.Cube.{Cube};
ghost use Rattle.up_diagram.specs.Cubes.{IsCube};
ghost use Rattle.up_push.specs.declared.pushing.Pushing.{Pushing};
ghost use Rattle.up_push.specs.Pushing.{IsPushing};

/// Pushing a clause has at most one answer.
pub fn one_answer_of_push()
    ensures { (sys : System) (limit : ℕ) (frame : List Cube) (cube : Cube) (a b : Pushing) →
        IsSystem sys → All (IsCube sys.sig) frame → IsCube sys.sig cube →
        IsPushing sys limit frame cube a → IsPushing sys limit frame cube b → a ≡ b }
{}
