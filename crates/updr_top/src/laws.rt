//! What holds of the rows of commands, each law the contract of a function that does nothing.

ghost use Rattle.std.specs.Prelude.{◌≡◌, ℕ, List, Option};
ghost use Rattle.fo_core.specs.Sorted.{IsSystem};
ghost use Rattle.pyv_sorts.specs.declared.model.Elaborated.{Elaborated as Meant};
ghost use Rattle.up_core.specs.View.{CoreView};
ghost use Rattle.up_machine.specs.declared.limits.Limits.{Limits};
ghost use Rattle.up_rounds.specs.Courses.{AreAlike, IsRun};
ghost use Rattle.updr_told.specs.declared.status.Status.{Status};
ghost use Rattle.updr_top.specs.Infer.{search_text};
ghost use Rattle.updr_top.specs.Tellings.{Reports};

/// How many workers search changes nothing of what `updr` prints: where all other limits are the
/// same, so are the status and the text.
pub fn workers_change_no_report()
    ensures { (a b : Limits) (meant : Meant) (s t : Status) (x y : List ℕ)
        (left right : Option CoreView) →
        IsSystem meant.sys → AreAlike a b →
        Reports IsRun search_text a s meant x left →
        Reports IsRun search_text b t meant y right → (s ≡ t) × (x ≡ y) }
{}
