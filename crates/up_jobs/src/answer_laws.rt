//! A law about the definitions, the contract of a function that does nothing.

ghost use Rattle.std.specs.Prelude.{◌≡◌, ℕ};
ghost use Rattle.fo_core.specs.declared.system.System.{System};
ghost use Rattle.fo_core.specs.Sorted.{IsSystem};
ghost use Rattle.up_machine.specs.Machine.{Given};
ghost use Rattle.up_machine.specs.Sound.{IsFitGiven};
ghost use Rattle.up_jobs.specs.declared.solved.Solved.{Solved};
ghost use Rattle.up_jobs.specs.Solving.{IsAnswer};

/// A job has at most one answer.
pub fn one_answer_of_a_job()
    ensures { (sys : System) (limit : ℕ) (given : Given) (a b : Solved) →
        IsSystem sys → IsFitGiven sys.sig given →
        IsAnswer sys limit given a → IsAnswer sys limit given b → a ≡ b }
{}
