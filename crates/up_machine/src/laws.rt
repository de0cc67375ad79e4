//! What holds of the frames of every legal history, each law the contract of a function that does
//! nothing.

ghost use Rattle.std.specs.Prelude.{◌≡◌, ℕ, ◌+◌, ◌<◌, ◌≤◌, ◌↔◌, [], ◌∷◌, ◌++◌, List, Some, length, slice_get};
ghost use Rattle.fo_core.specs.declared.system.System.{System};
ghost use Rattle.fo_core.specs.declared.world.World.{World};
ghost use Rattle.fo_core.specs.Runs.{Reach};
ghost use Rattle.fo_core.specs.Sorted.{IsSystem};
ghost use Rattle.fo_core.specs.Tables.{Fits};
ghost use Rattle.up_diagram.specs.Cubes.{Meets};
ghost use Rattle.up_machine.specs.declared.event.Event.{Event};
ghost use Rattle.up_machine.specs.declared.event.Event.TheVariants.{Retire};
ghost use Rattle.up_machine.specs.declared.limits.Limits.{Limits};
ghost use Rattle.up_machine.specs.Legal.{Legal};
ghost use Rattle.up_machine.specs.Machine.{Clause, IsIn};
ghost use Rattle.up_machine.specs.Replay.{replay};

/// Frames only grow stronger: a state of a frame now was one of the same frame at each earlier
/// moment.
pub fn frames_only_grow_stronger()
    ensures { (sys : System) (limits : Limits) (before after : List Event)
        (i : ℕ) (w : World) (c : ℕ) →
        Legal sys limits (before ++ after) →
        IsIn sys (replay (before ++ after)) i w c → IsIn sys (replay before) i w c }
{}

/// A Retire changes no frame's states.
pub fn a_retire_keeps_frames()
    ensures { (sys : System) (limits : Limits) (history : List Event)
        (v gone by i : ℕ) (w : World) (c : ℕ) →
        Legal sys limits (history ++ Retire v gone by ∷ []) →
        IsIn sys (replay history) i w c ↔
        IsIn sys (replay (history ++ Retire v gone by ∷ [])) i w c }
{}

/// Each state of a frame is one of the next frame.
pub fn frames_rise()
    ensures { (sys : System) (limits : Limits) (history : List Event) (i : ℕ) (w : World) (c : ℕ) →
        Legal sys limits history → Fits sys.sig w → c < length w.copies →
        IsIn sys (replay history) i w c → IsIn sys (replay history) (i + 1) w c }
{}

/// A state of a frame meets the cube of no clause of the frame's level or a higher one, be the
/// clause live or gone.
pub fn frames_avoid_clauses_live_or_gone()
    ensures { (sys : System) (limits : Limits) (history : List Event)
        (w : World) (c i k : ℕ) (clause : Clause) →
        Legal sys limits history → 1 ≤ i → IsIn sys (replay history) i w c →
        slice_get (replay history).clauses k ≡ Some clause → i ≤ clause.level →
        ¬ Meets sys.sig w c clause.cube }
{}

/// Frames hold: a state that is reached within so many steps is in the frame of that number.
pub fn frames_hold()
    ensures { (sys : System) (limits : Limits) (history : List Event) (i : ℕ) (s : World) →
        IsSystem sys → Legal sys limits history →
        Reach sys i s → IsIn sys (replay history) i s 0 }
{}
