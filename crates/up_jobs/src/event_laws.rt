//! Which events the answer to a job allows, each law the contract of a function that does nothing.
//! A productive one has to be paid besides, and none comes after the end. A query above the limit
//! ends the run, whatever the job.

ghost use Rattle.std.specs.Prelude.{◌≡◌, ◌≢◌, ◌-◌, ℕ, List, [], Option};
ghost use Rattle.fo_core.specs.declared.system.System.{System};
ghost use Rattle.fo_core.specs.declared.world.World.{World};
ghost use Rattle.fo_min.specs.declared.found.Excess.{Excess};
ghost use Rattle.fo_min.specs.declared.found.Least.TheVariants as L;
ghost use Rattle.up_diagram.specs.declared.cube.Cube.{Cube};
ghost use Rattle.up_claims.specs.declared.kind.Kind.{Kind};
ghost use Rattle.up_claims.specs.declared.kind.Kind.TheVariants as K;
ghost use Rattle.up_block.specs.declared.blocking.Blocking.TheVariants as B;
ghost use Rattle.up_push.specs.declared.pushing.Pushing.TheVariants as P;
ghost use Rattle.up_unroll.specs.declared.unrolling.Unrolled.TheVariants as U;
ghost use Rattle.up_machine.specs.declared.brief.Brief.{Brief};
ghost use Rattle.up_machine.specs.declared.end.End.TheVariants as N;
ghost use Rattle.up_machine.specs.declared.event.Event.TheVariants as E;
ghost use Rattle.up_machine.specs.declared.event.Origin.TheVariants as O;
ghost use Rattle.up_machine.specs.declared.event.Why.TheVariants as Y;
ghost use Rattle.up_machine.specs.declared.limits.Limits.{Limits};
ghost use Rattle.up_machine.specs.Legal.{IsAllowed};
ghost use Rattle.up_machine.specs.Machine.{Work, Look, Push, Trace, Machine, IsIn, IsFirstRefuter};
ghost use Rattle.up_jobs.specs.declared.solved.Solved.TheVariants as S;
ghost use Rattle.up_jobs.specs.Reporting.{HasAnswer};

/// A look's seed is reported where it still lies in the frontier's frame, and else the first clause
/// that refutes it. Where there is none, the frame is secure if there was nothing to avoid.
pub fn an_answered_look_is_reported()
    ensures seed { (sys : System) (limits : Limits) (m : Machine) (brief : Brief)
        (w level : ℕ) (frame : List Cube) (avoid : List World) (done : ℕ) (s : World) →
        HasAnswer sys limits m w (Look level frame avoid done) brief (S.Look (L.Model s)) →
        IsIn sys m m.frontier s 0 → IsAllowed sys limits m (E.Seed w s) }
    ensures refuted { (sys : System) (limits : Limits) (m : Machine) (brief : Brief)
        (w level : ℕ) (frame : List Cube) (avoid : List World) (done : ℕ) (s : World) (c : ℕ) →
        HasAnswer sys limits m w (Look level frame avoid done) brief (S.Look (L.Model s)) →
        IsFirstRefuter sys m m.frontier s 0 c →
        IsAllowed sys limits m (E.Return w (Y.Refuted s c)) }
    ensures secure { (sys : System) (limits : Limits) (m : Machine) (brief : Brief)
        (w level : ℕ) (frame : List Cube) (avoid : List World) (done : ℕ) →
        HasAnswer sys limits m w (Look level frame avoid done) brief (S.Look L.Nothing) →
        brief.avoid ≡ [] → IsAllowed sys limits m (E.Secure w) }
    ensures no_more { (sys : System) (limits : Limits) (m : Machine) (brief : Brief)
        (w level : ℕ) (frame : List Cube) (avoid : List World) (done : ℕ) →
        HasAnswer sys limits m w (Look level frame avoid done) brief (S.Look L.Nothing) →
        brief.avoid ≢ [] → IsAllowed sys limits m (E.Return w Y.NoMore) }
    ensures over { (sys : System) (limits : Limits) (m : Machine) (brief : Brief)
        (w level : ℕ) (frame : List Cube) (avoid : List World) (done : ℕ) (x : Excess) →
        HasAnswer sys limits m w (Look level frame avoid done) brief (S.Look (L.Over x)) →
        IsAllowed sys limits m (E.Close w (N.Over K.Seed x)) }
{}

/// A work's answer is reported where the obligation's state still lies in the frame of its level: a
/// clause is learnt, or something comes before the obligation. A step has to lie in the frame below
/// besides, and else the first clause that refutes it is reported.
pub fn an_answered_work_is_reported()
    ensures learn { (sys : System) (limits : Limits) (m : Machine) (brief : Brief)
        (w k level : ℕ) (below : Option (List Cube)) (world : World) (cube : Cube) →
        HasAnswer sys limits m w (Work k level below world) brief (S.Work (B.Blocked cube)) →
        IsIn sys m level world 0 → IsAllowed sys limits m (E.Learn w cube) }
    ensures root { (sys : System) (limits : Limits) (m : Machine) (brief : Brief)
        (w k level : ℕ) (below : Option (List Cube)) (world u : World) →
        HasAnswer sys limits m w (Work k level below world) brief (S.Work (B.Initial u)) →
        IsIn sys m level world 0 → IsAllowed sys limits m (E.Before w (O.Initial u)) }
    ensures step { (sys : System) (limits : Limits) (m : Machine) (brief : Brief)
        (w k level : ℕ) (below : Option (List Cube)) (world p : World) →
        HasAnswer sys limits m w (Work k level below world) brief (S.Work (B.Step p)) →
        IsIn sys m level world 0 → IsIn sys m (level - 1) p 0 →
        IsAllowed sys limits m (E.Before w (O.Step p)) }
    ensures refuted { (sys : System) (limits : Limits) (m : Machine) (brief : Brief)
        (w k level : ℕ) (below : Option (List Cube)) (world p : World) (c : ℕ) →
        HasAnswer sys limits m w (Work k level below world) brief (S.Work (B.Step p)) →
        IsIn sys m level world 0 → IsFirstRefuter sys m (level - 1) p 0 c →
        IsAllowed sys limits m (E.Return w (Y.Refuted p c)) }
    ensures over { (sys : System) (limits : Limits) (m : Machine) (brief : Brief)
        (w k level : ℕ) (below : Option (List Cube)) (world : World)
        (what : Kind) (x : Excess) →
        HasAnswer sys limits m w (Work k level below world) brief (S.Work (B.Over what x)) →
        IsAllowed sys limits m (E.Close w (N.Over what x)) }
{}

/// A push raises its clause, or fails by a step that still leads out of the clause's frame. Else
/// the first clause that refutes the step is reported.
pub fn an_answered_push_is_reported()
    ensures holds { (sys : System) (limits : Limits) (m : Machine) (brief : Brief)
        (w k level : ℕ) (frame : List Cube) (cube : Cube) →
        HasAnswer sys limits m w (Push k level frame cube) brief (S.Push P.Holds) →
        IsAllowed sys limits m (E.Raise w) }
    ensures fails { (sys : System) (limits : Limits) (m : Machine) (brief : Brief)
        (w k level : ℕ) (frame : List Cube) (cube : Cube) (p : World) →
        HasAnswer sys limits m w (Push k level frame cube) brief (S.Push (P.Fails p)) →
        IsIn sys m level p 0 → IsAllowed sys limits m (E.Fail w p) }
    ensures refuted { (sys : System) (limits : Limits) (m : Machine) (brief : Brief)
        (w k level : ℕ) (frame : List Cube) (cube : Cube) (p : World) (c : ℕ) →
        HasAnswer sys limits m w (Push k level frame cube) brief (S.Push (P.Fails p)) →
        IsFirstRefuter sys m level p 0 c →
        IsAllowed sys limits m (E.Return w (Y.Refuted p c)) }
    ensures over { (sys : System) (limits : Limits) (m : Machine) (brief : Brief)
        (w k level : ℕ) (frame : List Cube) (cube : Cube) (what : Kind) (x : Excess) →
        HasAnswer sys limits m w (Push k level frame cube) brief (S.Push (P.Over what x)) →
        IsAllowed sys limits m (E.Close w (N.Over what x)) }
{}

/// A trace ends the run: by the violating run that it found, or since no universal invariant shows
/// the system safe.
pub fn an_answered_trace_is_reported()
    ensures run { (sys : System) (limits : Limits) (m : Machine) (brief : Brief)
        (w k steps : ℕ) (run : World) →
        HasAnswer sys limits m w (Trace k steps) brief (S.Trace (U.Run run)) →
        IsAllowed sys limits m (E.Close w (N.Unsafe run)) }
    ensures none { (sys : System) (limits : Limits) (m : Machine) (brief : Brief)
        (w k steps : ℕ) →
        HasAnswer sys limits m w (Trace k steps) brief (S.Trace U.NoRun) →
        IsAllowed sys limits m (E.Close w N.NoUniversal) }
    ensures over { (sys : System) (limits : Limits) (m : Machine) (brief : Brief)
        (w k steps : ℕ) (what : Kind) (x : Excess) →
        HasAnswer sys limits m w (Trace k steps) brief (S.Trace (U.Over what x)) →
        IsAllowed sys limits m (E.Close w (N.Over what x)) }
{}
