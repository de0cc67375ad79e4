ghost use Rattle.std.specs.Prelude.{◌≡◌, ◌-◌, ◌<◌, ◌^◌, ℕ, List, length, IfOk};
ghost use Rattle.std.specs.List.{All};
ghost use Rattle.fo_core.specs.Sorted.{IsSystem, IsWithinDepth};
ghost use Rattle.fo_core.specs.Tables.{IsReadable};
ghost use Rattle.up_claims.specs.declared.verdict.Leave.{Leave as LeaveOf};
ghost use Rattle.up_claims.specs.declared.verdict.Verdict.TheVariants as verdict;
ghost use Rattle.up_claims.specs.Inferring.{CanInfer};
ghost use Rattle.up_cert.specs.Asked.{CanJudgeVerdict, CanLook, HasLinkWorlds};
ghost use Rattle.up_cert.specs.Clauses.{AreClauses};
ghost use Rattle.up_cert.specs.Judging.{IsFound, IsJudged};
ghost use Rattle.up_cert.specs.Trying.{answer_told, halt_told, look_told};
ghost use Rattle.up_cert.specs.VerdictSpots.{frame_spots, spots_of};

use crate::answer::{Answer, Halt};
use crate::asking::{try_runs, try_seed};
use crate::chain::{ends_badly, first_wrong_link};
use crate::clauses::{cubes_of, first_initial, first_step, first_step_below, try_frame};
use crate::judged::Judged;
use crate::leaving::first_unleft;
use crate::run::judge_run;
use crate::spot::{Spot, What};
use fo_core::{Finder, Order, System, World};
use fo_eval::Env;
use std::alloc::{AllocError, Global};
use up_claims::{Kept, Leave, Link, Verdict};

/// How many binders may stand above a place of a formula.
const DEPTH: u32 = 64;

/// What is told where things that were asked for by number weren't all so.
fn halted(halt: Halt, what: What) -> Judged
    ensures { result ≡ halt_told what halt }
{
    match halt {
        Halt::Fails(number) => Judged::Wrong(Spot { what, number }),
        Halt::Over(weight) => Judged::Over(weight),
    }
}

/// What is told where the last spot, of this kind, came out so.
fn answered(answer: Answer, what: What) -> Judged
    ensures { result ≡ answer_told what answer }
{
    match answer {
        Answer::Passes => Judged::Holds,
        Answer::Fails => Judged::Wrong(Spot { what, number: 0 }),
        Answer::Over(weight) => Judged::Over(weight),
    }
}

/// What is told where spots were looked at.
fn looked(first: Option<Spot>) -> Judged
    ensures { result ≡ look_told first }
{
    match first {
        None => Judged::Holds,
        Some(spot) => Judged::Wrong(spot),
    }
}

/// Judges whether the clauses are an invariant.
fn judge_safe<F: Finder>(
    alloc: Global,
    f: &mut F,
    sys: &System,
    order: &Order,
    clauses: &[Kept],
) -> Result<Judged, AllocError>
    requires infer { CanInfer sys.now order.now }
    requires clauses { AreClauses sys.now.sig clauses.now }
    ensures found { IfOk result (λ judged. (frame : ℕ) →
        IsFound sys.now (F.limit f.old) (verdict.Safe frame clauses.now)
        (spots_of (verdict.Safe frame clauses.now)) judged) }
    ensures limit { F.limit f.new ≡ F.limit f.old }
{
    if let Some(halt) = first_initial(alloc, f, sys, order, clauses)? {
        return Ok(halted(halt, What::Init));
    }
    let cubes = cubes_of(alloc, clauses)?;
    if let Some(halt) = first_step(alloc, f, sys, order, cubes.as_slice(), clauses)? {
        return Ok(halted(halt, What::Step));
    }
    let seed = try_seed(alloc, f, sys, order, cubes.as_slice())?;
    Ok(answered(seed, What::Safety))
}

/// Judges whether the world is a violating run.
fn judge_world(alloc: Global, sys: &System, w: &World) -> Result<Judged, AllocError>
    requires system { IsSystem sys.now }
    requires shallow { IsWithinDepth 64 sys.now }
    requires world { IsReadable sys.now.sig w.now }
    ensures { IfOk result (λ judged. (limit : ℕ) →
        IsFound sys.now limit (verdict.Unsafe w.now) (spots_of (verdict.Unsafe w.now)) judged) }
{
    let mut env = Env::new(alloc, DEPTH)?;
    Ok(looked(judge_run(sys, w, &mut env)))
}

/// Judges whether the links are a chain, and no violating run is as short.
fn judge_chain<F: Finder>(
    alloc: Global,
    f: &mut F,
    sys: &System,
    order: &Order,
    links: &[Link],
) -> Result<Judged, AllocError>
    requires infer { CanInfer sys.now order.now }
    requires shallow { IsWithinDepth 64 sys.now }
    requires worlds { All (HasLinkWorlds sys.now.sig) links.now }
    requires few { length links.now < 2 ^ 32 }
    ensures found { IfOk result (
        IsFound sys.now (F.limit f.old) (verdict.NoUniversal links.now)
        (spots_of (verdict.NoUniversal links.now))) }
    ensures limit { F.limit f.new ≡ F.limit f.old }
{
    let mut env = Env::new(alloc, DEPTH)?;
    if let Some(spot) = first_wrong_link(alloc, sys, links, &mut env)? {
        return Ok(Judged::Wrong(spot));
    }
    if !ends_badly(sys, links, &mut env) {
        return Ok(Judged::Wrong(Spot {
            what: What::Safety,
            number: 0,
        }));
    }
    let steps = links.len() as u32 - 1;
    let none = try_runs(alloc, f, sys, order, steps)?;
    Ok(answered(none, What::Run))
}

/// Judges whether the frames hold up to the last one.
fn judge_frames<F: Finder>(
    alloc: Global,
    f: &mut F,
    sys: &System,
    order: &Order,
    last: u32,
    clauses: &[Kept],
) -> Result<Judged, AllocError>
    requires infer { CanInfer sys.now order.now }
    requires clauses { AreClauses sys.now.sig clauses.now }
    ensures found { IfOk result (λ judged. (leaves : List LeaveOf) →
        IsFound sys.now (F.limit f.old) (verdict.Bounded last clauses.now leaves)
        (frame_spots clauses.now) judged) }
    ensures limit { F.limit f.new ≡ F.limit f.old }
{
    if let Some(halt) = first_initial(alloc, f, sys, order, clauses)? {
        return Ok(halted(halt, What::Init));
    }
    if let Some(halt) = first_step_below(alloc, f, sys, order, clauses)? {
        return Ok(halted(halt, What::Step));
    }
    let seed = try_frame(alloc, f, sys, order, clauses, last)?;
    Ok(answered(seed, What::Safety))
}

/// Judges whether the frames hold up to the last one, and each is left by its step.
fn judge_bounded<F: Finder>(
    alloc: Global,
    f: &mut F,
    sys: &System,
    order: &Order,
    last: u32,
    clauses: &[Kept],
    leaves: &[Leave],
) -> Result<Judged, AllocError>
    requires infer { CanInfer sys.now order.now }
    requires shallow { IsWithinDepth 64 sys.now }
    requires clauses { AreClauses sys.now.sig clauses.now }
    requires worlds { All (λ (leave : LeaveOf). IsReadable sys.now.sig leave.step) leaves.now }
    requires each { length leaves.now ≡ last }
    ensures found { IfOk result (
        IsFound sys.now (F.limit f.old) (verdict.Bounded last clauses.now leaves.now)
        (spots_of (verdict.Bounded last clauses.now leaves.now))) }
    ensures limit { F.limit f.new ≡ F.limit f.old }
{
    match judge_frames(alloc, f, sys, order, last, clauses)? {
        Judged::Holds => {
            let mut env = Env::new(alloc, DEPTH)?;
            Ok(looked(first_unleft(alloc, sys, last, clauses, leaves, &mut env)?))
        }
        judged => Ok(judged),
    }
}

/// Judges whether no violating run has at most so many steps.
fn judge_no_run<F: Finder>(
    alloc: Global,
    f: &mut F,
    sys: &System,
    order: &Order,
    steps: u32,
) -> Result<Judged, AllocError>
    requires infer { CanInfer sys.now order.now }
    requires few { steps < 2 ^ 32 - 1 }
    ensures found { IfOk result (
        IsFound sys.now (F.limit f.old) (verdict.NoRun steps) (spots_of (verdict.NoRun steps))) }
    ensures limit { F.limit f.new ≡ F.limit f.old }
{
    let none = try_runs(alloc, f, sys, order, steps)?;
    Ok(answered(none, What::Run))
}

/// Judges whether what a verdict says of the system is so, spot by spot: what its worlds show is
/// looked at, and the rest is asked of the finder. It gives the first spot that fails. Where a
/// query is above the finder's limit, before any spot fails, it gives the weight of the first such
/// query. Of a verdict that says nothing of the system it tells nothing.
///
/// The queries are asked in the order of the spots, and one is held at a time. The spots are, in
/// their order:
/// - of clauses that are an invariant, for each that no initial state meets its cube (`Init`), for
///   each that no step leads into it from a state that meets no cube (`Step`), and that no such
///   state violates a safety (`Safety`);
/// - of a violating run those of [`judge_run`];
/// - of a chain, link by link, that its state and the last copy of its origin are states (`State`),
///   that the first origin is one initial state (`Start`) and each other one a step from the state
///   of the link before (`Step`), and that the state embeds in the origin's last copy (`Map`); then
///   that the last state violates a safety (`Safety`), and that no violating run has at most as
///   many steps as there are links after the first (`Run`);
/// - of frames, for each clause that no initial state meets its cube (`Init`), for each that no
///   step leads into it from the frame below its level (`Step`), that no state of the last frame
///   violates a safety (`Safety`), and for each frame that it is left (`Leave`);
/// - of runs of few steps, that none of them is violating (`Run`).
///
/// It asks for a well-sorted system ([`System::is_well_sorted`]) whose formulas have at most 64
/// binders above a place, for well-sorted cubes ([`up_diagram::Cube::is_well_sorted`]), for worlds
/// that fit the signature ([`World::fits`]) and have fewer than 2^32 copies, for fewer than 2^32
/// clauses and links, for fewer than 2^32 - 1 steps, for a step for each frame of a bounded
/// verdict, and, where queries are asked, for an order that rises along each edge of the system's
/// sort graph for inference. The one error is out of memory, which is also answered where a number of
/// variables doesn't fit 32 bits.
pub fn judge<F: Finder>(
    alloc: Global,
    finder: &mut F,
    sys: &System,
    order: &Order,
    verdict: &Verdict,
) -> Result<Judged, AllocError>
    requires asked { CanJudgeVerdict sys.now order.now verdict.now }
    ensures judged { IfOk result (IsJudged sys.now (F.limit finder.old) verdict.now) }
    ensures limit { F.limit finder.new ≡ F.limit finder.old }
{
    match verdict {
        Verdict::Safe(_, clauses) => judge_safe(alloc, finder, sys, order, clauses.as_slice()),
        Verdict::Unsafe(w) => judge_world(alloc, sys, w),
        Verdict::NoUniversal(links) => judge_chain(alloc, finder, sys, order, links.as_slice()),
        Verdict::Bounded(last, clauses, leaves) => judge_bounded(
            alloc,
            finder,
            sys,
            order,
            *last,
            clauses.as_slice(),
            leaves.as_slice(),
        ),
        Verdict::Spent(_) | Verdict::Over(_, _) => Ok(Judged::Nothing),
        Verdict::NoRun(steps) => judge_no_run(alloc, finder, sys, order, *steps),
    }
}
