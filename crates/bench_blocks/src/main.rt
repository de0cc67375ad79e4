//! Counts the queries that `block` asks beside those that it would ask if its pass over the literals
//! kept no worlds, for bench/. The words are the file of a model, and up to which frame the states that
//! violate a safety are blocked. Without words it takes a model of its own.
//!
//! It prints a line for each call of `block`: at which level, how many literals the diagram has and the
//! pass keeps, and how many queries the pass asks, of those that it would ask. The two queries of the
//! whole diagram, which come before the pass, aren't counted. Then comes the share that was saved. Each
//! pass is made once more without kept worlds, and has to leave the same cube.
#![tactic(auto)]

mod blocks;
mod counting;
mod plain;
mod problem;
mod run;

ghost use Rattle.std.specs.Prelude.{IfOk};
ghost use Rattle.up_claims.specs.Inferring.{CanInfer};

use blocks::{Asked, Passed};
use problem::Problem;
use run::{End, Run};
use std::alloc::Global;
use std::rt::Files;
use std::{env, fs};

/// A lock that a node takes where none holds it, and gives back.
const LOCK: &str = "\
sort node
mutable relation held(node)
mutable relation free
init !held(N)
init free
transition grab(n: node)
  modifies held, free
  & free & !new(free)
  & (new(held(N)) <-> held(N) | N = n)
transition leave(n: node)
  modifies held, free
  & held(n) & new(free)
  & (new(held(N)) <-> held(N) & N != n)
safety held(M) & held(N) -> M = N
";

/// The last frame, where no word says which.
const LEVELS: u32 = 3;

/// No run makes more calls of `block` and `look` together.
const MOST_CALLS: u32 = 400;

/// What the passes asked all together.
#[derive(Debug, Clone, Copy)]
struct Total {
    passes: u64,
    asked: u64,
    list: u64,
}

impl Total {
    /// What the passes of these calls asked.
    fn of(calls: &[Asked]) -> Total {
        let mut total = Total {
            passes: 0,
            asked: 0,
            list: 0,
        };
        for call in calls {
            if let Some(passed) = call.passed {
                total = total.with(passed);
            }
        }
        total
    }

    /// With one more pass.
    fn with(self, passed: Passed) -> Total {
        Total {
            passes: self.passes.saturating_add(1),
            asked: self.asked.saturating_add(passed.asked),
            list: self.list.saturating_add(passed.list),
        }
    }

    /// How many of a hundred queries were saved.
    fn saved(self) -> u64 {
        let saved = self.list.saturating_sub(self.asked);
        let hundreds = saved.saturating_mul(100);
        hundreds.checked_div(self.list).unwrap_or(0)
    }
}

/// Prints what a call of `block` asked.
fn tell(rt: &impl Print, call: &Asked) -> anyhow::Result<()> {
    let Asked {
        level,
        literals,
        asked,
        ..
    } = call;
    print!(rt; "level {level}, {literals} literals, ")?;
    match &call.passed {
        None => println!(rt; "a state before it: {asked} queries")?,
        Some(Passed { kept, asked, list }) => println!(rt;
            "{kept} kept: {asked} queries of {list}"
        )?,
    }
    Ok(())
}

/// How a run ended, in words.
fn words_of(end: Option<End>) -> &'static str {
    match end {
        None => "more calls would follow",
        Some(End::Safe) => "no state of the last frame violates a safety",
        Some(End::Invariant) => "an invariant is found",
        Some(End::Unsafe) => "a violating run is found",
    }
}

/// Prints what the calls of `block` asked, and how the run ended.
fn tell_run(rt: &impl Print, calls: &[Asked], end: Option<End>) -> anyhow::Result<()> {
    for call in calls {
        tell(rt, call)?;
    }
    let total = Total::of(calls);
    let Total {
        passes,
        asked,
        list,
    } = total;
    let saved = total.saved();
    println!(rt; "{passes} passes: {asked} queries of {list}, {saved} of 100 saved")?;
    println!(rt; "{}", words_of(end))?;
    Ok(())
}

/// Runs up to the frame of this level, and prints what was asked.
fn run_to(rt: &impl Print, alloc: Global, problem: &Problem, levels: u32) -> anyhow::Result<()>
    requires { CanInfer problem.now.sys problem.now.order }
{
    let mut run = Run::new(alloc)?;
    let mut end = None;
    for _ in 0..MOST_CALLS {
        end = run.step(alloc, problem, levels)?;
        if end.is_some() {
            break;
        }
    }
    tell_run(rt, run.asked.as_slice(), end)
}

/// The words behind the program's name.
fn words(rt: &HostRuntime) -> anyhow::Result<Vec<String>> {
    let mut words = env::args(rt)?;
    let _name = words.next();
    Ok(words.collect(rt.alloc())?)
}

/// The model that the first word names, or the program's own.
fn problem_of(rt: &HostRuntime, words: &[String]) -> anyhow::Result<Problem>
    ensures { IfOk result (λ p. CanInfer p.sys p.order) }
{
    let alloc = rt.alloc();
    match words.first() {
        Some(path) => Problem::of_text(alloc, fs::read_to_string(rt, path.as_str())?.as_bytes()),
        None => Problem::of_text(alloc, LOCK.as_bytes()),
    }
}

fn main(rt: HostRuntime) -> anyhow::Result<()> {
    let alloc = rt.alloc();
    let words = words(&rt)?;
    let levels = match words.get(1) {
        Some(word) => word.parse()?,
        None => LEVELS,
    };
    let problem = problem_of(&rt, &words)?;
    run_to(&rt, alloc, &problem, levels)
}
