//! Makes events of the machine, for bench/. Each line of standard input says how many; of an odd number
//! one fewer is made. For every two of them a worker takes the look that is due, is given its brief, and
//! puts the look back. It prints how many events the history has, and how far the machine has come, which
//! is where it began.
#![tactic(auto)]

mod machine;
mod turns;

use machine::machine;
use std::alloc::Global;
use std::io::{BufRead, BufReader};
use turns::make_turns;

/// What a machine tells of itself after this many events.
fn told(alloc: Global, events: u32) -> anyhow::Result<String> {
    let mut core = machine(alloc)?;
    make_turns(alloc, &mut core, events / 2)?;
    let numbers = core.numbers();
    Ok(format!(in alloc;
        "{} events: {} of them productive, frontier {}, {} clauses",
        core.history().len(),
        numbers.productive,
        numbers.frontier,
        numbers.clauses
    )?)
}

fn main(rt: HostRuntime) -> anyhow::Result<()> {
    let alloc = rt.alloc();
    for line in BufReader::new(alloc, rt.reader())?.lines(alloc) {
        let line = line?;
        println!(rt; "{}", told(alloc, line.as_str().parse()?)?)?;
    }
    Ok(())
}
