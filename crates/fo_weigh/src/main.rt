//! Grounds forms, for bench/. Each line of standard input has two numbers: how many constants there are
//! of the one sort, and how many claims say that a relation holds of all elements or of none. It prints
//! the weight of the form, and how many atoms and clauses it has.
#![tactic(auto)]

ghost use Rattle.std.specs.Prelude.{◌≤◌, IfOk};
ghost use Rattle.fo_core.specs.Sorted.{IsSig};
ghost use Rattle.fo_core.specs.SortGraph.{FunctionEdge, Rises};
ghost use Rattle.fo_norm.specs.Forms.{whole, IsForm};
ghost use Rattle.fo_core.specs.TermCounts.{term_counts};
ghost use Rattle.fo_terms.specs.FormWeight.{form_weight, AreFew};

mod forms;

use fo_core::{MOST_WEIGHT, Order, Query, Seq, Sig};
use fo_ground::{ground, weight};
use fo_norm::{SkolemForm, normal};
use fo_terms::{counts, rises, universe_from};
use std::alloc::Global;
use std::io::{BufRead, BufReader};

/// What is printed of a form.
#[derive(Drop)]
struct Size {
    weight: u64,
    atoms: u32,
    clauses: usize,
}

/// One sort, numbered 0.
fn order(alloc: Global) -> anyhow::Result<Order> {
    let numbers = [0].to_vec(alloc)?;
    Ok(Order {
        numbers: Seq::from_vec(numbers),
    })
}

/// How large the clauses of a form are.
fn measured(alloc: Global, sig: &Sig, form: &SkolemForm) -> anyhow::Result<Size>
    requires sig { IsSig sig.now }
    requires form { IsForm sig.now form.now }
{
    let order = order(alloc)?;
    anyhow::ensure!(rises(sig, form, &order), "no order");
    let counts = counts(alloc, sig, form, &order)?;
    let weight = weight(sig, form, counts.as_slice());
    anyhow::ensure!(weight <= MOST_WEIGHT, "too heavy");
    let universe = universe_from(alloc, sig, form, &order, counts)?;
    let grounded = ground(alloc, sig, form, &universe)?;
    Ok(Size {
        weight,
        atoms: grounded.cnf.vars,
        clauses: grounded.cnf.clauses.len(),
    })
}

/// Grounds the form with so many constants and claims.
fn weigh(alloc: Global, constants: usize, claims: usize) -> anyhow::Result<Size> {
    let system = forms::system(alloc, constants, claims)?;
    anyhow::ensure!(system.is_well_sorted(alloc)?, "not well-sorted");
    let query = Query {
        copies: 1,
        claims: system.axioms,
    };
    let form = normal(alloc, &system.sig, &query)?;
    measured(alloc, &system.sig, &form)
}

/// Reads two numbers.
fn numbers(line: &str) -> anyhow::Result<(usize, usize)> {
    let mut words = line.split_whitespace();
    match (words.next(), words.next()) {
        (Some(constants), Some(claims)) => Ok((constants.parse()?, claims.parse()?)),
        _ => anyhow::bail!("two numbers are wanted"),
    }
}

fn main(rt: HostRuntime) -> anyhow::Result<()> {
    let alloc = rt.alloc();
    for line in BufReader::new(alloc, rt.reader())?.lines(alloc) {
        let line = line?;
        let (constants, claims) = numbers(&line)?;
        let Size {
            weight,
            atoms,
            clauses,
        } = weigh(alloc, constants, claims)?;
        println!(rt; "weight {weight}: {atoms} atoms, {clauses} clauses")?;
    }
    Ok(())
}
