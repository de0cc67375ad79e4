//! Reads formulas in the CNF format of DIMACS from standard input, and prints for each one whether
//! some values meet it. A line that begins with `p` begins the next formula.
//!
//! A line that begins with `a` proposes a clause. After a formula with such lines the program
//! prints how many of them follow by unit propagation from the clauses before them instead.
//!
//! "Satisfiability: Suggested Format", DIMACS Challenge, 1993.
#![tactic(auto)]

ghost use Rattle.prop_core.specs.Formula.{AreWithin};

mod reader;

use prop_check::Checked;
use prop_core::{Answer, Clause, Cnf};
use reader::{Formula, Formulas};
use std::alloc::Global;
use std::io::{BufRead, BufReader};

/// Prints the answer for a formula that was read, if there is one.
fn answer(rt: &impl Print, alloc: Global, formulas: &mut Formulas) -> anyhow::Result<()> {
    let Some(Formula { cnf, proposed }) = formulas.take(alloc) else {
        return Ok(())
    };
    anyhow::ensure!(cnf.is_well_formed(), "a variable is out of range");
    if proposed.len() > 0 {
        let taken = followers(alloc, &cnf, proposed.into_vec())?;
        println!(rt; "c {taken} follow")?;
        return Ok(());
    }
    match prop_cdcl::solve(alloc, &cnf)? {
        Answer::Sat(_) => println!(rt; "s SATISFIABLE")?,
        Answer::Unsat(_) => println!(rt; "s UNSATISFIABLE")?,
    }
    Ok(())
}

/// How many of the proposed clauses are taken, one after the other.
fn followers(alloc: Global, cnf: &Cnf, proposed: Vec<Clause>) -> anyhow::Result<usize>
    requires { AreWithin cnf.now.vars cnf.now.clauses }
{
    let mut checked = Checked::new(alloc, cnf)?;
    let mut taken: usize = 0;
    'each: for clause in proposed {
        anyhow::ensure!(clause.is_within(cnf.vars), "a variable is out of range");
        checked.reserve(1)?;
        if checked.add(clause) {
            taken = taken.saturating_add(1);
        }
    }
    Ok(taken)
}

fn main(rt: HostRuntime) -> anyhow::Result<()> {
    let alloc = rt.alloc();
    let mut formulas = Formulas::new(alloc);
    for line in BufReader::new(alloc, rt.reader())?.lines(alloc) {
        let line = line?;
        if line.starts_with('p') {
            answer(&rt, alloc, &mut formulas)?;
        }
        formulas.read(alloc, &line)?;
    }
    answer(&rt, alloc, &mut formulas)
}
