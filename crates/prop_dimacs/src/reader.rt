//! Formulas from lines.
use fo_core::Seq;
use prop_core::{Clause, Cnf, Lit};
use std::alloc::Global;

/// A formula, and the clauses that are proposed after it.
#[derive(Drop)]
pub struct Formula {
    pub cnf: Cnf,
    pub proposed: Seq<Clause>,
}

/// The formula that is being read.
#[derive(Drop)]
pub struct Formulas {
    begun: bool,
    vars: u32,
    clauses: Seq<Clause>,
    proposed: Seq<Clause>,
    clause: Clause,
}

impl Formulas {
    /// No formula yet.
    pub fn new(alloc: Global) -> Formulas {
        Formulas {
            begun: false,
            vars: 0,
            clauses: Seq::new(alloc),
            proposed: Seq::new(alloc),
            clause: Clause::new(alloc),
        }
    }

    /// The formula that was read, if one was begun.
    pub fn take(&mut self, alloc: Global) -> Option<Formula> {
        if !self.begun {
            return None;
        }
        self.begun = false;
        self.clause = Clause::new(alloc);
        let clauses = std::mem::replace(&mut self.clauses, Seq::new(alloc));
        let proposed = std::mem::replace(&mut self.proposed, Seq::new(alloc));
        let vars = self.vars;
        Some(Formula {
            cnf: Cnf { vars, clauses },
            proposed,
        })
    }

    /// Takes a line.
    pub fn read(&mut self, alloc: Global, line: &str) -> anyhow::Result<()> {
        if line.starts_with('c') {
            return Ok(());
        }
        if line.starts_with('p') {
            let count = line.split_whitespace().nth(2);
            self.vars = match count {
                Some(word) => word.parse::<u32>()?,
                None => anyhow::bail!("no number of variables"),
            };
            self.begun = true;
            return Ok(());
        }
        let is_proposed = line.starts_with('a');
        for word in line.split_whitespace() {
            if word != "a" {
                let number = word.parse::<i32>()?;
                self.add(alloc, number, is_proposed)?;
            }
        }
        Ok(())
    }

    /// Takes a literal, or the 0 after a clause.
    fn add(&mut self, alloc: Global, number: i32, is_proposed: bool) -> anyhow::Result<()> {
        match number.unsigned_abs().checked_sub(1) {
            Some(var) => {
                self.clause.push(Lit {
                    var,
                    positive: number > 0,
                })?;
            }
            None => {
                let clause = std::mem::replace(&mut self.clause, Clause::new(alloc));
                if is_proposed {
                    self.proposed.push(clause)?;
                } else {
                    self.clauses.push(clause)?;
                }
            }
        }
        Ok(())
    }
}
