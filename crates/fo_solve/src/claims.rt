//! Claims that were grounded, each behind a variable that switches it on, and a search over them.
ghost use Rattle.std.specs.Prelude.{◌≡◌, ◌++◌, [], IfOk, IfSome, OnOk};
ghost use Rattle.std.specs.List.{All, AllZip};
ghost use Rattle.fo_core.specs.Sorted.{IsFormula};
ghost use Rattle.fo_norm.specs.Forms.{IsNormal};
ghost use Rattle.fo_ground.specs.Groundworks.{IsGroundwork};
ghost use Rattle.prop_core.specs.Formula.{AreWithin};
ghost use Rattle.fo_solve.specs.Contexts.{AreClaims, IsOn, IsSwitch, KeepsAll};

use fo_core::Formula;
use fo_ground::Groundwork;
use prop_cdcl::Solver;
use prop_core::{Clause, Cnf, Lit};
use std::alloc::{AllocError, Global};

/// A claim in Skolem form. Its ground instances hold where its switch is true.
#[derive(Drop)]
pub struct Switched {
    pub claim: Formula,
    /// The number of a variable.
    pub switch: u32,
}

/// The axioms of equality, claims that were asked for, and the search over the clauses of them all.
#[derive(Drop)]
pub struct Claims {
    /// Each claim that was asked for, in the order in which they came.
    pub kept: Vec<Switched>,
    pub solver: Solver,
    /// How many clauses the search was given.
    pub clauses: usize,
}

/// Gives the search these clauses.
fn give(alloc: Global, solver: &mut Solver, clauses: &[Clause]) -> Result<(), AllocError>
    requires { AreWithin solver.old.vars clauses.now }
    ensures vars { OnOk result (solver.new.vars ≡ solver.old.vars) }
    ensures clauses { OnOk result (solver.new.clauses ≡ solver.old.clauses ++ clauses.now) }
{
    'each: for clause in clauses {
        solver.add_clause(alloc, clause.copy(alloc)?)?;
    }
    Ok(())
}

/// The switch of a claim, if it is kept.
fn switch_of(kept: &[Switched], claim: &Formula) -> Option<u32>
    ensures { IfSome result (IsSwitch kept.now claim.now) }
{
    'each: for switched in kept {
        if switched.claim.same(claim) {
            return Some(switched.switch);
        }
    }
    None
}

impl Claims {
    /// The axioms of equality, and no claims.
    pub fn new(alloc: Global, ground: &Groundwork) -> Result<Claims, AllocError>
        requires { IsGroundwork ground.now }
        ensures { IfOk result (AreClaims ground.now) }
    {
        let axioms = ground.axioms(alloc)?;
        let solver = Solver::new(alloc, &axioms)?;
        Ok(Claims {
            kept: Vec::new(alloc),
            solver,
            clauses: axioms.clauses.len(),
        })
    }

    /// Keeps a claim, with a new variable that switches it on.
    fn add(
        &mut self,
        alloc: Global,
        ground: &Groundwork,
        claim: &Formula,
    ) -> Result<u32, AllocError>
        requires ground { IsGroundwork ground.now }
        requires sorted { IsFormula ground.now.layout.sig ground.now.layout.copies claim.now [] }
        requires normal { IsNormal claim.now }
        requires switched { AreClaims ground.now self.old }
        ensures switched { OnOk result (AreClaims ground.now self.new) }
        ensures keeps { OnOk result (KeepsAll self.old.kept.items self.new.kept.items) }
        ensures switch { IfOk result (IsSwitch self.new.kept.items claim.now) }
    {
        let switch = self.solver.vars();
        if switch == u32::MAX {
            return Err(AllocError);
        }
        let Cnf { vars, clauses } = ground.instances(alloc, claim, switch)?;
        self.solver.add_vars(vars - switch)?;
        give(alloc, &mut self.solver, clauses.as_slice())?;
        self.clauses = self.clauses.saturating_add(clauses.len());
        let claim = claim.copy(alloc)?;
        self.kept.push(Switched { claim, switch })?;
        Ok(switch)
    }

    /// The variable that switches the claim on. A claim that isn't kept is added.
    fn switch(
        &mut self,
        alloc: Global,
        ground: &Groundwork,
        claim: &Formula,
    ) -> Result<u32, AllocError>
        requires ground { IsGroundwork ground.now }
        requires sorted { IsFormula ground.now.layout.sig ground.now.layout.copies claim.now [] }
        requires normal { IsNormal claim.now }
        requires switched { AreClaims ground.now self.old }
        ensures switched { OnOk result (AreClaims ground.now self.new) }
        ensures keeps { OnOk result (KeepsAll self.old.kept.items self.new.kept.items) }
        ensures switch { IfOk result (IsSwitch self.new.kept.items claim.now) }
    {
        match switch_of(self.kept.as_slice(), claim) {
            Some(switch) => Ok(switch),
            None => self.add(alloc, ground, claim),
        }
    }

    /// The literals that switch the claims on, one for each. Claims that aren't kept are added.
    pub fn switch_on(
        &mut self,
        alloc: Global,
        ground: &Groundwork,
        claims: &[Formula],
    ) -> Result<Vec<Lit>, AllocError>
        requires ground { IsGroundwork ground.now }
        requires sorted { All (λ f.
            IsFormula ground.now.layout.sig ground.now.layout.copies f []) claims.now }
        requires normal { All IsNormal claims.now }
        requires switched { AreClaims ground.now self.old }
        ensures switched { OnOk result (AreClaims ground.now self.new) }
        ensures on { IfOk result (λ lits.
            AllZip (IsOn self.new.kept.items) claims.now lits.items) }
    {
        let mut switches = Vec::with_capacity(alloc, claims.len())?;
        'each: for claim in claims {
            let var = self.switch(alloc, ground, claim)?;
            switches.push(Lit {
                var,
                positive: true,
            })?;
        }
        Ok(switches)
    }
}
