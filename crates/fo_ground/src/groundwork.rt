//! What forms over the same symbols share, for whoever grounds claims one after the other.
ghost use Rattle.std.specs.Prelude.{◌≡◌, ◌↔◌, ◌-◌, ◌^◌, ◌<◌, ◌≤◌, [], length, IsTrue, IfOk};
ghost use Rattle.fo_core.specs.Sorted.{IsFormula, IsSig};
ghost use Rattle.fo_core.specs.TermCounts.{term_counts};
ghost use Rattle.fo_core.specs.declared.query.TheConstants.{MOST_WEIGHT};
ghost use Rattle.fo_norm.specs.Forms.{whole, IsForm, IsNormal, MeetsForm};
ghost use Rattle.fo_terms.specs.FormWeight.{form_weight};
ghost use Rattle.prop_core.specs.Formula.{value_of};
ghost use Rattle.fo_ground.specs.Grounds.{CanGround};
ghost use Rattle.fo_ground.specs.Groundworks.{IsGroundwork, Serves, SayBehind, SayEquality, HoldBy};

use crate::atoms::atoms;
use crate::emit::{Builder, emit};
use crate::grounding::add_axioms;
use crate::laying::lay_out;
use crate::layout::Layout;
use crate::world::read_world;
use fo_core::{Formula, Seq, Sig, World};
use fo_norm::SkolemForm;
use fo_terms::Universe;
use prop_core::{Cnf, Lit};
use std::alloc::{AllocError, Global};

/// The ground terms of all forms over the same symbols, those of a signature and Skolem symbols, in
/// the same number of copies, and where the atoms over these terms lie among the variables.
#[derive(Drop)]
pub struct Groundwork {
    layout: Layout,
    universe: Universe,
}

impl Groundwork {
    /// The groundwork of the form and of all others over its symbols and in its number of copies.
    ///
    /// It asks for what [`crate::ground`] asks. The one error is out of memory; more atoms than have
    /// numbers of 32 bits are reported so too.
    pub fn new(
        alloc: Global,
        sig: &Sig,
        form: &SkolemForm,
        universe: Universe,
    ) -> Result<Groundwork, AllocError>
        requires { CanGround sig.now form.now universe }
        ensures groundwork { IfOk result IsGroundwork }
        ensures serves { IfOk result (Serves sig.now form.now) }
    {
        let layout = lay_out(alloc, sig, form, &universe)?;
        Ok(Groundwork { layout, universe })
    }

    /// Whether it is one for these symbols, those of a signature and Skolem symbols behind them, and
    /// for this number of copies. It takes no memory.
    pub fn is_for(&self, symbols: &Sig, copies: u32) -> bool
        ensures { IsTrue result ↔
            (self.now.layout.sig ≡ symbols.now) × (self.now.layout.copies ≡ copies) }
    {
        self.layout.copies == copies && self.layout.sig.same(symbols)
    }

    /// Clauses that say that being the same is an equality which functions and relations respect. The
    /// one error is out of memory.
    pub fn axioms(&self, alloc: Global) -> Result<Cnf, AllocError>
        requires { IsGroundwork self.now }
        ensures { IfOk result (λ cnf. SayEquality self.now cnf.vars cnf.clauses) }
    {
        let atoms = atoms(alloc, &self.layout, &self.universe)?;
        let mut into = Builder {
            vars: self.layout.base,
            clauses: Seq::new(alloc),
        };
        add_axioms(
            alloc,
            &self.layout,
            &self.universe,
            atoms.as_slice(),
            &mut into,
        )?;
        let Builder { vars, clauses } = into;
        Ok(Cnf { vars, clauses })
    }

    /// Clauses that say that all ground instances of the claim hold where the variable `switch` is
    /// true. The variables after it are theirs alone; they begin at the one after the switch.
    ///
    /// The claim has to be one of a form over the groundwork's symbols and copies, and the switch a
    /// variable after those of the atoms. The one error is out of memory; more variables than have
    /// numbers of 32 bits are reported so too.
    pub fn instances(&self, alloc: Global, claim: &Formula, switch: u32) -> Result<Cnf, AllocError>
        requires ground { IsGroundwork self.now }
        requires sorted { IsFormula self.now.layout.sig self.now.layout.copies claim.now [] }
        requires normal { IsNormal claim.now }
        requires after { self.now.layout.base ≤ switch }
        requires switch { switch < 2 ^ 32 - 1 }
        ensures { IfOk result (λ cnf. SayBehind self.now claim.now switch cnf.vars cnf.clauses) }
    {
        let off = [Lit {
            var: switch,
            positive: false,
        }];
        let mut into = Builder {
            vars: switch + 1,
            clauses: Seq::new(alloc),
        };
        let mut env = Vec::new(alloc);
        emit(
            alloc,
            &self.layout,
            &self.universe,
            &mut env,
            &off,
            claim,
            &mut into,
        )?;
        let Builder { vars, clauses } = into;
        Ok(Cnf { vars, clauses })
    }

    /// The world whose elements are the classes of ground terms that the values say are the same. It
    /// meets the form.
    ///
    /// The groundwork has to be one for the form, which is to weigh at most
    /// [`fo_core::MOST_WEIGHT`]. The values, one at least for each atom, have to meet the axioms of
    /// equality and all ground instances of the form's claims. The one error is out of memory.
    pub fn world(
        &self,
        alloc: Global,
        sig: &Sig,
        form: &SkolemForm,
        values: &[bool],
    ) -> Result<World, AllocError>
        requires ground { IsGroundwork self.now }
        requires serves { Serves sig.now form.now self.now }
        requires sig { IsSig sig.now }
        requires form { IsForm sig.now form.now }
        requires light { let counts = term_counts (whole sig.now form.now) form.now.copies in
            form_weight sig.now form.now counts ≤ MOST_WEIGHT }
        requires values { self.now.layout.base ≤ length values.now }
        requires met { HoldBy self.now form.now.claims (value_of values.now) }
        ensures meets { IfOk result (λ w. MeetsForm sig.now form.now w) }
        ensures copies { IfOk result (λ w. length w.copies ≡ form.now.copies) }
    {
        read_world(alloc, sig, form, &self.layout, &self.universe, values)
    }
}
