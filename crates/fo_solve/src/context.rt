//! What queries over the same symbols share.
ghost use Rattle.std.specs.Prelude.{◌≡◌, ◌≤◌, ◌↔◌, map, IsTrue, IfOk, OnOk};
ghost use Rattle.fo_core.specs.declared.query.TheConstants.{MOST_WEIGHT};
ghost use Rattle.fo_core.specs.QueryWeight.{cut};
ghost use Rattle.fo_core.specs.SortGraph.{FunctionEdge, Rises};
ghost use Rattle.fo_core.specs.Sorted.{IsSig};
ghost use Rattle.fo_norm.specs.Forms.{whole, IsForm};
ghost use Rattle.fo_terms.specs.FormWeight.{form_weight};
ghost use Rattle.fo_ground.specs.Groundworks.{IsGroundwork, Serves};
ghost use Rattle.fo_solve.specs.Contexts.{AreClaims, scope_of};
ghost use Rattle.fo_solve.specs.Solving.{form_counts, IsFound};

use crate::claims::Claims;
use fo_core::{Order, Seq, Sig, World};
use fo_ground::Groundwork;
use fo_norm::SkolemForm;
use fo_terms::universe_from;
use prop_cdcl::Reply;
use std::alloc::{AllocError, Global};
use std::marker::Model;

/// How many clauses a context has at most when it is kept for the next query.
const MOST_CLAUSES: usize = 200_000;

/// About how many bytes a context takes at most when it is kept for the next query.
const MOST_BYTES: usize = 48 << 20;

/// How many claims a context has at most that the last query didn't ask for when it is kept.
const MOST_IDLE: usize = 256;

/// The ground terms of forms over the same symbols in the same number of copies, and a search over
/// the instances of all claims that queries asked for. Contracts see which forms it is for.
#[derive(Drop)]
pub struct Context {
    ground: Groundwork,
    claims: Claims,
    /// How many claims the last query had.
    asked: usize,
}

impl Model for Context {
    ghost use Rattle.fo_ground.specs.Groundworks.{IsGroundwork};
    ghost use Rattle.fo_solve.specs.Contexts.{AreClaims, Scope};

    ghost Value = { Scope };

    ghost view = { λ c. record { symbols = c.ground.layout.sig; copies = c.ground.layout.copies } };

    ghost invariant = { λ c. IsGroundwork c.ground × AreClaims c.ground c.claims };
}

/// A world that meets the form, if there is one.
fn world(
    alloc: Global,
    sig: &Sig,
    form: &SkolemForm,
    ground: &Groundwork,
    claims: &mut Claims,
) -> Result<Option<World>, AllocError>
    requires sig { IsSig sig.now }
    requires form { IsForm sig.now form.now }
    requires light { form_weight sig.now form.now (form_counts sig.now form.now) ≤ MOST_WEIGHT }
    requires ground { IsGroundwork ground.now }
    requires serves { Serves sig.now form.now ground.now }
    requires switched { AreClaims ground.now claims.old }
    ensures switched { OnOk result (AreClaims ground.now claims.new) }
    ensures world { IfOk result (IsFound sig.now form.now) }
{
    let switches = claims.switch_on(alloc, ground, form.claims.as_slice())?;
    match claims.solver.solve_under(alloc, switches.as_slice())? {
        Reply::Values(values) => Ok(Some(ground.world(alloc, sig, form, values.as_slice())?)),
        Reply::Denied(_) => Ok(None),
    }
}

impl Context {
    /// A context for the form and all others over its symbols and in its number of copies. `counts`
    /// are the numbers of ground terms of the sorts. The one error is out of memory.
    pub fn new(
        alloc: Global,
        sig: &Sig,
        form: &SkolemForm,
        order: &Order,
        counts: Seq<u64>,
    ) -> Result<Context, AllocError>
        requires sig { IsSig sig.now }
        requires form { IsForm sig.now form.now }
        requires rises { Rises (FunctionEdge (whole sig.now form.now)) sig.now.sorts order.now.numbers }
        requires counts { counts ≡ map cut (form_counts sig.now form.now) }
        requires light { form_weight sig.now form.now (form_counts sig.now form.now) ≤ MOST_WEIGHT }
        ensures { IfOk result (λ c. c ≡ scope_of sig.now form.now) }
    {
        let universe = universe_from(alloc, sig, form, order, counts)?;
        let ground = Groundwork::new(alloc, sig, form, universe)?;
        let claims = Claims::new(alloc, &ground)?;
        Ok(Context {
            ground,
            claims,
            asked: 0,
        })
    }

    /// Whether it is for forms over these symbols in this number of copies.
    pub fn is_for(&self, symbols: &Sig, copies: u32) -> bool
        ensures { IsTrue result ↔ (self.now ≡ record { symbols = symbols.now; copies = copies }) }
    {
        self.ground.is_for(symbols, copies)
    }

    /// About how many bytes it takes.
    pub fn bytes(&self) -> usize {
        self.claims.solver.bytes()
    }

    /// Whether it is worth its memory: it isn't large, and not much in it is switched off.
    pub fn is_kept(&self) -> bool {
        let kept = self.claims.kept.len();
        self.claims.clauses <= MOST_CLAUSES
            && self.bytes() <= MOST_BYTES
            && kept <= self.asked.saturating_add(MOST_IDLE)
    }

    /// A world that meets the form, if there is one, and the context for the next query. After an
    /// error, which is out of memory, the context is gone.
    pub fn answer(
        self,
        alloc: Global,
        sig: &Sig,
        form: &SkolemForm,
    ) -> Result<(Option<World>, Context), AllocError>
        requires sig { IsSig sig.now }
        requires form { IsForm sig.now form.now }
        requires light { form_weight sig.now form.now (form_counts sig.now form.now) ≤ MOST_WEIGHT }
        requires scope { self ≡ scope_of sig.now form.now }
        ensures { IfOk result (λ a. IsFound sig.now form.now a.0) }
    {
        let Context {
            ground,
            mut claims,
            asked: _,
        } = self;
        let world = world(alloc, sig, form, &ground, &mut claims)?;
        let asked = form.claims.len();
        Ok((
            world,
            Context {
                ground,
                claims,
                asked,
            },
        ))
    }
}
