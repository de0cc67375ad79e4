ghost use Rattle.std.specs.Prelude.{◌≡◌, ◌↔◌, ◌+◌, ◌≤◌, IsTrue, IfOk, length};
ghost use Rattle.std.specs.List.{All};
ghost use Rattle.fo_core.specs.Sorted.{binders, IsStepOf, IsSystem, IsWithinDepth};

use crate::depth::{all_nest_at_most, nests_at_most};
use crate::formula::{Formula, same_formulas};
use crate::seq::Seq;
use crate::signature::Sig;
use crate::sorted::{are_closed, is_formula};
use std::alloc::{AllocError, Global};

/// A transition: which symbols it may change, the sorts of its parameters, and its body, which
/// speaks of the state before as copy 0 and of the state after as copy 1. The parameters are the
/// outermost binders of the body.
#[derive(Debug, Drop)]
pub struct Step {
    pub modifies: Seq<u32>,
    pub params: Seq<u32>,
    pub body: Formula,
}

/// A transition system with the properties that are asked of it.
#[derive(Debug, Drop)]
pub struct System {
    pub sig: Sig,
    /// True in every state.
    pub axioms: Seq<Formula>,
    /// True in every initial state.
    pub inits: Seq<Formula>,
    pub steps: Seq<Step>,
    /// What every reachable state is to meet.
    pub safeties: Seq<Formula>,
    /// What is claimed besides, to make the safeties inductive.
    pub invariants: Seq<Formula>,
}

impl Step {
    /// A copy.
    pub fn copy(&self, alloc: Global) -> Result<Step, AllocError>
        ensures { IfOk result (λ x. x ≡ self.now) }
    {
        Ok(Step {
            modifies: self.modifies.copy(alloc)?,
            params: self.params.copy(alloc)?,
            body: self.body.copy(alloc)?,
        })
    }

    /// Whether both are equal. It takes no memory.
    pub fn same(&self, other: &Step) -> bool
        ensures { IsTrue result ↔ (self.now ≡ other.now) }
    {
        same_step(self, other)
    }
}

impl Seq<Step> {
    /// A copy.
    pub fn copy(&self, alloc: Global) -> Result<Seq<Step>, AllocError>
        ensures { IfOk result (λ s. s ≡ self.now) }
    {
        let mut copies = Seq::new(alloc);
        'each: for item in self.as_slice() {
            copies.push(item.copy(alloc)?)?;
        }
        Ok(copies)
    }
}

/// Whether the transition's parameters have sorts of the signature, and its body is well-sorted.
fn is_step_of(alloc: Global, sig: &Sig, step: &Step) -> Result<bool, AllocError>
    ensures { IfOk result (λ b. IsTrue b ↔ IsStepOf sig.now step.now) }
{
    if !step.params.as_slice().iter().all(|s| *s < sig.sorts) {
        return Ok(false);
    }
    let mut scope = step.params.as_slice().to_vec(alloc)?;
    is_formula(sig, 2, &mut scope, &step.body)
}

/// Whether this holds of each transition.
fn are_steps_of(alloc: Global, sig: &Sig, steps: &[Step]) -> Result<bool, AllocError>
    ensures { IfOk result (λ b. IsTrue b ↔ All (IsStepOf sig.now) steps.now) }
{
    'each: for step in steps {
        if !is_step_of(alloc, sig, step)? {
            return Ok(false);
        }
    }
    Ok(true)
}

/// Whether no place of the transition's body stands under more than so many binders, where its
/// parameters are binders too.
fn step_nests_at_most(step: &Step, depth: u32) -> bool
    ensures { IsTrue result ↔ (length step.now.params + binders step.now.body ≤ depth) }
{
    let params = step.params.len();
    params <= depth as usize && nests_at_most(&step.body, depth - params as u32)
}

impl System {
    /// A copy.
    pub fn copy(&self, alloc: Global) -> Result<System, AllocError>
        ensures { IfOk result (λ x. x ≡ self.now) }
    {
        Ok(System {
            sig: self.sig.copy(alloc)?,
            axioms: self.axioms.copy(alloc)?,
            inits: self.inits.copy(alloc)?,
            steps: self.steps.copy(alloc)?,
            safeties: self.safeties.copy(alloc)?,
            invariants: self.invariants.copy(alloc)?,
        })
    }

    /// Whether the system is well-sorted: what every call that takes a system asks of it.
    pub fn is_well_sorted(&self, alloc: Global) -> Result<bool, AllocError>
        ensures { IfOk result (λ b. IsTrue b ↔ IsSystem self.now) }
    {
        let properties = self.safeties.len().saturating_add(self.invariants.len());
        if !self.sig.is_well_sorted()
            || self.steps.len() > u32::MAX as usize
            || properties > u32::MAX as usize
        {
            return Ok(false);
        }
        Ok(
            are_closed(alloc, &self.sig, self.axioms.as_slice())?
                && are_closed(alloc, &self.sig, self.inits.as_slice())?
                && are_steps_of(alloc, &self.sig, self.steps.as_slice())?
                && are_closed(alloc, &self.sig, self.safeties.as_slice())?
                && are_closed(alloc, &self.sig, self.invariants.as_slice())?,
        )
    }

    /// Whether no place of the system's formulas stands under more than so many binders, where a
    /// transition's parameters are binders of its body. It takes no memory.
    pub fn is_within_depth(&self, depth: u32) -> bool
        ensures { IsTrue result ↔ IsWithinDepth depth self.now }
    {
        all_nest_at_most(self.axioms.as_slice(), depth)
            && all_nest_at_most(self.inits.as_slice(), depth)
            && self
                .steps
                .as_slice()
                .iter()
                .all(|step| step_nests_at_most(step, depth))
            && all_nest_at_most(self.safeties.as_slice(), depth)
            && all_nest_at_most(self.invariants.as_slice(), depth)
    }

    /// Whether both are equal. It takes no memory.
    pub fn same(&self, other: &System) -> bool
        ensures { IsTrue result ↔ (self.now ≡ other.now) }
    {
        self.sig.same(&other.sig)
            && same_formulas(self.axioms.as_slice(), other.axioms.as_slice())
            && same_formulas(self.inits.as_slice(), other.inits.as_slice())
            && same_steps(self.steps.as_slice(), other.steps.as_slice())
            && same_formulas(self.safeties.as_slice(), other.safeties.as_slice())
            && same_formulas(self.invariants.as_slice(), other.invariants.as_slice())
    }
}

fn same_step(a: &Step, b: &Step) -> bool
    ensures { IsTrue result ↔ (a.now ≡ b.now) }
{
    a.modifies.as_slice() == b.modifies.as_slice()
        && a.params.as_slice() == b.params.as_slice()
        && a.body.same(&b.body)
}

fn same_steps(a: &[Step], b: &[Step]) -> bool
    ensures { IsTrue result ↔ (a.now ≡ b.now) }
{
    if a.len() != b.len() {
        return false;
    }
    'each: for i in 0..a.len() {
        if !same_step(&a[i], &b[i]) {
            return false;
        }
    }
    true
}
