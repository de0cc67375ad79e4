ghost use Rattle.std.specs.Prelude.{◌≡◌, ◌<◌, ◌-◌, ◌^◌, [], ◌∷◌, ◌++◌, IfOk, OnOk, length};
ghost use Rattle.fo_core.specs.declared.formula.Formula.{Rel};
ghost use Rattle.fo_core.specs.declared.formula.Formula.TheVariants as F;
ghost use Rattle.fo_core.specs.declared.term.Term.TheVariants.{App};
ghost use Rattle.up_claims.specs.Transitions.{same_truth as same_truth_of, same_value as same_value_of, same as same_of, keeps as keeps_of, kept_below, is_kept as is_kept_of, transition_claim as transition_claim_of, any_transition as any_transition_of};
ghost use Rattle.fo_core.specs.Over.{all_over as all_over_of, some_over as some_over_of, variables as variables_of};

use fo_core::{Formula, Seq, Sig, Step, Symbol, System, Term, all_over, some_over, variables};
use std::alloc::{AllocError, Global};

/// The relation of the variables from this number on, in this copy.
fn relation(
    alloc: Global,
    symbol: u32,
    copy: u32,
    from: usize,
    count: usize,
) -> Result<Formula, AllocError>
    ensures { IfOk result (λ f. f ≡ Rel symbol copy (variables_of from count)) }
{
    Ok(Formula::Rel(symbol, copy, variables(alloc, from, count)?))
}

/// The function of the variables from this number on, in this copy.
fn function(
    alloc: Global,
    symbol: u32,
    copy: u32,
    from: usize,
    count: usize,
) -> Result<Term, AllocError>
    ensures { IfOk result (λ t. t ≡ App symbol copy (variables_of from count)) }
{
    Ok(Term::App(symbol, copy, variables(alloc, from, count)?))
}

/// The relation is true in copy 1 exactly where it is in copy 0.
fn same_truth(alloc: Global, symbol: u32, from: usize, count: usize) -> Result<Formula, AllocError>
    ensures { IfOk result (λ f. f ≡ same_truth_of symbol (variables_of from count)) }
{
    let after = Formula::not(alloc, relation(alloc, symbol, 1, from, count)?)?;
    let left = Formula::either(alloc, after, relation(alloc, symbol, 0, from, count)?)?;
    let before = Formula::not(alloc, relation(alloc, symbol, 0, from, count)?)?;
    let right = Formula::either(alloc, relation(alloc, symbol, 1, from, count)?, before)?;
    Formula::both(alloc, left, right)
}

/// The symbol is the same in copies 0 and 1 for the variables from this number on.
fn same(
    alloc: Global,
    is_relation: bool,
    symbol: u32,
    from: usize,
    count: usize,
) -> Result<Formula, AllocError>
    ensures { IfOk result (λ f. f ≡ same_of is_relation symbol (variables_of from count)) }
{
    if is_relation {
        return same_truth(alloc, symbol, from, count);
    }
    let after = function(alloc, symbol, 1, from, count)?;
    let before = function(alloc, symbol, 0, from, count)?;
    Ok(Formula::Eq(after, before))
}

/// Below so many binders: the symbol is the same in copies 0 and 1 for all arguments.
fn keeps(alloc: Global, binders: usize, number: u32, symbol: &Symbol) -> Result<Formula, AllocError>
    ensures { IfOk result (λ f. f ≡ keeps_of binders number symbol.now) }
{
    let body = same(alloc, symbol.relation, number, binders, symbol.args.len())?;
    all_over(alloc, symbol.args.as_slice(), body)
}

/// Whether the symbol keeps its table where only the listed ones are modified.
fn is_kept(modifies: &[u32], number: u32, symbol: &Symbol) -> bool
    ensures { result ≡ is_kept_of modifies.now number symbol.now }
{
    symbol.mutable && !modifies.contains(&number)
}

/// Adds, for each symbol that keeps its table, that it does.
fn add_kept(
    alloc: Global,
    sig: &Sig,
    step: &Step,
    claims: &mut Seq<Formula>,
) -> Result<(), AllocError>
    requires { length sig.now.symbols < 2 ^ 32 - 1 }
    ensures { OnOk result (claims.new ≡ claims.old ++ kept_below sig.now (length step.now.params) step.now.modifies (length sig.now.symbols)) }
{
    let binders = step.params.len();
    let count = sig.symbols.len() as u32;
    'each: for k in 0..count {
        let symbol = sig.symbols.at(k as usize);
        if is_kept(step.modifies.as_slice(), k, symbol) {
            claims.push(keeps(alloc, binders, k, symbol)?)?;
        }
    }
    Ok(())
}

/// The transition leads from copy 0 to copy 1.
pub fn transition_claim(alloc: Global, sig: &Sig, step: &Step) -> Result<Formula, AllocError>
    requires { length sig.now.symbols < 2 ^ 32 - 1 }
    ensures { IfOk result (λ f. f ≡ transition_claim_of sig.now step.now) }
{
    let mut parts = Seq::new(alloc);
    parts.push(step.body.copy(alloc)?)?;
    add_kept(alloc, sig, step, &mut parts)?;
    some_over(alloc, step.params.as_slice(), Formula::And(parts))
}

/// Some transition of the system leads from copy 0 to copy 1.
pub fn any_transition(alloc: Global, sys: &System) -> Result<Formula, AllocError>
    requires { length sys.now.sig.symbols < 2 ^ 32 - 1 }
    ensures { IfOk result (λ f. f ≡ any_transition_of sys.now) }
{
    let mut parts = Seq::new(alloc);
    'each: for step in sys.steps.as_slice() {
        parts.push(transition_claim(alloc, &sys.sig, step)?)?;
    }
    Ok(Formula::Or(parts))
}
