ghost use Rattle.std.specs.Prelude.{ℕ, List, true, ◌≡◌, ◌+◌, ◌++◌, [], ◌<◌, ◌^◌, ◌-◌, ◌↔◌, IfOk, OnOk, map, length, not};
ghost use Rattle.std.specs.List.{All};
ghost use Rattle.fo_core.specs.declared.formula.Formula.TheVariants as F;
ghost use Rattle.fo_core.specs.declared.world.World.{World};
ghost use Rattle.fo_core.specs.Queries.{IsQuery, MeetsQuery};
ghost use Rattle.fo_core.specs.Skolems.{skolem_symbols, skolem_symbols_list};
ghost use Rattle.fo_core.specs.SortGraph.{FunctionEdge, ClaimsEdge};
ghost use Rattle.fo_core.specs.Sorted.{IsSig};
ghost use Rattle.fo_core.specs.Weights.{claim_nodes, skolem_nodes};
ghost use Rattle.fo_norm.specs.Forms.{whole, IsForm, MeetsForm};
ghost use Rattle.fo_norm.specs.Skolem.{formed as formed_of, formed_list, literal as literal_of, joined as joined_of, constant as constant_of, universal as universal_of, existential as existential_of, universal_symbols, existential_symbols, CanForm, CanBind};

use crate::form::SkolemForm;
use crate::scope::Scope;
use crate::terms::{filled, filled_each};
use fo_core::{Boxed, Formula, Query, Seq, Sig};
use std::alloc::{AllocError, Global};

/// True or False.
fn constant(value: bool) -> Formula
    ensures { result ≡ constant_of value }
{
    if value { Formula::True } else { Formula::False }
}

/// The atom or its negation.
fn literal(alloc: Global, positive: bool, atom: Formula) -> Result<Formula, AllocError>
    ensures { IfOk result (λ g. g ≡ literal_of positive atom) }
{
    if positive {
        Ok(atom)
    } else {
        Ok(Formula::Not(Boxed::new(alloc, atom)?))
    }
}

/// The conjunction or the disjunction.
fn joined(conjunction: bool, parts: Seq<Formula>) -> Formula
    ensures { result ≡ joined_of conjunction parts }
{
    if conjunction {
        Formula::And(parts)
    } else {
        Formula::Or(parts)
    }
}

/// The formula, or its negation, in negation normal form with Skolem functions.
#[cycle(norm)]
fn formed(
    alloc: Global,
    symbols: usize,
    f: &Formula,
    positive: bool,
    scope: &mut Scope,
) -> Result<Formula, AllocError>
    requires few { symbols + length scope.old.skolems < 2 ^ 32 - 1 }
    requires ready { CanForm scope.old.slots.items f.now }
    ensures formula { IfOk result (λ g. g ≡ formed_of positive f.now scope.old.slots.items scope.old.universals.items (symbols + length scope.old.skolems)) }
    ensures skolems { OnOk result (scope.new.skolems ≡ scope.old.skolems ++ skolem_symbols positive f.now scope.old.universals.items) }
    ensures slots { OnOk result (scope.new.slots.items ≡ scope.old.slots.items) }
    ensures universals { OnOk result (scope.new.universals.items ≡ scope.old.universals.items) }
    ensures few { OnOk result (symbols + length scope.new.skolems < 2 ^ 32 - 1) }
{
    match f {
        Formula::True => Ok(constant(positive)),
        Formula::False => Ok(constant(!positive)),
        Formula::Rel(r, d, args) => {
            let terms = filled_each(alloc, args.as_slice(), scope.slots.as_slice())?;
            literal(alloc, positive, Formula::Rel(*r, *d, terms))
        }
        Formula::Eq(a, b) => {
            let left = filled(alloc, a, scope.slots.as_slice())?;
            let right = filled(alloc, b, scope.slots.as_slice())?;
            literal(alloc, positive, Formula::Eq(left, right))
        }
        Formula::Not(g) => formed(alloc, symbols, g.get(), !positive, scope),
        Formula::And(fs) => {
            let parts = formed_each(alloc, symbols, fs.as_slice(), positive, scope)?;
            Ok(joined(positive, parts))
        }
        Formula::Or(fs) => {
            let parts = formed_each(alloc, symbols, fs.as_slice(), positive, scope)?;
            Ok(joined(!positive, parts))
        }
        // Below an odd number of negations a quantifier is the other one.
        Formula::All(s, g) => {
            let is_universal = positive;
            if is_universal {
                universal(alloc, symbols, *s, g.get(), positive, scope)
            } else {
                existential(alloc, symbols, *s, g.get(), positive, scope)
            }
        }
        Formula::Ex(s, g) => {
            let is_existential = positive;
            if is_existential {
                existential(alloc, symbols, *s, g.get(), positive, scope)
            } else {
                universal(alloc, symbols, *s, g.get(), positive, scope)
            }
        }
    }
}

/// The formulas, or their negations, with Skolem functions of their own for each.
#[cycle(norm)]
fn formed_each(
    alloc: Global,
    symbols: usize,
    items: &[Formula],
    positive: bool,
    scope: &mut Scope,
) -> Result<Seq<Formula>, AllocError>
    requires few { symbols + length scope.old.skolems < 2 ^ 32 - 1 }
    requires ready { All (CanForm scope.old.slots.items) items.now }
    ensures formulas { IfOk result (λ gs. gs ≡ formed_list positive items.now scope.old.slots.items scope.old.universals.items (symbols + length scope.old.skolems)) }
    ensures skolems { OnOk result (scope.new.skolems ≡ scope.old.skolems ++ skolem_symbols_list positive items.now scope.old.universals.items) }
    ensures slots { OnOk result (scope.new.slots.items ≡ scope.old.slots.items) }
    ensures universals { OnOk result (scope.new.universals.items ≡ scope.old.universals.items) }
    ensures few { OnOk result (symbols + length scope.new.skolems < 2 ^ 32 - 1) }
{
    let mut parts = Seq::new(alloc);
    'each: for item in items {
        parts.push(formed(alloc, symbols, item, positive, scope)?)?;
    }
    Ok(parts)
}

/// The universal over the body, or over its negation.
#[cycle(norm)]
fn universal(
    alloc: Global,
    symbols: usize,
    sort: u32,
    body: &Formula,
    positive: bool,
    scope: &mut Scope,
) -> Result<Formula, AllocError>
    requires few { symbols + length scope.old.skolems < 2 ^ 32 - 1 }
    requires ready { CanBind scope.old.slots.items body.now }
    ensures formula { IfOk result (λ g. g ≡ universal_of positive sort body.now scope.old.slots.items scope.old.universals.items (symbols + length scope.old.skolems)) }
    ensures skolems { OnOk result (scope.new.skolems ≡ scope.old.skolems ++ universal_symbols positive sort body.now scope.old.universals.items) }
    ensures slots { OnOk result (scope.new.slots.items ≡ scope.old.slots.items) }
    ensures universals { OnOk result (scope.new.universals.items ≡ scope.old.universals.items) }
    ensures few { OnOk result (symbols + length scope.new.skolems < 2 ^ 32 - 1) }
{
    scope.open_universal(sort)?;
    let inner = formed(alloc, symbols, body, positive, scope)?;
    scope.close_universal();
    Ok(Formula::All(sort, Boxed::new(alloc, inner)?))
}

/// The body, or its negation, with a Skolem function for the variable.
#[cycle(norm)]
fn existential(
    alloc: Global,
    symbols: usize,
    sort: u32,
    body: &Formula,
    positive: bool,
    scope: &mut Scope,
) -> Result<Formula, AllocError>
    requires few { symbols + length scope.old.skolems < 2 ^ 32 - 1 }
    requires ready { CanBind scope.old.slots.items body.now }
    ensures formula { IfOk result (λ g. g ≡ existential_of positive body.now scope.old.slots.items scope.old.universals.items (symbols + length scope.old.skolems)) }
    ensures skolems { OnOk result (scope.new.skolems ≡ scope.old.skolems ++ existential_symbols positive sort body.now scope.old.universals.items) }
    ensures slots { OnOk result (scope.new.slots.items ≡ scope.old.slots.items) }
    ensures universals { OnOk result (scope.new.universals.items ≡ scope.old.universals.items) }
    ensures few { OnOk result (symbols + length scope.new.skolems < 2 ^ 32 - 1) }
{
    scope.open_existential(alloc, symbols, sort)?;
    let inner = formed(alloc, symbols, body, positive, scope)?;
    scope.close_existential();
    Ok(inner)
}

/// The Skolem form of a query: each claim in negation normal form, with a Skolem function of the
/// enclosing universals for each existential.
///
/// A world meets the query exactly where tables for the Skolem symbols exist with which it meets
/// the claims of the form. The query has to be well-sorted for the signature. Where it has 2^32 - 1
/// nested universals, or as many existentials and symbols, memory is answered to be wanting.
pub fn normal(alloc: Global, sig: &Sig, q: &Query) -> Result<SkolemForm, AllocError>
    requires sig { IsSig sig.now }
    requires query { IsQuery sig.now q.now }
    ensures copies { IfOk result (λ form. form.copies ≡ q.now.copies) }
    ensures form { IfOk result (λ form. IsForm sig.now form) }
    ensures skolems { IfOk result (λ form. form.skolems ≡ skolem_symbols_list true q.now.claims []) }
    ensures edges { IfOk result (λ form. (a b : ℕ) → FunctionEdge (whole sig.now form) a b ↔ ClaimsEdge sig.now q.now.claims a b) }
    ensures nodes { IfOk result (λ form. (U : List ℕ) → claim_nodes U q.now.claims ≡ claim_nodes U form.claims + skolem_nodes U form.skolems) }
    ensures same_worlds { IfOk result (λ form. (w : World) → MeetsQuery sig.now q.now w ↔ MeetsForm sig.now form w) }
{
    let mut scope = Scope {
        slots: Vec::new(alloc),
        universals: Vec::new(alloc),
        skolems: Seq::new(alloc),
    };
    let symbols = sig.symbols.len();
    let claims = formed_each(alloc, symbols, q.claims.as_slice(), true, &mut scope)?;
    let Scope {
        slots: _,
        universals: _,
        skolems,
    } = scope;
    Ok(SkolemForm {
        copies: q.copies,
        claims,
        skolems,
    })
}
