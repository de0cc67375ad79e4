//! The formula of an expression that has no fault.

ghost use Rattle.std.specs.Prelude.{◌≡◌, ◌++◌, ◌∷◌, [], false, map, IfOk, OnOk};
ghost use Rattle.fo_core.specs.declared.formula.Formula.TheVariants as F;
ghost use Rattle.pyv_meaning.specs.Builds.{connected, compared, differ, closed_over, copy_of as copy_at, named_term, named_formula, term_of, terms_of, formula_of, formulas_of};
ghost use Rattle.pyv_meaning.specs.Tree.{Implication, Equivalence, Universal, Existential, bound_names};
ghost use Rattle.pyv_meaning.specs.Scope.{resolve};
ghost use Rattle.pyv_meaning.specs.View.{binders_of, view, views, word};
ghost use Rattle.pyv_sorts.specs.Building.{quantifier_of};
ghost use Rattle.pyv_sorts.specs.Inferring.{sort_in};
ghost use Rattle.pyv_sorts.specs.Vocabulary.{InRange};

use crate::clash::sort_of;
use crate::free::enter;
use crate::known::Known;
use crate::scope::Scope;
use fo_core::{Boxed, Formula, Seq, Term};
use indexmap::IndexMap;
use pv_base::Span;
use pyv_grammar::{Bound, Expr};
use pyv_meaning::Meaning;
use std::alloc::{AllocError, Global};

/// The copy of which a symbol speaks.
fn copy_of(known: &Known<'_>, number: u32, ahead: bool) -> u32
    requires { InRange known.now (Meaning.Symbol number) }
    ensures { result ≡ copy_at known.now.sig ahead number }
{
    if ahead && known.symbol(number).mutable {
        1
    } else {
        0
    }
}

fn not(alloc: Global, f: Formula) -> Result<Formula, AllocError>
    ensures { IfOk result (λ g. g ≡ F.Not f) }
{
    Ok(Formula::Not(Boxed::new(alloc, f)?))
}

fn two(alloc: Global, f: Formula, g: Formula) -> Result<Seq<Formula>, AllocError>
    ensures { IfOk result (λ fs. fs ≡ f ∷ g ∷ []) }
{
    let mut both = Seq::new(alloc);
    both.push(f)?;
    both.push(g)?;
    Ok(both)
}

/// The first implies the second.
fn implies(alloc: Global, f: Formula, g: Formula) -> Result<Formula, AllocError>
    ensures { IfOk result (λ h. h ≡ connected Implication f g) }
{
    Ok(Formula::Or(two(alloc, not(alloc, f)?, g)?))
}

/// The first holds, or the second doesn't.
fn implied(alloc: Global, f: &Formula, g: &Formula) -> Result<Formula, AllocError>
    ensures { IfOk result (λ h. h ≡ F.Or (f.now ∷ F.Not g.now ∷ [])) }
{
    let right = not(alloc, g.copy(alloc)?)?;
    let left = f.copy(alloc)?;
    Ok(Formula::Or(two(alloc, left, right)?))
}

/// Both implications.
fn iff(alloc: Global, f: Formula, g: Formula) -> Result<Formula, AllocError>
    ensures { IfOk result (λ h. h ≡ connected Equivalence f g) }
{
    let back = implied(alloc, &f, &g)?;
    let forth = implies(alloc, f, g)?;
    Ok(Formula::And(two(alloc, forth, back)?))
}

/// The terms differ.
fn unequal(alloc: Global, one: &Term, other: &Term) -> Result<Formula, AllocError>
    ensures { IfOk result (λ f. f ≡ compared false one.now other.now) }
{
    not(alloc, Formula::Eq(one.copy(alloc)?, other.copy(alloc)?))
}

/// Appends that a term differs from each of the others.
fn differ_from_each(
    alloc: Global,
    out: &mut Seq<Formula>,
    term: &Term,
    others: &[Term],
) -> Result<(), AllocError>
    ensures { OnOk result (out.new ≡ out.old ++ map (λ u. compared false term.now u) others.now) }
{
    'each: for other in others {
        out.push(unequal(alloc, term, other)?)?;
    }
    Ok(())
}

/// The terms differ pair by pair.
fn distinct(alloc: Global, terms: &[Term]) -> Result<Formula, AllocError>
    ensures { IfOk result (λ f. f ≡ F.And (differ terms.now)) }
{
    let mut pairs = Seq::new(alloc);
    'each: for (at, term) in terms.iter().enumerate() {
        differ_from_each(alloc, &mut pairs, term, &terms[at + 1..])?;
    }
    Ok(Formula::And(pairs))
}

/// The formula quantified over variables, the first of them outermost.
fn quantified(
    alloc: Global,
    known: &Known<'_>,
    sorts: &IndexMap<u32, u32>,
    universal: bool,
    bounds: &[Bound],
    body: Formula,
) -> Result<Formula, AllocError>
    ensures { IfOk result (λ f. f ≡ closed_over (sort_in sorts.now) (quantifier_of universal) (bound_names (binders_of known.now.bytes bounds.now)) body) }
{
    let mut formula = body;
    'each: for k in 0..bounds.len() {
        let bound = &bounds[bounds.len() - 1 - k];
        let sort = sort_of(sorts, bound.name.from);
        let inner = Boxed::new(alloc, formula)?;
        formula = if universal {
            Formula::All(sort, inner)
        } else {
            Formula::Ex(sort, inner)
        };
    }
    Ok(formula)
}

/// What a name that stands for a symbol means as a formula of so many terms. Truth stands for what
/// is no formula.
fn applied(known: &Known<'_>, meaning: Meaning, ahead: bool, args: Seq<Term>) -> Formula
    requires { InRange known.now meaning }
    ensures { result ≡ named_formula known.now.names known.now.sig meaning ahead args }
{
    match meaning {
        Meaning::Symbol(number) => Formula::Rel(number, copy_of(known, number, ahead), args),
        Meaning::Variable(_, _) | Meaning::Unknown => Formula::True,
    }
}

/// The term that an expression means, inside `new` or not. The outermost variable stands for what
/// is no term.
#[cycle(arguments)]
fn term(
    alloc: Global,
    known: &Known<'_>,
    ahead: bool,
    scope: &Scope<'_>,
    tree: &Expr,
) -> Result<Term, AllocError>
    ensures { IfOk result (λ t. t ≡ term_of known.now.names known.now.sig (view known.now.bytes tree.now) ahead scope.now) }
{
    match tree {
        Expr::Name(name, _, args) => match known.meaning(scope, *name) {
            Meaning::Variable(_, level) => Ok(Term::Var(level)),
            Meaning::Symbol(number) => {
                let args = terms(alloc, known, ahead, scope, args.as_slice())?;
                Ok(Term::App(number, copy_of(known, number, ahead), args))
            }
            Meaning::Unknown => Ok(Term::Var(0)),
        },
        Expr::New(_, x) => term(alloc, known, true, scope, x.get()),
        _ => Ok(Term::Var(0)),
    }
}

#[cycle(arguments)]
fn terms(
    alloc: Global,
    known: &Known<'_>,
    ahead: bool,
    scope: &Scope<'_>,
    trees: &[Expr],
) -> Result<Seq<Term>, AllocError>
    ensures { IfOk result (λ ts. ts ≡ terms_of known.now.names known.now.sig (views known.now.bytes trees.now) ahead scope.now) }
{
    let mut built = Seq::new(alloc);
    'each: for tree in trees {
        built.push(term(alloc, known, ahead, scope, tree)?)?;
    }
    Ok(built)
}

/// What an application or a name means as a formula.
fn application(
    alloc: Global,
    known: &Known<'_>,
    ahead: bool,
    scope: &Scope<'_>,
    name: Span,
    args: &[Expr],
) -> Result<Formula, AllocError>
    ensures { IfOk result (λ f. f ≡ named_formula known.now.names known.now.sig (resolve known.now.names scope.now (word known.now.bytes name)) ahead (terms_of known.now.names known.now.sig (views known.now.bytes args.now) ahead scope.now)) }
{
    let args = terms(alloc, known, ahead, scope, args)?;
    Ok(applied(known, known.meaning(scope, name), ahead, args))
}

/// The terms are equal.
fn equality(
    alloc: Global,
    known: &Known<'_>,
    ahead: bool,
    scope: &Scope<'_>,
    one: &Expr,
    other: &Expr,
) -> Result<Formula, AllocError>
    ensures { IfOk result (λ f. f ≡ F.Eq (term_of known.now.names known.now.sig (view known.now.bytes one.now) ahead scope.now) (term_of known.now.names known.now.sig (view known.now.bytes other.now) ahead scope.now)) }
{
    let left = term(alloc, known, ahead, scope, one)?;
    Ok(Formula::Eq(left, term(alloc, known, ahead, scope, other)?))
}

/// A condition, and that it implies what holds with it.
#[derive(Drop)]
struct Branch {
    condition: Formula,
    with: Formula,
}

/// The formula that an expression means, inside `new` or not. Truth stands for what is no formula.
#[cycle(building)]
pub fn formula<'a>(
    alloc: Global,
    known: &Known<'a>,
    sorts: &IndexMap<u32, u32>,
    ahead: bool,
    scope: &mut Scope<'a>,
    tree: &Expr,
) -> Result<Formula, AllocError>
    ensures formula { IfOk result (λ f. f ≡ formula_of known.now.names known.now.sig (sort_in sorts.now) (view known.now.bytes tree.now) ahead scope.old) }
    ensures scope { OnOk result (scope.new ≡ scope.old) }
{
    match tree {
        Expr::True(_) => Ok(Formula::True),
        Expr::False(_) => Ok(Formula::False),
        Expr::Name(name, _, args) => {
            application(alloc, known, ahead, scope, *name, args.as_slice())
        }
        Expr::New(_, x) => formula(alloc, known, sorts, true, scope, x.get()),
        Expr::Distinct(_, trees) => {
            let terms = terms(alloc, known, ahead, scope, trees.as_slice())?;
            distinct(alloc, terms.as_slice())
        }
        Expr::Not(_, x) => not(alloc, formula(alloc, known, sorts, ahead, scope, x.get())?),
        Expr::And(_, members) => {
            let members = members.as_slice();
            let built = formulas(alloc, known, sorts, ahead, scope, members)?;
            Ok(Formula::And(built))
        }
        Expr::Or(_, members) => {
            let members = members.as_slice();
            let built = formulas(alloc, known, sorts, ahead, scope, members)?;
            Ok(Formula::Or(built))
        }
        Expr::Implies(_, x, y) => {
            let premise = formula(alloc, known, sorts, ahead, scope, x.get())?;
            implication(alloc, known, sorts, ahead, scope, y.get(), premise)
        }
        Expr::Iff(_, x, y) => {
            let left = formula(alloc, known, sorts, ahead, scope, x.get())?;
            equivalence(alloc, known, sorts, ahead, scope, y.get(), left)
        }
        Expr::Equal(_, x, y) => { equality(alloc, known, ahead, scope, x.get(), y.get()) }
        Expr::Unequal(_, x, y) => {
            not(
                alloc,
                equality(alloc, known, ahead, scope, x.get(), y.get())?,
            )
        }
        Expr::All(_, bounds, x) => {
            let level = scope.len();
            enter(known, scope, bounds.as_slice())?;
            let body = formula(alloc, known, sorts, ahead, scope, x.get())?;
            scope.leave(level);
            quantified(alloc, known, sorts, true, bounds.as_slice(), body)
        }
        Expr::Ex(_, bounds, x) => {
            let level = scope.len();
            enter(known, scope, bounds.as_slice())?;
            let body = formula(alloc, known, sorts, ahead, scope, x.get())?;
            scope.leave(level);
            quantified(alloc, known, sorts, false, bounds.as_slice(), body)
        }
        Expr::If(_, x, y, z) => {
            let condition = formula(alloc, known, sorts, ahead, scope, x.get())?;
            let branch = with_condition(alloc, known, sorts, ahead, scope, y.get(), condition)?;
            without_condition(alloc, known, sorts, ahead, scope, z.get(), branch)
        }
    }
}

/// The premise implies what the expression means.
#[cycle(building)]
fn implication<'a>(
    alloc: Global,
    known: &Known<'a>,
    sorts: &IndexMap<u32, u32>,
    ahead: bool,
    scope: &mut Scope<'a>,
    tree: &Expr,
    premise: Formula,
) -> Result<Formula, AllocError>
    ensures formula { IfOk result (λ h. h ≡ connected Implication premise (formula_of known.now.names known.now.sig (sort_in sorts.now) (view known.now.bytes tree.now) ahead scope.old)) }
    ensures scope { OnOk result (scope.new ≡ scope.old) }
{
    let conclusion = formula(alloc, known, sorts, ahead, scope, tree)?;
    implies(alloc, premise, conclusion)
}

/// Both hold or neither, of the formula and of what the expression means.
#[cycle(building)]
fn equivalence<'a>(
    alloc: Global,
    known: &Known<'a>,
    sorts: &IndexMap<u32, u32>,
    ahead: bool,
    scope: &mut Scope<'a>,
    tree: &Expr,
    left: Formula,
) -> Result<Formula, AllocError>
    ensures formula { IfOk result (λ h. h ≡ connected Equivalence left (formula_of known.now.names known.now.sig (sort_in sorts.now) (view known.now.bytes tree.now) ahead scope.old)) }
    ensures scope { OnOk result (scope.new ≡ scope.old) }
{
    let right = formula(alloc, known, sorts, ahead, scope, tree)?;
    iff(alloc, left, right)
}

/// What the expression means holds with the condition.
#[cycle(building)]
fn with_condition<'a>(
    alloc: Global,
    known: &Known<'a>,
    sorts: &IndexMap<u32, u32>,
    ahead: bool,
    scope: &mut Scope<'a>,
    tree: &Expr,
    condition: Formula,
) -> Result<Branch, AllocError>
    ensures condition { IfOk result (λ b. b.condition ≡ condition) }
    ensures with { IfOk result (λ b. b.with ≡ connected Implication condition (formula_of known.now.names known.now.sig (sort_in sorts.now) (view known.now.bytes tree.now) ahead scope.old)) }
    ensures scope { OnOk result (scope.new ≡ scope.old) }
{
    let kept = condition.copy(alloc)?;
    let with = implication(alloc, known, sorts, ahead, scope, tree, condition)?;
    Ok(Branch {
        condition: kept,
        with,
    })
}

/// What the expression means holds without the condition.
#[cycle(building)]
fn without_condition<'a>(
    alloc: Global,
    known: &Known<'a>,
    sorts: &IndexMap<u32, u32>,
    ahead: bool,
    scope: &mut Scope<'a>,
    tree: &Expr,
    branch: Branch,
) -> Result<Formula, AllocError>
    ensures formula { IfOk result (λ h. h ≡ F.And (branch.with ∷ F.Or (branch.condition ∷ (formula_of known.now.names known.now.sig (sort_in sorts.now) (view known.now.bytes tree.now) ahead scope.old) ∷ []) ∷ [])) }
    ensures scope { OnOk result (scope.new ≡ scope.old) }
{
    let Branch { condition, with } = branch;
    let other = formula(alloc, known, sorts, ahead, scope, tree)?;
    let without = Formula::Or(two(alloc, condition, other)?);
    Ok(Formula::And(two(alloc, with, without)?))
}

#[cycle(building)]
fn formulas<'a>(
    alloc: Global,
    known: &Known<'a>,
    sorts: &IndexMap<u32, u32>,
    ahead: bool,
    scope: &mut Scope<'a>,
    trees: &[Expr],
) -> Result<Seq<Formula>, AllocError>
    ensures formulas { IfOk result (λ fs. fs ≡ formulas_of known.now.names known.now.sig (sort_in sorts.now) (views known.now.bytes trees.now) ahead scope.old) }
    ensures scope { OnOk result (scope.new ≡ scope.old) }
{
    let mut built = Seq::new(alloc);
    'each: for tree in trees {
        built.push(formula(alloc, known, sorts, ahead, scope, tree)?)?;
    }
    Ok(built)
}
