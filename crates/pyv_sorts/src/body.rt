//! What a body means.

ghost use Rattle.std.specs.Prelude.{◌≡◌, ◌++◌, ◌<◌, List, length, map, option_map, slice_index_or, IfOk, IfErr, OnOk};
ghost use Rattle.pyv_meaning.specs.Builds.{closed_over};
ghost use Rattle.pyv_meaning.specs.Uses.{binder_uses};
ghost use Rattle.fo_core.specs.declared.formula.Formula.TheVariants as F;
ghost use Rattle.pyv_meaning.specs.Tree.{Name, Universal, bound_names};
ghost use Rattle.pyv_meaning.specs.View.{binders_of, views};
ghost use Rattle.pyv_sorts.specs.Closures.{part_names};
ghost use Rattle.pyv_sorts.specs.Inferring.{sort_in, AreSorted, IsUnsorted};
ghost use Rattle.pyv_sorts.specs.Elaborating.{body_of, IsElaborated, IsPartsFault, OrMemory};
ghost use Rattle.pyv_sorts.specs.Parts.{HasParts, faults_in, uses_in, clash_in, formulas_in, closures_in, ArePartsBuilt, IsFaultOfParts};
ghost use Rattle.pyv_sorts.specs.Placing.{names_in};
ghost use Rattle.pyv_sorts.specs.Tells.{Tells};

use crate::clash::{clash, sort_of};
use crate::formula::formula;
use crate::free::{closures, enter};
use crate::infer::infer;
use crate::known::Known;
use crate::names::names;
use crate::part::Part;
use crate::placed::Placed;
use crate::scope::Scope;
use crate::uses::{bound_uses, uses};
use fo_core::{Boxed, Formula, Seq};
use indexmap::IndexMap;
use pyv_grammar::{Bound, Expr};
use pyv_meaning::{SortFault, Stand, Use};
use std::alloc::{AllocError, Global};
use std::slice;

/// Puts the variables over which a part is closed inside the parameters.
fn enter_each<'a>(scope: &mut Scope<'a>, variables: &[Placed<'a>]) -> Result<(), AllocError>
    ensures { OnOk result (scope.new ≡ scope.old ++ names_in variables.now) }
{
    'each: for variable in variables {
        scope.enter(*variable)?;
    }
    Ok(())
}

/// Finds the first fault of the names of the parts. The scope has the parameters.
fn names_of_parts<'a>(
    known: &Known<'a>,
    stand: Stand,
    scope: &mut Scope<'a>,
    closures: &[Part<'a>],
    parts: &[Expr],
) -> Result<(), SortFault>
    ensures fault { Tells result (faults_in known.now.names known.now.sig stand scope.old (views known.now.bytes parts.now) (part_names closures.now)) }
    ensures scope { OnOk result (scope.new ≡ scope.old) }
{
    let level = scope.len();
    'each: for (k, part) in parts.iter().enumerate() {
        if k >= closures.len() {
            return Ok(());
        }
        enter_each(scope, closures[k].names.as_slice())?;
        names(known, stand, scope, part)?;
        scope.leave(level);
    }
    Ok(())
}

/// Appends what the parts tell of their variables. The scope has the parameters.
fn uses_of_parts<'a>(
    known: &Known<'a>,
    told: &mut Vec<Use>,
    scope: &mut Scope<'a>,
    closures: &[Part<'a>],
    parts: &[Expr],
) -> Result<(), AllocError>
    ensures uses { OnOk result (told.new.items ≡ told.old.items ++ uses_in known.now.names known.now.sig scope.old (views known.now.bytes parts.now) (part_names closures.now)) }
    ensures scope { OnOk result (scope.new ≡ scope.old) }
{
    let level = scope.len();
    'each: for (k, part) in parts.iter().enumerate() {
        if k >= closures.len() {
            return Ok(());
        }
        enter_each(scope, closures[k].names.as_slice())?;
        uses(known, told, scope, part)?;
        scope.leave(level);
    }
    Ok(())
}

/// What the parameters and the parts tell of their variables. The scope has the parameters.
fn uses_of_body<'a>(
    alloc: Global,
    known: &Known<'a>,
    params: &[Bound],
    scope: &mut Scope<'a>,
    closures: &[Part<'a>],
    parts: &[Expr],
) -> Result<Vec<Use>, AllocError>
    ensures uses { IfOk result (λ v. v.items ≡ binder_uses known.now.names (binders_of known.now.bytes params.now) ++ uses_in known.now.names known.now.sig scope.old (views known.now.bytes parts.now) (part_names closures.now)) }
    ensures scope { OnOk result (scope.new ≡ scope.old) }
{
    let mut told = Vec::new(alloc);
    bound_uses(known, &mut told, params)?;
    uses_of_parts(known, &mut told, scope, closures, parts)?;
    Ok(told)
}

/// Finds the first clash of the parts. The scope has the parameters.
fn clash_of_parts<'a>(
    known: &Known<'a>,
    sorts: &IndexMap<u32, u32>,
    scope: &mut Scope<'a>,
    closures: &[Part<'a>],
    parts: &[Expr],
) -> Result<(), SortFault>
    ensures clash { Tells result (clash_in known.now.names known.now.sig (sort_in sorts.now) scope.old (views known.now.bytes parts.now) (part_names closures.now)) }
    ensures scope { OnOk result (scope.new ≡ scope.old) }
{
    let level = scope.len();
    'each: for (k, part) in parts.iter().enumerate() {
        if k >= closures.len() {
            return Ok(());
        }
        enter_each(scope, closures[k].names.as_slice())?;
        clash(known, sorts, None, scope, part)?;
        scope.leave(level);
    }
    Ok(())
}

/// The formula for all values of the variables, the first of them outermost.
fn closed(
    alloc: Global,
    sorts: &IndexMap<u32, u32>,
    variables: &[Placed<'_>],
    body: Formula,
) -> Result<Formula, AllocError>
    ensures { IfOk result (λ f. f ≡ closed_over (sort_in sorts.now) Universal (names_in variables.now) body) }
{
    let mut formula = body;
    'each: for k in 0..variables.len() {
        let variable = variables[variables.len() - 1 - k];
        formula = Formula::All(sort_of(sorts, variable.place), Boxed::new(alloc, formula)?);
    }
    Ok(formula)
}

/// The formulas of the parts, each closed over its free variables. The scope has the parameters.
fn formulas_of_parts<'a>(
    alloc: Global,
    known: &Known<'a>,
    sorts: &IndexMap<u32, u32>,
    scope: &mut Scope<'a>,
    closures: &[Part<'a>],
    parts: &[Expr],
) -> Result<Seq<Formula>, AllocError>
    ensures formulas { IfOk result (λ fs. fs ≡ formulas_in known.now.names known.now.sig (sort_in sorts.now) scope.old (views known.now.bytes parts.now) (part_names closures.now)) }
    ensures scope { OnOk result (scope.new ≡ scope.old) }
{
    let level = scope.len();
    let mut built = Seq::new(alloc);
    'each: for (k, part) in parts.iter().enumerate() {
        if k >= closures.len() {
            return Ok(built);
        }
        let variables = closures[k].names.as_slice();
        enter_each(scope, variables)?;
        let open = formula(alloc, known, sorts, false, scope, part)?;
        scope.leave(level);
        built.push(closed(alloc, sorts, variables, open)?)?;
    }
    Ok(built)
}

/// The sorts of parameters.
fn sorts_of_params(
    alloc: Global,
    known: &Known<'_>,
    sorts: &IndexMap<u32, u32>,
    params: &[Bound],
) -> Result<Seq<u32>, AllocError>
    ensures { IfOk result (λ ss. ss ≡ map (λ (n : Name). sort_in sorts.now n.place) (bound_names (binders_of known.now.bytes params.now))) }
{
    let mut found = Seq::new(alloc);
    'each: for param in params {
        found.push(sort_of(sorts, param.name.from))?;
    }
    Ok(found)
}

/// The sorts of the variables of a body, or the first variable that has none or two. The scope has
/// the parameters.
fn sorts_of_body<'a>(
    alloc: Global,
    known: &Known<'a>,
    params: &[Bound],
    scope: &mut Scope<'a>,
    closures: &[Part<'a>],
    parts: &[Expr],
) -> Result<IndexMap<u32, u32>, SortFault>
    ensures sorted { IfOk result (λ found. AreSorted (binder_uses known.now.names (binders_of known.now.bytes params.now) ++ uses_in known.now.names known.now.sig scope.old (views known.now.bytes parts.now) (part_names closures.now)) (sort_in found)) }
    ensures fault { IfErr result (IsUnsorted (binder_uses known.now.names (binders_of known.now.bytes params.now) ++ uses_in known.now.names known.now.sig scope.old (views known.now.bytes parts.now) (part_names closures.now))) }
    ensures scope { OnOk result (scope.new ≡ scope.old) }
{
    let told = uses_of_body(alloc, known, params, scope, closures, parts)?;
    infer(alloc, told.as_slice())
}

/// The sorts of the parameters of a body, and the formulas of its parts.
#[derive(Drop)]
struct Parts {
    params: Seq<u32>,
    formulas: Seq<Formula>,
}

/// What the parts are built to, or their first clash. The scope has the parameters.
fn built<'a>(
    alloc: Global,
    known: &Known<'a>,
    sorts: &IndexMap<u32, u32>,
    params: &[Bound],
    scope: &mut Scope<'a>,
    closures: &[Part<'a>],
    parts: &[Expr],
) -> Result<Parts, SortFault>
    ensures clash { Tells result (clash_in known.now.names known.now.sig (sort_in sorts.now) scope.old (views known.now.bytes parts.now) (part_names closures.now)) }
    ensures params { IfOk result (λ p. p.params ≡ map (λ (n : Name). sort_in sorts.now n.place) (bound_names (binders_of known.now.bytes params.now))) }
    ensures formulas { IfOk result (λ p. p.formulas ≡ formulas_in known.now.names known.now.sig (sort_in sorts.now) scope.old (views known.now.bytes parts.now) (part_names closures.now)) }
{
    clash_of_parts(known, sorts, scope, closures, parts)?;
    let params = sorts_of_params(alloc, known, sorts, params)?;
    let formulas = formulas_of_parts(alloc, known, sorts, scope, closures, parts)?;
    Ok(Parts { params, formulas })
}

/// The parts of a body, each closed by itself over these variables, or the first fault. The scope
/// has the parameters.
fn elaborate_closed<'a>(
    alloc: Global,
    known: &Known<'a>,
    step: bool,
    params: &[Bound],
    scope: &mut Scope<'a>,
    closures: &[Part<'a>],
    parts: &[Expr],
) -> Result<Parts, SortFault>
    requires scope { scope.old ≡ bound_names (binders_of known.now.bytes params.now) }
    requires closures { part_names closures.now ≡ closures_in known.now.names known.now.sig (binders_of known.now.bytes params.now) (views known.now.bytes parts.now) }
    ensures found { IfOk result (λ p. ArePartsBuilt known.now.names known.now.sig step (binders_of known.now.bytes params.now) (views known.now.bytes parts.now) p.params p.formulas) }
    ensures fault { IfErr result (OrMemory (IsFaultOfParts known.now.names known.now.sig step (binders_of known.now.bytes params.now) (views known.now.bytes parts.now))) }
{
    let stand = Stand {
        step,
        ahead: false,
        formula: true,
        over: false,
    };
    names_of_parts(known, stand, scope, closures, parts)?;
    let sorts = sorts_of_body(alloc, known, params, scope, closures, parts)?;
    built(alloc, known, &sorts, params, scope, closures, parts)
}

/// The parts of a body, each closed by itself, or the first fault.
fn elaborate_parts(
    alloc: Global,
    known: &Known<'_>,
    step: bool,
    params: &[Bound],
    parts: &[Expr],
) -> Result<Parts, SortFault>
    ensures found { IfOk result (λ p. ArePartsBuilt known.now.names known.now.sig step (binders_of known.now.bytes params.now) (views known.now.bytes parts.now) p.params p.formulas) }
    ensures fault { IfErr result (OrMemory (IsFaultOfParts known.now.names known.now.sig step (binders_of known.now.bytes params.now) (views known.now.bytes parts.now))) }
{
    let mut scope = Scope::new(alloc);
    enter(known, &mut scope, params)?;
    let closures = closures(alloc, known, &mut scope, parts)?;
    elaborate_closed(
        alloc,
        known,
        step,
        params,
        &mut scope,
        closures.as_slice(),
        parts,
    )
}

/// The first of the formulas; truth where there is none.
fn first(formulas: Seq<Formula>) -> Formula
    requires { length formulas < 2 }
    ensures { result ≡ slice_index_or formulas 0 F.True }
{
    match formulas.into_vec().pop() {
        Some(formula) => formula,
        None => Formula::True,
    }
}

/// The members of a list of `&`, each of which is closed by itself.
fn conjuncts<'t>(known: &Known<'_>, tree: &'t Expr) -> Option<&'t [Expr]>
    ensures { HasParts known.now.bytes tree.now (option_map (λ ms. ms.now) result) }
{
    match tree {
        Expr::And(_, members) => Some(members.as_slice()),
        Expr::True(_)
        | Expr::False(_)
        | Expr::Name(_, _, _)
        | Expr::New(_, _)
        | Expr::Distinct(_, _)
        | Expr::Not(_, _)
        | Expr::Or(_, _)
        | Expr::Implies(_, _, _)
        | Expr::Iff(_, _, _)
        | Expr::Equal(_, _, _)
        | Expr::Unequal(_, _, _)
        | Expr::All(_, _, _)
        | Expr::Ex(_, _, _)
        | Expr::If(_, _, _, _) => None,
    }
}

/// A body with the sorts of its parameters.
#[derive(Drop)]
pub struct Body {
    pub params: Seq<u32>,
    pub formula: Formula,
}

/// The formula that a body means inside its parameters, or its first fault. The members of a list
/// of `&` are closed each by itself over the free variables that they name, any other body as a
/// whole. `step` says whether `new` may stand in it.
pub fn elaborate_body(
    alloc: Global,
    known: &Known<'_>,
    step: bool,
    params: &[Bound],
    tree: &Expr,
) -> Result<Body, SortFault>
    ensures found { (modifies : List Name) → IfOk result (λ y. IsElaborated known.now (body_of known.now step params.now modifies tree.now) y.params y.formula) }
    ensures fault { (modifies : List Name) → IfErr result (IsPartsFault known.now (body_of known.now step params.now modifies tree.now)) }
{
    match conjuncts(known, tree) {
        Some(members) => {
            let parts = elaborate_parts(alloc, known, step, params, members)?;
            Ok(Body {
                params: parts.params,
                formula: Formula::And(parts.formulas),
            })
        }
        None => {
            let parts = elaborate_parts(alloc, known, step, params, slice::from_ref(tree))?;
            Ok(Body {
                params: parts.params,
                formula: first(parts.formulas),
            })
        }
    }
}
