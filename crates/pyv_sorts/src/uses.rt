//! What a body tells of the sorts of its variables.

ghost use Rattle.std.specs.Prelude.{◌≡◌, ◌++◌, OnOk};
ghost use Rattle.pyv_meaning.specs.Uses.{side as side_of_tree, sides, stands as stands_of, equated as equated_of, equated_with, all_equated, first_occurs, declared_as, binder_uses, uses as uses_of, each_uses, argument_uses};
ghost use Rattle.pyv_meaning.specs.View.{sort_name, binders_of, view, views};

use crate::free::enter;
use crate::known::Known;
use crate::scope::Scope;
use pv_base::Span;
use pyv_grammar::{Bound, Expr};
use pyv_meaning::{Meaning, Side, Use};
use std::alloc::AllocError;

fn side_at(known: &Known<'_>, scope: &Scope<'_>, tree: &Expr) -> Side
    ensures { result ≡ side_of_tree known.now.names known.now.sig (view known.now.bytes tree.now) scope.now }
{
    match tree {
        Expr::Name(name, _, _) => match known.meaning(scope, *name) {
            Meaning::Variable(binder, _) => Side::OfVariable(binder),
            Meaning::Symbol(number) => Side::OfSort(known.symbol(number).result),
            Meaning::Unknown => Side::Neither,
        },
        Expr::New(_, x) => side_at(known, scope, x.get()),
        _ => Side::Neither,
    }
}

/// What is told by standing where a sort is asked.
fn stands(out: &mut Vec<Use>, side: Side, sort: u32) -> Result<(), AllocError>
    ensures { OnOk result (out.new.items ≡ out.old.items ++ stands_of side sort) }
{
    if let Side::OfVariable(v) = side {
        out.push(Use::Is(v, sort))?;
    }
    Ok(())
}

/// What is told by two sides of one sort.
fn equated(out: &mut Vec<Use>, left: Side, right: Side) -> Result<(), AllocError>
    ensures { OnOk result (out.new.items ≡ out.old.items ++ equated_of left right) }
{
    match (left, right) {
        (Side::OfVariable(v), Side::OfVariable(w)) => out.push(Use::Alike(v, w))?,
        (Side::OfVariable(v), Side::OfSort(s)) => out.push(Use::Is(v, s))?,
        (Side::OfSort(s), Side::OfVariable(v)) => out.push(Use::Is(v, s))?,
        _ => {}
    }
    Ok(())
}

/// What is told by a side that has one sort with each of the terms.
fn equated_with_each(
    known: &Known<'_>,
    out: &mut Vec<Use>,
    scope: &Scope<'_>,
    left: Side,
    terms: &[Expr],
) -> Result<(), AllocError>
    ensures { OnOk result (out.new.items ≡ out.old.items ++ equated_with left (sides known.now.names known.now.sig (views known.now.bytes terms.now) scope.now)) }
{
    'each: for term in terms {
        equated(out, left, side_at(known, scope, term))?;
    }
    Ok(())
}

/// What is told by terms of one sort, pair by pair.
fn equated_pairs(
    known: &Known<'_>,
    out: &mut Vec<Use>,
    scope: &Scope<'_>,
    terms: &[Expr],
) -> Result<(), AllocError>
    ensures { OnOk result (out.new.items ≡ out.old.items ++ all_equated (sides known.now.names known.now.sig (views known.now.bytes terms.now) scope.now)) }
{
    'each: for (at, term) in terms.iter().enumerate() {
        let left = side_at(known, scope, term);
        equated_with_each(known, out, scope, left, &terms[at + 1..])?;
    }
    Ok(())
}

/// What is told where variables are bound.
pub fn bound_uses(known: &Known<'_>, out: &mut Vec<Use>, bounds: &[Bound]) -> Result<(), AllocError>
    ensures { OnOk result (out.new.items ≡ out.old.items ++ binder_uses known.now.names (binders_of known.now.bytes bounds.now)) }
{
    'each: for bound in bounds {
        out.push(Use::Binder(bound.name.from))?;
        declared(known, out, bound.name.from, bound.sort)?;
    }
    Ok(())
}

/// What is told by a sort where a variable is bound.
fn declared(
    known: &Known<'_>,
    out: &mut Vec<Use>,
    variable: u32,
    sort: Option<Span>,
) -> Result<(), AllocError>
    ensures { OnOk result (out.new.items ≡ out.old.items ++ declared_as known.now.names variable (sort_name known.now.bytes sort)) }
{
    if let Some(name) = sort {
        if let Some(number) = known.sort_number(name) {
            out.push(Use::Is(variable, number))?;
        }
    }
    Ok(())
}

/// A free variable is bound where it first occurs.
fn occurs(out: &mut Vec<Use>, meaning: Meaning, place: u32) -> Result<(), AllocError>
    ensures { OnOk result (out.new.items ≡ out.old.items ++ first_occurs meaning place) }
{
    if let Meaning::Variable(binder, _) = meaning {
        if binder == place {
            out.push(Use::Binder(binder))?;
        }
    }
    Ok(())
}

/// Appends what an expression tells of its variables, from left to right.
#[cycle(telling)]
#[tactic(auto, using(crate::proofs::Appends::append_again, crate::proofs::Appends::append_none, crate::proofs::Appends::no_places))]
pub fn uses<'a>(
    known: &Known<'a>,
    out: &mut Vec<Use>,
    scope: &mut Scope<'a>,
    tree: &Expr,
) -> Result<(), AllocError>
    ensures uses { OnOk result (out.new.items ≡ out.old.items ++ uses_of known.now.names known.now.sig (view known.now.bytes tree.now) scope.old) }
    ensures scope { OnOk result (scope.new ≡ scope.old) }
{
    match tree {
        Expr::True(_) | Expr::False(_) => Ok(()),
        Expr::Name(name, _, args) => {
            let meaning = known.meaning(scope, *name);
            occurs(out, meaning, name.from)?;
            match meaning {
                Meaning::Symbol(number) => {
                    let sorts = known.symbol(number).args.as_slice();
                    uses_of_arguments(known, out, sorts, scope, args.as_slice())
                }
                Meaning::Variable(_, _) | Meaning::Unknown => Ok(()),
            }
        }
        Expr::New(_, x) | Expr::Not(_, x) => uses(known, out, scope, x.get()),
        Expr::Distinct(_, terms) => {
            equated_pairs(known, out, scope, terms.as_slice())?;
            uses_of_each(known, out, scope, terms.as_slice())
        }
        Expr::And(_, members) | Expr::Or(_, members) => {
            uses_of_each(known, out, scope, members.as_slice())
        }
        Expr::Implies(_, x, y) | Expr::Iff(_, x, y) => {
            uses(known, out, scope, x.get())?;
            uses(known, out, scope, y.get())
        }
        Expr::Equal(_, x, y) | Expr::Unequal(_, x, y) => {
            let left = side_at(known, scope, x.get());
            equated(out, left, side_at(known, scope, y.get()))?;
            uses(known, out, scope, x.get())?;
            uses(known, out, scope, y.get())
        }
        Expr::All(_, bounds, x) | Expr::Ex(_, bounds, x) => {
            bound_uses(known, out, bounds.as_slice())?;
            let level = scope.len();
            enter(known, scope, bounds.as_slice())?;
            uses(known, out, scope, x.get())?;
            scope.leave(level);
            Ok(())
        }
        Expr::If(_, x, y, z) => {
            uses(known, out, scope, x.get())?;
            uses(known, out, scope, y.get())?;
            uses(known, out, scope, z.get())
        }
    }
}

#[cycle(telling)]
#[tactic(auto, using(crate::proofs::Appends::append_again, crate::proofs::Appends::append_none, crate::proofs::Appends::no_places))]
fn uses_of_each<'a>(
    known: &Known<'a>,
    out: &mut Vec<Use>,
    scope: &mut Scope<'a>,
    trees: &[Expr],
) -> Result<(), AllocError>
    ensures uses { OnOk result (out.new.items ≡ out.old.items ++ each_uses known.now.names known.now.sig (views known.now.bytes trees.now) scope.old) }
    ensures scope { OnOk result (scope.new ≡ scope.old) }
{
    'each: for tree in trees {
        uses(known, out, scope, tree)?;
    }
    Ok(())
}

#[cycle(telling)]
#[tactic(auto, using(crate::proofs::Appends::append_again, crate::proofs::Appends::append_none, crate::proofs::Appends::no_places))]
fn uses_of_arguments<'a>(
    known: &Known<'a>,
    out: &mut Vec<Use>,
    sorts: &[u32],
    scope: &mut Scope<'a>,
    args: &[Expr],
) -> Result<(), AllocError>
    ensures uses { OnOk result (out.new.items ≡ out.old.items ++ argument_uses known.now.names known.now.sig (views known.now.bytes args.now) sorts.now scope.old) }
    ensures scope { OnOk result (scope.new ≡ scope.old) }
{
    'each: for (k, arg) in args.iter().enumerate() {
        if k >= sorts.len() {
            return Ok(());
        }
        stands(out, side_at(known, scope, arg), sorts[k])?;
        uses(known, out, scope, arg)?;
    }
    Ok(())
}
