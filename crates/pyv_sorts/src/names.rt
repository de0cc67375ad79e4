//! Names, arities and kinds, from left to right.

ghost use Rattle.std.specs.Prelude.{◌≡◌, ◌++◌, not, nat_lt, length, OnOk};
ghost use Rattle.pyv_meaning.specs.NameFaults.{◌then◌, unless, formula_at as formula_at_of, term_at as term_at_of, inside_new as inside_new_of, is_formula, is_kind, new_fault, sort_fault, binder_faults, name_fault, fault, faults, distinct_faults};
ghost use Rattle.pyv_meaning.specs.Scope.{resolve};
ghost use Rattle.pyv_meaning.specs.Tree.{bound_names, count};
ghost use Rattle.pyv_meaning.specs.View.{sort_name, binders_of, view, views, word};
ghost use Rattle.pyv_meaning.specs.declared.fault.SortFault.TheVariants.{TooMany};
ghost use Rattle.pyv_sorts.specs.Tells.{Tells};
ghost use Rattle.pyv_sorts.specs.Vocabulary.{InRange};

use crate::known::Known;
use crate::scope::{MOST_BINDERS, Scope};
use pv_base::Span;
use pyv_grammar::{Bound, Expr};
use pyv_meaning::{Meaning, SortFault, Stand};

const MOST_TERMS: usize = 16;

/// A formula is asked in the same place.
fn formula_at(stand: Stand) -> Stand
    ensures { result ≡ formula_at_of stand }
{
    Stand {
        formula: true,
        over: false,
        ..stand
    }
}

/// A term is asked in the same place, past the limit of a `distinct` or not.
fn term_at(stand: Stand, over: bool) -> Stand
    ensures { result ≡ term_at_of stand over }
{
    Stand {
        formula: false,
        over,
        ..stand
    }
}

/// What is asked of `new` is asked of what it holds.
fn inside_new(stand: Stand) -> Stand
    ensures { result ≡ inside_new_of stand }
{
    Stand {
        ahead: true,
        over: false,
        ..stand
    }
}

/// Tests that a formula may stand here.
fn formula_stands(stand: Stand, place: u32) -> Result<(), SortFault>
    ensures { Tells result (is_formula stand place) }
{
    if stand.formula {
        Ok(())
    } else {
        Err(SortFault::NotATerm(place))
    }
}

/// Tests that a formula stands where one is asked, and a term where one is asked.
fn kind_stands(stand: Stand, relation: bool, place: u32) -> Result<(), SortFault>
    ensures { Tells result (is_kind stand.formula relation place) }
{
    if stand.formula && !relation {
        return Err(SortFault::NotAFormula(place));
    }
    if relation && !stand.formula {
        return Err(SortFault::NotATerm(place));
    }
    Ok(())
}

/// Tests that there aren't too many terms.
fn few_terms(stand: Stand, place: u32) -> Result<(), SortFault>
    ensures { Tells result (unless (not stand.over) (TooMany place)) }
{
    if stand.over {
        return Err(SortFault::TooMany(place));
    }
    Ok(())
}

/// Tests that `new` may stand here.
fn new_stands(stand: Stand, place: u32) -> Result<(), SortFault>
    ensures { Tells result (new_fault stand place) }
{
    if !stand.step {
        return Err(SortFault::NewOutsideStep(place));
    }
    if stand.ahead {
        return Err(SortFault::NewTwice(place));
    }
    few_terms(stand, place)
}

/// Tests a name with so many arguments by what it stands for.
fn meaning_stands(
    known: &Known<'_>,
    stand: Stand,
    meaning: Meaning,
    place: u32,
    brackets: bool,
    count: usize,
) -> Result<(), SortFault>
    requires { InRange known.now meaning }
    ensures { Tells result (name_fault known.now.names known.now.sig stand meaning place brackets count) }
{
    match meaning {
        Meaning::Unknown => Err(SortFault::UnknownName(place)),
        Meaning::Variable(_, level) => {
            kind_stands(stand, false, place)?;
            if brackets || count != 0 {
                return Err(SortFault::WrongArity(place));
            }
            if level as usize >= MOST_BINDERS {
                return Err(SortFault::TooMany(place));
            }
            few_terms(stand, place)
        }
        Meaning::Symbol(number) => {
            let symbol = known.symbol(number);
            kind_stands(stand, symbol.relation, place)?;
            if count != symbol.args.len() {
                return Err(SortFault::WrongArity(place));
            }
            few_terms(stand, place)
        }
    }
}

/// Tests a variable or an application, but for what its arguments hold.
fn name_stands(
    known: &Known<'_>,
    stand: Stand,
    scope: &Scope<'_>,
    name: Span,
    brackets: bool,
    args: &[Expr],
) -> Result<(), SortFault>
    ensures { Tells result (name_fault known.now.names known.now.sig stand (resolve known.now.names scope.now (word known.now.bytes name)) name.from brackets (count (views known.now.bytes args.now))) }
{
    let meaning = known.meaning(scope, name);
    meaning_stands(known, stand, meaning, name.from, brackets, args.len())
}

/// Tests the sort that is told where a variable is bound.
pub fn sort_stands(known: &Known<'_>, sort: Option<Span>) -> Result<(), SortFault>
    ensures { Tells result (sort_fault known.now.names (sort_name known.now.bytes sort)) }
{
    if let Some(name) = sort {
        if known.sort_number(name).is_none() {
            return Err(SortFault::UnknownName(name.from));
        }
    }
    Ok(())
}

/// Tests where a variable is bound, in a scope of so many variables.
fn binder_stands(known: &Known<'_>, level: usize, bound: &Bound) -> Result<(), SortFault>
    ensures { Tells result (unless (nat_lt level 64) (TooMany bound.now.name.from) then sort_fault known.now.names (sort_name known.now.bytes bound.now.sort)) }
{
    if level >= MOST_BINDERS {
        return Err(SortFault::TooMany(bound.name.from));
    }
    sort_stands(known, bound.sort)
}

/// Tests where variables are bound, and puts them inside those in scope.
fn binders_stand<'a>(
    known: &Known<'a>,
    scope: &mut Scope<'a>,
    bounds: &[Bound],
) -> Result<(), SortFault>
    ensures fault { Tells result (binder_faults known.now.names (binders_of known.now.bytes bounds.now) (length scope.old)) }
    ensures scope { OnOk result (scope.new ≡ scope.old ++ bound_names (binders_of known.now.bytes bounds.now)) }
{
    'each: for bound in bounds {
        binder_stands(known, scope.len(), bound)?;
        scope.enter(known.name(bound.name))?;
    }
    Ok(())
}

/// Finds the first fault of the names of an expression.
#[cycle(naming)]
pub fn names<'a>(
    known: &Known<'a>,
    stand: Stand,
    scope: &mut Scope<'a>,
    tree: &Expr,
) -> Result<(), SortFault>
    ensures fault { Tells result (fault known.now.names known.now.sig (view known.now.bytes tree.now) stand scope.old) }
    ensures scope { OnOk result (scope.new ≡ scope.old) }
{
    let formula = formula_at(stand);
    match tree {
        Expr::True(place) | Expr::False(place) => formula_stands(stand, *place),
        Expr::Name(name, brackets, args) => {
            let args = args.as_slice();
            name_stands(known, stand, scope, *name, *brackets, args)?;
            names_of_each(known, term_at(stand, false), scope, args)
        }
        Expr::New(place, x) => {
            new_stands(stand, *place)?;
            names(known, inside_new(stand), scope, x.get())
        }
        Expr::Distinct(place, terms) => {
            formula_stands(stand, *place)?;
            names_of_terms(known, stand, scope, terms.as_slice())
        }
        Expr::Not(place, x) => {
            formula_stands(stand, *place)?;
            names(known, formula, scope, x.get())
        }
        Expr::And(place, members) | Expr::Or(place, members) => {
            match members.as_slice().split_first() {
                Some((first, rest)) => {
                    names(known, formula, scope, first)?;
                    formula_stands(stand, *place)?;
                    names_of_each(known, formula, scope, rest)
                }
                None => formula_stands(stand, *place),
            }
        }
        Expr::Implies(place, x, y) | Expr::Iff(place, x, y) => {
            names(known, formula, scope, x.get())?;
            formula_stands(stand, *place)?;
            names(known, formula, scope, y.get())
        }
        Expr::Equal(place, x, y) | Expr::Unequal(place, x, y) => {
            let term = term_at(stand, false);
            names(known, term, scope, x.get())?;
            formula_stands(stand, *place)?;
            names(known, term, scope, y.get())
        }
        Expr::All(place, bounds, x) | Expr::Ex(place, bounds, x) => {
            formula_stands(stand, *place)?;
            let level = scope.len();
            binders_stand(known, scope, bounds.as_slice())?;
            names(known, formula, scope, x.get())?;
            scope.leave(level);
            Ok(())
        }
        Expr::If(place, x, y, z) => {
            formula_stands(stand, *place)?;
            names(known, formula, scope, x.get())?;
            names(known, formula, scope, y.get())?;
            names(known, formula, scope, z.get())
        }
    }
}

#[cycle(naming)]
fn names_of_each<'a>(
    known: &Known<'a>,
    stand: Stand,
    scope: &mut Scope<'a>,
    trees: &[Expr],
) -> Result<(), SortFault>
    ensures fault { Tells result (faults known.now.names known.now.sig (views known.now.bytes trees.now) stand scope.old) }
    ensures scope { OnOk result (scope.new ≡ scope.old) }
{
    'each: for tree in trees {
        names(known, stand, scope, tree)?;
    }
    Ok(())
}

/// Finds the first fault of the names of the terms of a `distinct`.
#[cycle(naming)]
fn names_of_terms<'a>(
    known: &Known<'a>,
    stand: Stand,
    scope: &mut Scope<'a>,
    terms: &[Expr],
) -> Result<(), SortFault>
    ensures fault { Tells result (distinct_faults known.now.names known.now.sig (views known.now.bytes terms.now) stand 0 scope.old) }
    ensures scope { OnOk result (scope.new ≡ scope.old) }
{
    'each: for (before, term) in terms.iter().enumerate() {
        names(known, term_at(stand, before >= MOST_TERMS), scope, term)?;
    }
    Ok(())
}
