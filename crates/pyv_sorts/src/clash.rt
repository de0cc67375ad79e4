//! Applications and variables of another sort than their place, from left to right, in a body whose
//! names are in order.

ghost use Rattle.std.specs.Prelude.{◌≡◌, OnOk};
ghost use Rattle.pyv_meaning.specs.Clashes.{suits, meaning_sort, term_sort as term_sort_of, clash as clash_of, each_clash, argument_clash};
ghost use Rattle.pyv_meaning.specs.NameFaults.{unless};
ghost use Rattle.pyv_meaning.specs.Scope.{resolve};
ghost use Rattle.pyv_meaning.specs.Uses.{places};
ghost use Rattle.pyv_meaning.specs.View.{view, views, word};
ghost use Rattle.pyv_meaning.specs.declared.fault.SortFault.TheVariants.{SortClash};
ghost use Rattle.pyv_sorts.specs.Inferring.{sort_in};
ghost use Rattle.pyv_sorts.specs.Tells.{Tells};
ghost use Rattle.pyv_sorts.specs.Vocabulary.{InRange};

use crate::free::enter;
use crate::known::Known;
use crate::scope::Scope;
use indexmap::IndexMap;
use pv_base::Span;
use pyv_grammar::Expr;
use pyv_meaning::{Meaning, SortFault};

/// The sort that was found for a variable.
pub fn sort_of(sorts: &IndexMap<u32, u32>, variable: u32) -> u32
    ensures { result ≡ sort_in sorts.now variable }
{
    match sorts.get(&variable) {
        Some(sort) => *sort,
        None => 0,
    }
}

/// The sort of what a name stands for.
fn sort_of_meaning(known: &Known<'_>, sorts: &IndexMap<u32, u32>, meaning: Meaning) -> u32
    requires { InRange known.now meaning }
    ensures { result ≡ meaning_sort known.now.names known.now.sig (sort_in sorts.now) meaning }
{
    match meaning {
        Meaning::Variable(binder, _) => sort_of(sorts, binder),
        Meaning::Symbol(number) => known.symbol(number).result,
        Meaning::Unknown => 0,
    }
}

/// The sort of a term.
fn term_sort(known: &Known<'_>, sorts: &IndexMap<u32, u32>, scope: &Scope<'_>, tree: &Expr) -> u32
    ensures { result ≡ term_sort_of known.now.names known.now.sig (sort_in sorts.now) (view known.now.bytes tree.now) scope.now }
{
    match tree {
        Expr::Name(name, _, _) => sort_of_meaning(known, sorts, known.meaning(scope, *name)),
        Expr::New(_, x) => term_sort(known, sorts, scope, x.get()),
        _ => 0,
    }
}

/// Tests that a name has the sort that is asked, if one is.
fn name_suits(
    known: &Known<'_>,
    sorts: &IndexMap<u32, u32>,
    want: Option<u32>,
    scope: &Scope<'_>,
    name: Span,
) -> Result<(), SortFault>
    ensures { Tells result (unless (suits want (meaning_sort known.now.names known.now.sig (sort_in sorts.now) (resolve known.now.names scope.now (word known.now.bytes name)))) (SortClash name.from)) }
{
    if let Some(asked) = want {
        if asked != sort_of_meaning(known, sorts, known.meaning(scope, name)) {
            return Err(SortFault::SortClash(name.from));
        }
    }
    Ok(())
}

/// Finds the first clash of an expression, of which a sort is asked or none.
#[cycle(clashing)]
pub fn clash<'a>(
    known: &Known<'a>,
    sorts: &IndexMap<u32, u32>,
    want: Option<u32>,
    scope: &mut Scope<'a>,
    tree: &Expr,
) -> Result<(), SortFault>
    ensures clash { Tells result (clash_of known.now.names known.now.sig (sort_in sorts.now) (view known.now.bytes tree.now) want scope.old) }
    ensures scope { OnOk result (scope.new ≡ scope.old) }
{
    match tree {
        Expr::True(_) | Expr::False(_) => Ok(()),
        Expr::Name(name, _, args) => {
            name_suits(known, sorts, want, scope, *name)?;
            clash_of_arguments(
                known,
                sorts,
                known.meaning(scope, *name),
                scope,
                args.as_slice(),
            )
        }
        Expr::New(_, x) => clash(known, sorts, want, scope, x.get()),
        Expr::Distinct(_, terms) => match terms.as_slice().split_first() {
            Some((first, rest)) => {
                let sort = term_sort(known, sorts, scope, first);
                clash(known, sorts, None, scope, first)?;
                clash_of_each(known, sorts, Some(sort), scope, rest)
            }
            None => Ok(()),
        },
        Expr::Not(_, x) => clash(known, sorts, None, scope, x.get()),
        Expr::And(_, members) | Expr::Or(_, members) => {
            clash_of_each(known, sorts, None, scope, members.as_slice())
        }
        Expr::Implies(_, x, y) | Expr::Iff(_, x, y) => {
            clash(known, sorts, None, scope, x.get())?;
            clash(known, sorts, None, scope, y.get())
        }
        Expr::Equal(_, x, y) | Expr::Unequal(_, x, y) => {
            let sort = term_sort(known, sorts, scope, x.get());
            clash(known, sorts, None, scope, x.get())?;
            clash(known, sorts, Some(sort), scope, y.get())
        }
        Expr::All(_, bounds, x) | Expr::Ex(_, bounds, x) => {
            let level = scope.len();
            enter(known, scope, bounds.as_slice())?;
            clash(known, sorts, None, scope, x.get())?;
            scope.leave(level);
            Ok(())
        }
        Expr::If(_, x, y, z) => {
            clash(known, sorts, None, scope, x.get())?;
            clash(known, sorts, None, scope, y.get())?;
            clash(known, sorts, None, scope, z.get())
        }
    }
}

#[cycle(clashing)]
fn clash_of_each<'a>(
    known: &Known<'a>,
    sorts: &IndexMap<u32, u32>,
    want: Option<u32>,
    scope: &mut Scope<'a>,
    trees: &[Expr],
) -> Result<(), SortFault>
    ensures clash { Tells result (each_clash known.now.names known.now.sig (sort_in sorts.now) (views known.now.bytes trees.now) want scope.old) }
    ensures scope { OnOk result (scope.new ≡ scope.old) }
{
    'each: for tree in trees {
        clash(known, sorts, want, scope, tree)?;
    }
    Ok(())
}

/// Finds the first clash of the arguments of what a name stands for.
#[cycle(clashing)]
fn clash_of_arguments<'a>(
    known: &Known<'a>,
    sorts: &IndexMap<u32, u32>,
    meaning: Meaning,
    scope: &mut Scope<'a>,
    args: &[Expr],
) -> Result<(), SortFault>
    requires { InRange known.now meaning }
    ensures clash { Tells result (argument_clash known.now.names known.now.sig (sort_in sorts.now) (views known.now.bytes args.now) (places known.now.names known.now.sig meaning) scope.old) }
    ensures scope { OnOk result (scope.new ≡ scope.old) }
{
    let asked = known.places(meaning);
    'each: for (k, arg) in args.iter().enumerate() {
        if k >= asked.len() {
            return Ok(());
        }
        clash(known, sorts, Some(asked[k]), scope, arg)?;
    }
    Ok(())
}
