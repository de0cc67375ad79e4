//! The free variables of a body and of its parts.

ghost use Rattle.std.specs.Prelude.{◌≡◌, ◌++◌, ◌<◌, ◌∷◌, [], ℕ, Bool, true, length, map, IfOk, OnOk, IsSorted};
ghost use Rattle.std.specs.Ordering.{nat_cmp};
ghost use Rattle.std.specs.List.{filter};
ghost use Rattle.pyv_meaning.specs.Closing.{if_free as if_free_of, frees as frees_of, each_free, firsts as firsts_of};
ghost use Rattle.pyv_meaning.specs.Declaring.{words as words_of};
ghost use Rattle.pyv_meaning.specs.Scope.{resolve};
ghost use Rattle.pyv_meaning.specs.Tree.{Name, bound_names};
ghost use Rattle.pyv_meaning.specs.View.{binders_of, view, views};
ghost use Rattle.pyv_sorts.specs.Closures.{each_frees, part_names, joined, named_of, closures_of, numbers_of, has, AreNumbered, Picks};
ghost use Rattle.pyv_sorts.specs.Placing.{name_in, names_in};

use crate::known::{Known, is_capital};
use crate::part::Part;
use crate::placed::Placed;
use crate::scope::Scope;
use crate::words::Words;
use pyv_grammar::{Bound, Expr};
use pyv_meaning::Meaning;
use std::alloc::{AllocError, Global};

/// Puts the variables of a quantifier, or parameters, inside those in scope.
pub fn enter<'a>(
    known: &Known<'a>,
    scope: &mut Scope<'a>,
    bounds: &[Bound],
) -> Result<(), AllocError>
    ensures { OnOk result (scope.new ≡ scope.old ++ bound_names (binders_of known.now.bytes bounds.now)) }
{
    'each: for bound in bounds {
        scope.enter(known.name(bound.name))?;
    }
    Ok(())
}

/// Appends a name where it stands for a free variable.
fn if_free<'a>(
    known: &Known<'a>,
    out: &mut Vec<Placed<'a>>,
    scope: &Scope<'a>,
    name: Placed<'a>,
) -> Result<(), AllocError>
    ensures { OnOk result (names_in out.new.items ≡ names_in out.old.items ++ if_free_of (resolve known.now.names scope.now name.entry.word.now) (name_in name.entry)) }
{
    match known.resolve(scope, name.word) {
        Meaning::Unknown => {
            if is_capital(name.word) {
                out.push(name)?;
            }
            Ok(())
        }
        Meaning::Variable(_, _) | Meaning::Symbol(_) => Ok(()),
    }
}

/// Appends the names of free variables where they stand in an expression, from left to right.
#[cycle(freeing)]
#[tactic(auto, using(crate::proofs::Appends::append_again, crate::proofs::Appends::append_none))]
fn frees<'a>(
    known: &Known<'a>,
    out: &mut Vec<Placed<'a>>,
    scope: &mut Scope<'a>,
    tree: &Expr,
) -> Result<(), AllocError>
    ensures frees { OnOk result (names_in out.new.items ≡ names_in out.old.items ++ frees_of known.now.names (view known.now.bytes tree.now) scope.old) }
    ensures scope { OnOk result (scope.new ≡ scope.old) }
{
    match tree {
        Expr::True(_) | Expr::False(_) => Ok(()),
        Expr::Name(name, _, args) => {
            if_free(known, out, scope, known.name(*name))?;
            frees_of_each(known, out, scope, args.as_slice())
        }
        Expr::New(_, x) | Expr::Not(_, x) => frees(known, out, scope, x.get()),
        Expr::Distinct(_, xs) | Expr::And(_, xs) | Expr::Or(_, xs) => {
            frees_of_each(known, out, scope, xs.as_slice())
        }
        Expr::Implies(_, x, y)
        | Expr::Iff(_, x, y)
        | Expr::Equal(_, x, y)
        | Expr::Unequal(_, x, y) => {
            frees(known, out, scope, x.get())?;
            frees(known, out, scope, y.get())
        }
        Expr::All(_, bounds, x) | Expr::Ex(_, bounds, x) => {
            let level = scope.len();
            enter(known, scope, bounds.as_slice())?;
            frees(known, out, scope, x.get())?;
            scope.leave(level);
            Ok(())
        }
        Expr::If(_, x, y, z) => {
            frees(known, out, scope, x.get())?;
            frees(known, out, scope, y.get())?;
            frees(known, out, scope, z.get())
        }
    }
}

#[cycle(freeing)]
#[tactic(auto, using(crate::proofs::Appends::append_again, crate::proofs::Appends::append_none))]
fn frees_of_each<'a>(
    known: &Known<'a>,
    out: &mut Vec<Placed<'a>>,
    scope: &mut Scope<'a>,
    trees: &[Expr],
) -> Result<(), AllocError>
    ensures frees { OnOk result (names_in out.new.items ≡ names_in out.old.items ++ each_free known.now.names (views known.now.bytes trees.now) scope.old) }
    ensures scope { OnOk result (scope.new ≡ scope.old) }
{
    'each: for tree in trees {
        frees(known, out, scope, tree)?;
    }
    Ok(())
}

/// The names of free variables where they stand in a part.
fn frees_of_part<'a>(
    alloc: Global,
    known: &Known<'a>,
    scope: &mut Scope<'a>,
    part: &Expr,
) -> Result<Part<'a>, AllocError>
    ensures frees { IfOk result (λ p. names_in p.names.items ≡ frees_of known.now.names (view known.now.bytes part.now) scope.old) }
    ensures scope { OnOk result (scope.new ≡ scope.old) }
{
    let mut names = Vec::new(alloc);
    frees(known, &mut names, scope, part)?;
    Ok(Part { names })
}

/// The names of free variables where they stand in each of the parts.
fn frees_of_parts<'a>(
    alloc: Global,
    known: &Known<'a>,
    scope: &mut Scope<'a>,
    parts: &[Expr],
) -> Result<Vec<Part<'a>>, AllocError>
    ensures frees { IfOk result (λ ps. part_names ps.items ≡ each_frees known.now.names scope.old (views known.now.bytes parts.now)) }
    ensures scope { OnOk result (scope.new ≡ scope.old) }
{
    let mut found = Vec::new(alloc);
    'each: for part in parts {
        found.push(frees_of_part(alloc, known, scope, part)?)?;
    }
    Ok(found)
}

/// Notes a name, where no name before has its word.
fn note<'a>(
    words: &mut Words<'a>,
    firsts: &mut Vec<Placed<'a>>,
    name: Placed<'a>,
) -> Result<(), AllocError>
    requires { words_of (names_in firsts.old.items) ≡ words.old }
    ensures firsts { OnOk result (names_in firsts.new.items ≡ firsts_of (names_in firsts.old.items) (name_in name.entry ∷ [])) }
    ensures words { OnOk result (words_of (names_in firsts.new.items) ≡ words.new) }
{
    match words.number(name.word) {
        None => {
            firsts.push(name)?;
            let _ = words.add(name.word)?;
            Ok(())
        }
        Some(_) => Ok(()),
    }
}

/// Notes names, each where no name before has its word.
fn note_each<'a>(
    words: &mut Words<'a>,
    firsts: &mut Vec<Placed<'a>>,
    names: &[Placed<'a>],
) -> Result<(), AllocError>
    requires { words_of (names_in firsts.old.items) ≡ words.old }
    ensures firsts { OnOk result (names_in firsts.new.items ≡ firsts_of (names_in firsts.old.items) (names_in names.now)) }
    ensures words { OnOk result (words_of (names_in firsts.new.items) ≡ words.new) }
{
    'each: for name in names {
        note(words, firsts, *name)?;
    }
    Ok(())
}

/// Notes the names of all parts, each where no name before has its word.
fn note_parts<'a>(
    words: &mut Words<'a>,
    firsts: &mut Vec<Placed<'a>>,
    parts: &[Part<'a>],
) -> Result<(), AllocError>
    requires { words_of (names_in firsts.old.items) ≡ words.old }
    ensures firsts { OnOk result (names_in firsts.new.items ≡ firsts_of (names_in firsts.old.items) (joined (part_names parts.now))) }
    ensures words { OnOk result (words_of (names_in firsts.new.items) ≡ words.new) }
{
    'each: for part in parts {
        note_each(words, firsts, part.names.as_slice())?;
    }
    Ok(())
}

/// The numbers of the names among the words.
fn numbers(alloc: Global, words: &Words<'_>, names: &[Placed<'_>]) -> Result<Vec<u32>, AllocError>
    ensures { IfOk result (λ ks. ks.items ≡ numbers_of words.now (names_in names.now)) }
{
    let mut found = Vec::new(alloc);
    'each: for name in names {
        if let Some(number) = words.number(name.word) {
            found.push(number)?;
        }
    }
    Ok(found)
}

/// The variables that have these numbers, which rise and may repeat.
fn picked<'a>(
    alloc: Global,
    variables: &[Placed<'a>],
    numbers: &[u32],
) -> Result<Vec<Placed<'a>>, AllocError>
    requires sorted { IsSorted nat_cmp numbers.now }
    requires within { (k : ℕ) → has numbers.now k ≡ true → k < length variables.now }
    ensures { (P : Name → Bool) → Picks P (names_in variables.now) numbers.now → IfOk result (λ v. names_in v.items ≡ filter P (names_in variables.now)) }
{
    let mut found = Vec::new(alloc);
    let mut next: usize = 0;
    'each: for number in numbers {
        let at = *number as usize;
        if at >= next {
            found.push(variables[at])?;
            next = at + 1;
        }
    }
    Ok(found)
}

/// The variables that a part names, in their order.
fn closure<'a>(
    alloc: Global,
    words: &Words<'a>,
    variables: &[Placed<'a>],
    names: &[Placed<'a>],
) -> Result<Part<'a>, AllocError>
    requires words { words_of (names_in variables.now) ≡ words.now }
    requires distinct { AreNumbered words.now }
    ensures { IfOk result (λ p. names_in p.names.items ≡ named_of (names_in variables.now) (names_in names.now)) }
{
    let mut numbers = numbers(alloc, words, names)?;
    numbers.sort()?;
    let names = picked(alloc, variables, numbers.as_slice())?;
    Ok(Part { names })
}

/// For each part, the variables that it names, in their order.
fn closures_over<'a>(
    alloc: Global,
    words: &Words<'a>,
    variables: &[Placed<'a>],
    parts: &[Part<'a>],
) -> Result<Vec<Part<'a>>, AllocError>
    requires words { words_of (names_in variables.now) ≡ words.now }
    requires distinct { AreNumbered words.now }
    ensures { IfOk result (λ ps. part_names ps.items ≡ map (named_of (names_in variables.now)) (part_names parts.now)) }
{
    let mut closures = Vec::new(alloc);
    'each: for part in parts {
        closures.push(closure(alloc, words, variables, part.names.as_slice())?)?;
    }
    Ok(closures)
}

/// For each part, the free variables of all parts that the part names, each by its first occurrence
/// in the parts and in the order of these.
fn closures_of_frees<'a>(alloc: Global, parts: &[Part<'a>]) -> Result<Vec<Part<'a>>, AllocError>
    ensures { IfOk result (λ ps. part_names ps.items ≡ closures_of (part_names parts.now)) }
{
    let mut words = Words::new(alloc);
    let mut firsts = Vec::new(alloc);
    note_parts(&mut words, &mut firsts, parts)?;
    closures_over(alloc, &words, firsts.as_slice(), parts)
}

/// For each part of a body, the free variables of the body that the part names, each by its first
/// occurrence in the body and in the order of these. The scope has the parameters.
pub fn closures<'a>(
    alloc: Global,
    known: &Known<'a>,
    scope: &mut Scope<'a>,
    parts: &[Expr],
) -> Result<Vec<Part<'a>>, AllocError>
    ensures closures { IfOk result (λ ps. part_names ps.items ≡ closures_of (each_frees known.now.names scope.old (views known.now.bytes parts.now))) }
    ensures scope { OnOk result (scope.new ≡ scope.old) }
{
    let found = frees_of_parts(alloc, known, scope, parts)?;
    closures_of_frees(alloc, found.as_slice())
}
