//! What the declarations of a model declare, and the first fault among them.

ghost use Rattle.std.specs.Prelude.{◌≡◌, ◌↔◌, ◌++◌, ℕ, List, [], ◌∷◌, length, map, nat_lt, None, Some, IsTrue, IfOk, OnOk};
ghost use Rattle.pyv_meaning.specs.declared.fault.SortFault.TheVariants.{TooMany};
ghost use Rattle.pyv_meaning.specs.Declaring.{words, symbol_names, names_in, sig_in, fresh_fault, past, item_fault, declared_fault};
ghost use Rattle.pyv_meaning.specs.Items.{Item, Sort as SortItem, Transition as TransitionItem, items_of, item_of, sorts as sorts_of, symbols as symbols_of, transitions as transitions_of};
ghost use Rattle.pyv_meaning.specs.NameFaults.{◌then◌, unless, is_declared};
ghost use Rattle.pyv_meaning.specs.Scope.{number as number_of};
ghost use Rattle.pyv_meaning.specs.Tree.{Name, Tree, bound_names};
ghost use Rattle.pyv_meaning.specs.View.{word as word_of, name_of, names_of, binders_of};
ghost use Rattle.pyv_sorts.specs.Noting.{gathered, unknown_in, number_in, symbol_by, IsNoted, Knows, relation_item, function_item};
ghost use Rattle.pyv_sorts.specs.Tells.{Tells};

use crate::known::{Known, word};
use crate::words::Words;
use fo_core::{Seq, Symbol, is_name};
use pv_base::Span;
use pyv_grammar::{Bound, Decl};
use pyv_meaning::SortFault;
use std::alloc::{AllocError, Global};

const MOST_SORTS: usize = 64;

const MOST_SYMBOLS: usize = 256;

const MOST_STEPS: usize = 256;

const MOST_ARGUMENTS: usize = 8;

const MOST_PARAMETERS: usize = 16;

/// What has been declared so far.
#[derive(Drop)]
struct Declared<'a> {
    sorts: Words<'a>,
    names: Words<'a>,
    symbols: Seq<Symbol>,
    steps: Words<'a>,
}

/// The names of all sorts that a model declares, in order of declaration.
fn sort_names<'a>(alloc: Global, bytes: &'a [u8], decls: &[Decl]) -> Result<Words<'a>, AllocError>
    ensures { IfOk result (λ ws. ws ≡ gathered [] (sorts_of (items_of bytes.now decls.now))) }
{
    let mut sorts = Words::new(alloc);
    'each: for decl in decls {
        if let Decl::Sort(name) = decl {
            let _ = sorts.add(word(bytes, *name))?;
        }
    }
    Ok(sorts)
}

/// Tests that a name is a word that isn't reserved, as each name of a text is, and none of those
/// declared before.
fn fresh(known: &Words<'_>, bytes: &[u8], name: Span) -> Result<(), SortFault>
    ensures tells { (ns : List Name) → known.now ≡ words ns → Tells result (fresh_fault ns (name_of bytes.now name)) }
    ensures new { OnOk result (number_of known.now (word_of bytes.now name) ≡ None) }
{
    let word = word(bytes, name);
    if !is_name(word) {
        return Err(SortFault::UnknownName(name.from));
    }
    if known.number(word).is_some() {
        return Err(SortFault::TwiceDeclared(name.from));
    }
    Ok(())
}

/// Tests that there is room for one more name.
fn room(known: &Words<'_>, most: usize, name: Span) -> Result<(), SortFault>
    ensures { Tells result (unless (nat_lt (length known.now) most) (TooMany name.from)) }
{
    if known.len() >= most {
        return Err(SortFault::TooMany(name.from));
    }
    Ok(())
}

/// The number of the sort of this name, which has to be declared somewhere in the file.
fn sort_number(sorts: &Words<'_>, bytes: &[u8], name: Span) -> Result<u32, SortFault>
    ensures tells { Tells result (is_declared (number_of sorts.now (word_of bytes.now name)) name.from) }
    ensures is { IfOk result (λ k. k ≡ number_in sorts.now (name_of bytes.now name)) }
{
    match sorts.number(word(bytes, name)) {
        Some(sort) => Ok(sort),
        None => Err(SortFault::UnknownName(name.from)),
    }
}

/// The numbers of the sorts of these names.
fn sort_numbers(
    alloc: Global,
    sorts: &Words<'_>,
    bytes: &[u8],
    names: &[Span],
) -> Result<Seq<u32>, SortFault>
    ensures tells { Tells result (unknown_in sorts.now (names_of bytes.now names.now)) }
    ensures are { IfOk result (λ ks. ks ≡ map (number_in sorts.now) (names_of bytes.now names.now)) }
{
    let mut numbers = Seq::new(alloc);
    'each: for name in names {
        numbers.push(sort_number(sorts, bytes, *name)?)?;
    }
    Ok(numbers)
}

/// Tests that a symbol has few arguments.
fn few_arguments(names: &[Span]) -> Result<(), SortFault>
    ensures { (bytes : List ℕ) → Tells result (past 8 (names_of bytes names.now)) }
{
    if names.len() > MOST_ARGUMENTS {
        return Err(SortFault::TooMany(names[MOST_ARGUMENTS].from));
    }
    Ok(())
}

/// Tests that a transition has few parameters.
fn few_parameters(params: &[Bound]) -> Result<(), SortFault>
    ensures { (bytes : List ℕ) → Tells result (past 16 (bound_names (binders_of bytes params.now))) }
{
    if params.len() > MOST_PARAMETERS {
        return Err(SortFault::TooMany(params[MOST_PARAMETERS].name.from));
    }
    Ok(())
}

impl<'a> Declared<'a> {
    /// Declares a sort.
    fn add_sort(&mut self, bytes: &'a [u8], name: Span) -> Result<(), SortFault>
        ensures tells { (ws : List (List ℕ)) (items front : List Item) → IsNoted ws front self.old → Tells result (item_fault items front (SortItem (name_of bytes.now name))) }
        ensures noted { (ws : List (List ℕ)) (front : List Item) → IsNoted ws front self.old → OnOk result (IsNoted ws (front ++ SortItem (name_of bytes.now name) ∷ []) self.new) }
    {
        fresh(&self.sorts, bytes, name)?;
        room(&self.sorts, MOST_SORTS, name)?;
        let _ = self.sorts.add(word(bytes, name))?;
        Ok(())
    }

    /// Tests what comes before the limits and declares the name of a symbol.
    fn add_symbol(
        &mut self,
        bytes: &'a [u8],
        name: Span,
        args: &[Span],
        symbol: Symbol,
    ) -> Result<(), SortFault>
        requires { number_of self.old.names (word_of bytes.now name) ≡ None }
        ensures tells { Tells result (unless (nat_lt (length self.old.names) 256) (TooMany name.from) then past 8 (names_of bytes.now args.now)) }
        ensures names { OnOk result (self.new.names ≡ self.old.names ++ word_of bytes.now name ∷ []) }
        ensures symbols { OnOk result (self.new.symbols ≡ self.old.symbols ++ symbol ∷ []) }
        ensures sorts { OnOk result (self.new.sorts ≡ self.old.sorts) }
        ensures steps { OnOk result (self.new.steps ≡ self.old.steps) }
    {
        room(&self.names, MOST_SYMBOLS, name)?;
        few_arguments(args)?;
        let _ = self.names.add(word(bytes, name))?;
        self.symbols.push(symbol)?;
        Ok(())
    }

    /// Declares a relation.
    fn add_relation(
        &mut self,
        alloc: Global,
        sorts: &Words<'_>,
        bytes: &'a [u8],
        mutable: bool,
        name: Span,
        args: &[Span],
    ) -> Result<(), SortFault>
        ensures tells { (items front : List Item) → IsNoted sorts.now front self.old → Knows sorts.now items → Tells result (item_fault items front (relation_item bytes.now mutable name args.now)) }
        ensures noted { (front : List Item) → IsNoted sorts.now front self.old → OnOk result (IsNoted sorts.now (front ++ relation_item bytes.now mutable name args.now ∷ []) self.new) }
    {
        fresh(&self.names, bytes, name)?;
        let symbol = Symbol {
            relation: true,
            mutable,
            args: sort_numbers(alloc, sorts, bytes, args)?,
            result: 0,
        };
        self.add_symbol(bytes, name, args, symbol)
    }

    /// Declares a function, or a constant where there are no arguments.
    fn add_function(
        &mut self,
        alloc: Global,
        sorts: &Words<'_>,
        bytes: &'a [u8],
        mutable: bool,
        name: Span,
        args: &[Span],
        value: Span,
    ) -> Result<(), SortFault>
        ensures tells { (items front : List Item) → IsNoted sorts.now front self.old → Knows sorts.now items → Tells result (item_fault items front (function_item bytes.now mutable name args.now value)) }
        ensures noted { (front : List Item) → IsNoted sorts.now front self.old → OnOk result (IsNoted sorts.now (front ++ function_item bytes.now mutable name args.now value ∷ []) self.new) }
    {
        fresh(&self.names, bytes, name)?;
        let symbol = Symbol {
            relation: false,
            mutable,
            args: sort_numbers(alloc, sorts, bytes, args)?,
            result: sort_number(sorts, bytes, value)?,
        };
        self.add_symbol(bytes, name, args, symbol)
    }

    /// Declares a transition.
    fn add_step(&mut self, bytes: &'a [u8], name: Span, params: &[Bound]) -> Result<(), SortFault>
        ensures tells { (ws : List (List ℕ)) (items front : List Item) (modifies : List Name) (x : Tree) → IsNoted ws front self.old → Tells result (item_fault items front (TransitionItem (name_of bytes.now name) (binders_of bytes.now params.now) modifies x)) }
        ensures noted { (ws : List (List ℕ)) (front : List Item) (modifies : List Name) (x : Tree) → IsNoted ws front self.old → OnOk result (IsNoted ws (front ++ TransitionItem (name_of bytes.now name) (binders_of bytes.now params.now) modifies x ∷ []) self.new) }
    {
        fresh(&self.steps, bytes, name)?;
        room(&self.steps, MOST_STEPS, name)?;
        few_parameters(params)?;
        let _ = self.steps.add(word(bytes, name))?;
        Ok(())
    }

    /// Notes one declaration of a file that declares these sorts.
    fn add(
        &mut self,
        alloc: Global,
        sorts: &Words<'_>,
        bytes: &'a [u8],
        decl: &Decl,
    ) -> Result<(), SortFault>
        ensures tells { (items front : List Item) → IsNoted sorts.now front self.old → Knows sorts.now items → Tells result (item_fault items front (item_of bytes.now decl.now)) }
        ensures noted { (front : List Item) → IsNoted sorts.now front self.old → OnOk result (IsNoted sorts.now (front ++ item_of bytes.now decl.now ∷ []) self.new) }
    {
        match decl {
            Decl::Sort(name) => self.add_sort(bytes, *name),
            Decl::Relation(mutable, name, args) => {
                self.add_relation(alloc, sorts, bytes, *mutable, *name, args.as_slice())
            }
            Decl::Constant(mutable, name, value) => {
                self.add_function(alloc, sorts, bytes, *mutable, *name, &[], *value)
            }
            Decl::Function(mutable, name, args, value) => {
                let args = args.as_slice();
                self.add_function(alloc, sorts, bytes, *mutable, *name, args, *value)
            }
            Decl::Transition(name, params, _, _) => {
                self.add_step(bytes, *name, params.as_slice())
            }
            Decl::Axiom(_) | Decl::Init(_) | Decl::Safety(_) | Decl::Invariant(_) | Decl::Trace =>
                Ok(()),
        }
    }
}

impl<'a> Declared<'a> {
    /// What is noted, with the names of all sorts of the file.
    fn into_known(self, bytes: &'a [u8], sorts: Words<'a>) -> Known<'a>
        requires { length self.symbols ≡ length self.names }
        ensures bytes { result.bytes ≡ bytes.now }
        ensures names { result.names ≡ record { sorts = sorts.entry; symbols = self.entry.names; steps = self.entry.steps; definitions = [] } }
        ensures sig { result.sig ≡ record { sorts = length sorts.entry; symbols = self.entry.symbols } }
    {
        Known::new(bytes, sorts, self.names, self.symbols, self.steps)
    }

    /// Notes the declarations of a file that declares these sorts.
    fn add_all(
        &mut self,
        alloc: Global,
        sorts: &Words<'_>,
        bytes: &'a [u8],
        decls: &[Decl],
    ) -> Result<(), SortFault>
        requires none { IsNoted sorts.now [] self.old }
        requires knows { Knows sorts.now (items_of bytes.now decls.now) }
        ensures tells { Tells result (declared_fault (items_of bytes.now decls.now) [] (items_of bytes.now decls.now)) }
        ensures noted { OnOk result (IsNoted sorts.now (items_of bytes.now decls.now) self.new) }
    {
        'each: for decl in decls {
            self.add(alloc, sorts, bytes, decl)?;
        }
        Ok(())
    }
}

/// What is noted of the declarations of a file that declares these sorts, or their first fault.
fn noted<'a>(
    alloc: Global,
    sorts: &Words<'_>,
    bytes: &'a [u8],
    decls: &[Decl],
) -> Result<Declared<'a>, SortFault>
    requires { Knows sorts.now (items_of bytes.now decls.now) }
    ensures tells { Tells result (declared_fault (items_of bytes.now decls.now) [] (items_of bytes.now decls.now)) }
    ensures noted { IfOk result (λ d. IsNoted sorts.now (items_of bytes.now decls.now) d) }
{
    let mut noted = Declared {
        sorts: Words::new(alloc),
        names: Words::new(alloc),
        symbols: Seq::new(alloc),
        steps: Words::new(alloc),
    };
    noted.add_all(alloc, sorts, bytes, decls)?;
    Ok(noted)
}

/// What a model declares, or the first fault of its declarations.
pub fn known_of<'a>(alloc: Global, bytes: &'a [u8], decls: &[Decl]) -> Result<Known<'a>, SortFault>
    ensures tells { Tells result (declared_fault (items_of bytes.now decls.now) [] (items_of bytes.now decls.now)) }
    ensures bytes { IfOk result (λ k. k.bytes ≡ bytes.now) }
    ensures names { IfOk result (λ k. k.names ≡ names_in (items_of bytes.now decls.now)) }
    ensures sig { IfOk result (λ k. k.sig ≡ sig_in (items_of bytes.now decls.now)) }
{
    let sorts = sort_names(alloc, bytes, decls)?;
    let noted = noted(alloc, &sorts, bytes, decls)?;
    Ok(noted.into_known(bytes, sorts))
}
