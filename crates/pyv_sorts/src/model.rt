ghost use Rattle.std.specs.Prelude.{◌≡◌, ◌<◌, ◌≤◌, ◌^◌, ◌++◌, ℕ, List, [], ◌∷◌, length, map, true, IfOk, IfErr, OnOk, IsUtf8};
ghost use Rattle.std.specs.List.{AllByRecursion};
ghost use Rattle.fo_core.specs.declared.names.Names.{Names};
ghost use Rattle.fo_core.specs.declared.system.System.{System};
ghost use Rattle.fo_core.specs.Named.{NamesFit};
ghost use Rattle.fo_core.specs.Sorted.{IsSystem, IsWithinDepth};
ghost use Rattle.pyv_meaning.specs.Bodies.{IsSound, ClaimMeans, StepMeans, mutable_fault, modifies_fault, params_fault, modified as modified_of};
ghost use Rattle.pyv_meaning.specs.Front.{Done};
ghost use Rattle.pyv_meaning.specs.Items.{Item, claim_body, item_of, items_of, bodies as bodies_of};
ghost use Rattle.pyv_meaning.specs.Meaning.{MeansSystem, IsSortFault};
ghost use Rattle.pyv_meaning.specs.Scope.{number as number_of, or_zero};
ghost use Rattle.pyv_meaning.specs.View.{word as word_of, names_of, binders_of, view};
ghost use Rattle.pyv_sorts.specs.Elaborating.{body_of, IsFaultOfBody, IsFaultOfItem, IsFaultOfBodies, HaveFew};
ghost use Rattle.pyv_sorts.specs.Answers.{IsUnlessMemory};
ghost use Rattle.pyv_sorts.specs.Tells.{Tells};

use crate::body::{Body, elaborate_body};
use crate::declare::known_of;
use crate::known::Known;
use crate::names::sort_stands;
use fo_core::{Formula, Names, Seq, Step, System, Text};
use pv_base::Span;
use pyv_grammar::{Bound, Decl, Expr, Model};
use pyv_meaning::SortFault;
use std::alloc::{AllocError, Global};

/// The system that a model means, and the names of its sorts, symbols and transitions.
#[derive(Debug, Drop)]
pub struct Elaborated {
    pub sys: System,
    pub names: Names,
}

/// The formulas and transitions of a system.
#[derive(Drop)]
struct Parts {
    axioms: Seq<Formula>,
    inits: Seq<Formula>,
    steps: Seq<Step>,
    safeties: Seq<Formula>,
    invariants: Seq<Formula>,
}

/// The number of the mutable symbol of this name.
fn mutable_symbol(known: &Known<'_>, name: Span) -> Result<u32, SortFault>
    ensures tells { Tells result (mutable_fault known.now.names known.now.sig (number_of known.now.names.symbols (word_of known.now.bytes name)) name.from) }
    ensures is { IfOk result (λ k. k ≡ or_zero (number_of known.now.names.symbols (word_of known.now.bytes name))) }
{
    match known.symbol_number(name) {
        Some(number) => {
            if known.symbol(number).mutable {
                return Ok(number);
            }
            Err(SortFault::NotMutable(name.from))
        }
        None => Err(SortFault::NotMutable(name.from)),
    }
}

/// The symbols that a transition may modify, or the first name that is no mutable symbol's.
fn modified(alloc: Global, known: &Known<'_>, names: &[Span]) -> Result<Seq<u32>, SortFault>
    ensures tells { Tells result (modifies_fault known.now.names known.now.sig (names_of known.now.bytes names.now)) }
    ensures are { IfOk result (λ ks. ks ≡ modified_of known.now.names known.now.sig (names_of known.now.bytes names.now)) }
{
    let mut symbols = Seq::new(alloc);
    'each: for name in names {
        symbols.push(mutable_symbol(known, *name)?)?;
    }
    Ok(symbols)
}

/// Tests the sorts that are told of parameters.
fn parameters_stand(known: &Known<'_>, params: &[Bound]) -> Result<(), SortFault>
    ensures { Tells result (params_fault known.now.names known.now.sig (binders_of known.now.bytes params.now)) }
{
    'each: for param in params {
        sort_stands(known, param.sort)?;
    }
    Ok(())
}

/// What a transition means, or its first fault.
fn step(
    alloc: Global,
    known: &Known<'_>,
    params: &[Bound],
    modifies: &[Span],
    tree: &Expr,
) -> Result<Step, SortFault>
    requires few { length params.now ≤ 16 }
    ensures sound { OnOk result (IsSound known.now.names known.now.sig (body_of known.now true params.now (names_of known.now.bytes modifies.now) tree.now)) }
    ensures means { IfOk result (StepMeans known.now.names known.now.sig (body_of known.now true params.now (names_of known.now.bytes modifies.now) tree.now)) }
    ensures fault { IfErr result (IsFaultOfBody known.now (body_of known.now true params.now (names_of known.now.bytes modifies.now) tree.now)) }
{
    parameters_stand(known, params)?;
    let modifies = modified(alloc, known, modifies)?;
    let Body { params, formula } = elaborate_body(alloc, known, true, params, tree)?;
    Ok(Step {
        modifies,
        params,
        body: formula,
    })
}

/// What an expression outside transitions means, or its first fault.
fn sentence(alloc: Global, known: &Known<'_>, tree: &Expr) -> Result<Formula, SortFault>
    ensures sound { OnOk result (IsSound known.now.names known.now.sig (claim_body (view known.now.bytes tree.now))) }
    ensures means { IfOk result (ClaimMeans known.now.names known.now.sig (claim_body (view known.now.bytes tree.now))) }
    ensures fault { IfErr result (IsFaultOfBody known.now (claim_body (view known.now.bytes tree.now))) }
{
    Ok(elaborate_body(alloc, known, false, &[], tree)?.formula)
}

impl Parts {
    /// Adds what a declaration means.
    fn add(&mut self, alloc: Global, known: &Known<'_>, decl: &Decl) -> Result<(), SortFault>
        requires few { HaveFew (item_of known.now.bytes decl.now ∷ []) }
        ensures done { (front : List Item) → Done known.now.names known.now.sig front self.old.axioms self.old.inits self.old.steps self.old.safeties self.old.invariants → OnOk result (Done known.now.names known.now.sig (front ++ item_of known.now.bytes decl.now ∷ []) self.new.axioms self.new.inits self.new.steps self.new.safeties self.new.invariants) }
        ensures fault { IfErr result (IsFaultOfItem known.now (item_of known.now.bytes decl.now)) }
    {
        match decl {
            Decl::Axiom(tree) => {
                let formula = sentence(alloc, known, tree)?;
                self.axioms.push(formula)?;
                Ok(())
            }
            Decl::Init(tree) => {
                let formula = sentence(alloc, known, tree)?;
                self.inits.push(formula)?;
                Ok(())
            }
            Decl::Safety(tree) => {
                let formula = sentence(alloc, known, tree)?;
                self.safeties.push(formula)?;
                Ok(())
            }
            Decl::Invariant(tree) => {
                let formula = sentence(alloc, known, tree)?;
                self.invariants.push(formula)?;
                Ok(())
            }
            Decl::Transition(_, params, modifies, tree) => {
                let step = step(alloc, known, params.as_slice(), modifies.as_slice(), tree)?;
                self.steps.push(step)?;
                Ok(())
            }
            Decl::Sort(_)
            | Decl::Relation(_, _, _)
            | Decl::Constant(_, _, _)
            | Decl::Function(_, _, _, _)
            | Decl::Trace => Ok(()),
        }
    }

    /// Adds what the declarations mean, one after the other.
    fn add_all(&mut self, alloc: Global, known: &Known<'_>, decls: &[Decl]) -> Result<(), SortFault>
        requires few { HaveFew (items_of known.now.bytes decls.now) }
        requires none { Done known.now.names known.now.sig [] self.old.axioms self.old.inits self.old.steps self.old.safeties self.old.invariants }
        ensures done { OnOk result (Done known.now.names known.now.sig (items_of known.now.bytes decls.now) self.new.axioms self.new.inits self.new.steps self.new.safeties self.new.invariants) }
        ensures fault { IfErr result (IsFaultOfBodies known.now (bodies_of (items_of known.now.bytes decls.now))) }
    {
        'each: for decl in decls {
            self.add(alloc, known, decl)?;
        }
        Ok(())
    }

    /// Adds what the declarations mean, and answers the names that are declared.
    fn fill(&mut self, alloc: Global, known: &Known<'_>, decls: &[Decl]) -> Result<Names, SortFault>
        requires few { HaveFew (items_of known.now.bytes decls.now) }
        requires sorts { AllByRecursion IsUtf8 known.now.names.sorts }
        requires symbols { AllByRecursion IsUtf8 known.now.names.symbols }
        requires steps { AllByRecursion IsUtf8 known.now.names.steps }
        requires none { Done known.now.names known.now.sig [] self.old.axioms self.old.inits self.old.steps self.old.safeties self.old.invariants }
        ensures done { OnOk result (Done known.now.names known.now.sig (items_of known.now.bytes decls.now) self.new.axioms self.new.inits self.new.steps self.new.safeties self.new.invariants) }
        ensures names { IfOk result (λ n. n ≡ known.now.names) }
        ensures fault { IfErr result (IsFaultOfBodies known.now (bodies_of (items_of known.now.bytes decls.now))) }
    {
        self.add_all(alloc, known, decls)?;
        Ok(declared_names(alloc, known)?)
    }
}

/// The text of a word, which is ASCII.
fn text_of(alloc: Global, word: &[u8]) -> Result<Text, AllocError>
    requires { IsUtf8 word.now }
    ensures { IfOk result (λ t. t ≡ word.now) }
{
    match std::str::from_utf8(word) {
        Ok(text) => Ok(Text::from_string(String::from_str(alloc, text)?)),
        Err(_) => unreachable!(),
    }
}

/// The texts of words.
fn texts_of(alloc: Global, words: &[&[u8]]) -> Result<Seq<Text>, AllocError>
    requires { AllByRecursion IsUtf8 (map (λ w. w.now) words.now) }
    ensures { IfOk result (λ ts. ts ≡ map (λ w. w.now) words.now) }
{
    let mut texts = Seq::new(alloc);
    'each: for word in words {
        texts.push(text_of(alloc, word)?)?;
    }
    Ok(texts)
}

/// The names that are declared.
fn declared_names(alloc: Global, known: &Known<'_>) -> Result<Names, AllocError>
    requires sorts { AllByRecursion IsUtf8 known.now.names.sorts }
    requires symbols { AllByRecursion IsUtf8 known.now.names.symbols }
    requires steps { AllByRecursion IsUtf8 known.now.names.steps }
    ensures { IfOk result (λ n. n ≡ known.now.names) }
{
    let sorts = texts_of(alloc, known.sorts())?;
    let symbols = texts_of(alloc, known.symbols())?;
    let steps = texts_of(alloc, known.steps())?;
    Ok(Names {
        sorts,
        symbols,
        steps,
        definitions: Seq::new(alloc),
    })
}

/// The formulas and transitions that declarations mean, and the names that are declared, or the
/// first fault of their bodies.
fn bodies(alloc: Global, known: &Known<'_>, decls: &[Decl]) -> Result<(Parts, Names), SortFault>
    requires few { HaveFew (items_of known.now.bytes decls.now) }
    requires sorts { AllByRecursion IsUtf8 known.now.names.sorts }
    requires symbols { AllByRecursion IsUtf8 known.now.names.symbols }
    requires steps { AllByRecursion IsUtf8 known.now.names.steps }
    ensures done { IfOk result (λ r. Done known.now.names known.now.sig (items_of known.now.bytes decls.now) r.0.axioms r.0.inits r.0.steps r.0.safeties r.0.invariants) }
    ensures names { IfOk result (λ r. r.1 ≡ known.now.names) }
    ensures fault { IfErr result (IsFaultOfBodies known.now (bodies_of (items_of known.now.bytes decls.now))) }
{
    let mut parts = Parts {
        axioms: Seq::new(alloc),
        inits: Seq::new(alloc),
        steps: Seq::new(alloc),
        safeties: Seq::new(alloc),
        invariants: Seq::new(alloc),
    };
    let names = parts.fill(alloc, known, decls)?;
    Ok((parts, names))
}

/// The system that a model means, with its names, or the first fault.
///
/// Names are bytes of the text. Sorts, symbols and transitions are three spaces of names, each
/// numbered in order of declaration, and declarations may stand in any order. The faults are looked
/// for in this order: those of the declarations of sorts, symbols and transitions, in file order;
/// then, for each body in file order, those of its names from left to right, of its variables in
/// the order in which they are bound, and of its applications from left to right. A declared name
/// that is no word or is reserved, which no text spells, is an unknown name.
pub fn elaborate(alloc: Global, bytes: &[u8], m: &Model) -> Result<Elaborated, SortFault>
    // What is answered is meant.
    ensures found { IfOk result (λ e. MeansSystem bytes.now m.now e.sys e.names) }
    // What is meant is answered, unless memory runs out.
    ensures only { (sys : System) (names : Names) → MeansSystem bytes.now m.now sys names → IsUnlessMemory result sys names }
    // A fault is the first one.
    ensures fault { IfErr result (IsSortFault bytes.now m.now) }
    // The system is well-sorted, where there are fewer than 2^32 declarations.
    ensures sorted { length m.now.decls < 2 ^ 32 → IfOk result (λ e. IsSystem e.sys) }
    // At most 64 binders stand above any place.
    ensures depth { IfOk result (λ e. IsWithinDepth 64 e.sys) }
    // There are names for its sorts, symbols and transitions.
    ensures names { IfOk result (λ e. NamesFit e.sys.sig (length e.sys.steps) e.names) }
{
    let decls = m.decls.as_slice();
    let known = known_of(alloc, bytes, decls)?;
    let (parts, names) = bodies(alloc, &known, decls)?;
    Ok(Elaborated {
        sys: System {
            sig: known.into_sig(),
            axioms: parts.axioms,
            inits: parts.inits,
            steps: parts.steps,
            safeties: parts.safeties,
            invariants: parts.invariants,
        },
        names,
    })
}
