ghost use Rattle.std.specs.Prelude.{◌≡◌, ℕ, ◌+◌, ◌-◌, ◌<◌, ◌≤◌, ◌^◌, ◌↔◌, [], ◌∷◌, ◌++◌, length, Bool, true, List, IsTrue, IsFalse, IfOk, OnOk, OnErr, Contains, replicate, vec_len, vec_capacity};
ghost use Rattle.prop_core.specs.Formula.{IsWithin, AreWithin, MeetsClause, MeetsAll, value_of};
ghost use Rattle.prop_core.specs.Answers.{HaveNoValues};
ghost use Rattle.prop_core.specs.Propagation.{Follows, IsDerivation};
ghost use Rattle.prop_check.specs.Assignment.{AreImplied, OnlyForced};
ghost use Rattle.prop_check.specs.Kept.{Kept, kept, AreMerged, added_of, IsImplied};

use crate::assignment::{assume_negated, propagate};
use crate::watches::Watches;
use fo_core::Seq;
use prop_core::{Clause, Cnf, Lit, copy_clauses};
use std::alloc::{AllocError, Global};
use std::marker::Model;

/// The clauses of a formula, which may grow, and those that were taken, each of which follows by
/// unit propagation from the given ones and those that were taken before it.
#[derive(Drop)]
pub struct Checked {
    vars: u32,
    /// The given clauses and those that were taken, in the order in which they came.
    clauses: Vec<Clause>,
    /// Whether each clause was given.
    marks: Vec<bool>,
    /// How many more clauses there is room for.
    room: usize,
    /// What the clauses alone make true, as far as the watched literals show it.
    root: Vec<Option<bool>>,
    /// What a clause's negation makes true besides.
    values: Vec<Option<bool>>,
    watches: Watches,
}

impl Model for Checked {
    ghost use Rattle.std.specs.Prelude.{vec_capacity, vec_len, ◌-◌};
    ghost use Rattle.prop_check.specs.Kept.{Kept, IsSound, HasRoom, given_of, added_of};

    ghost Value = { Kept };

    ghost view = { λ a. record { vars = a.vars; given = given_of a.marks.items a.clauses.items; added = added_of a.marks.items a.clauses.items; spare = a.room } };

    ghost invariant = { λ a. IsSound a.vars a.marks.items a.clauses.items a.root.items a.values.items × HasRoom a.room (vec_capacity a.clauses - vec_len a.clauses) (vec_capacity a.marks - vec_len a.marks) };
}

impl Checked {
    /// The clauses of `cnf`, the variables of which have to be below its `vars`.
    pub fn new(alloc: Global, cnf: &Cnf) -> Result<Checked, AllocError>
        requires { AreWithin cnf.now.vars cnf.now.clauses }
        ensures vars { IfOk result (λ k. k.vars ≡ cnf.now.vars) }
        ensures given { IfOk result (λ k. k.given ≡ cnf.now.clauses) }
        ensures added { IfOk result (λ k. k.added ≡ []) }
    {
        let clauses = copy_clauses(alloc, cnf.clauses.as_slice())?.into_vec();
        let mut root = without_values(alloc, cnf.vars)?;
        let values = without_values(alloc, cnf.vars)?;
        let watches = settled(alloc, cnf.vars, clauses.as_slice(), root.as_mut_slice())?;
        let marks = all_given(alloc, clauses.len())?;
        Ok(Checked {
            vars: cnf.vars,
            clauses,
            marks,
            room: 0,
            root,
            values,
            watches,
        })
    }

    /// Makes room for `n` more clauses. After an error, which is out of memory, nothing has
    /// changed.
    pub fn reserve(&mut self, n: usize) -> Result<(), AllocError>
        ensures ok { OnOk result (n ≤ self.new.spare) }
        ensures err { OnErr result (self.new ≡ self.old) }
        ensures more { self.old.spare ≤ self.new.spare }
        ensures same { self.new ≡ record self.old { spare = self.new.spare } }
    {
        if n <= self.room {
            return Ok(());
        }
        self.watches.reserve(n)?;
        self.clauses.reserve(n)?;
        self.marks.reserve(n)?;
        self.room = n;
        Ok(())
    }

    /// Adds `n` variables. After an error, which is out of memory, nothing has changed.
    pub fn add_vars(&mut self, n: u32) -> Result<(), AllocError>
        requires { self.old.vars + n < 2 ^ 32 }
        ensures ok { OnOk result (self.new ≡ record self.old { vars = self.old.vars + n }) }
        ensures err { OnErr result (self.new ≡ self.old) }
    {
        self.root.reserve(n as usize)?;
        self.values.reserve(n as usize)?;
        self.watches.add_vars(n)?;
        open_more(&mut self.root, n);
        open_more(&mut self.values, n);
        self.vars += n;
        Ok(())
    }

    /// Gives one more clause. What was taken stays, since it follows from more clauses too. It
    /// takes no memory, and asks for room for one clause and for variables below `vars`.
    pub fn give(&mut self, clause: Clause)
        requires room { 0 < self.old.spare }
        requires within { IsWithin self.old.vars clause }
        ensures { self.new ≡ record self.old { given = self.old.given ++ clause ∷ []; spare = self.old.spare - 1 } }
    {
        self.keep(clause, true);
    }

    /// Takes `clause` exactly where unit propagation from its negation over what is kept meets a
    /// conflict, and answers whether it did. Otherwise nothing changes. It takes no memory, and
    /// asks for room for one clause and for variables below the formula's `vars`.
    pub fn add(&mut self, clause: Clause) -> bool
        requires room { 0 < self.old.spare }
        requires within { IsWithin self.old.vars clause }
        ensures exact { IsTrue result ↔ Follows (kept self.old) clause }
        ensures taken { IsTrue result → self.new ≡ record self.old { added = self.old.added ++ clause ∷ []; spare = self.old.spare - 1 } }
        ensures refused { IsFalse result → self.new ≡ self.old }
    {
        self.add_by(clause, &[])
    }

    /// The same as `add`, which is found soonest where propagation over the clauses at these places
    /// among those that are kept, one after the other, meets the conflict.
    pub fn add_by(&mut self, clause: Clause, places: &[usize]) -> bool
        requires room { 0 < self.old.spare }
        requires within { IsWithin self.old.vars clause }
        ensures exact { IsTrue result ↔ Follows (kept self.old) clause }
        ensures taken { IsTrue result → self.new ≡ record self.old { added = self.old.added ++ clause ∷ []; spare = self.old.spare - 1 } }
        ensures refused { IsFalse result → self.new ≡ self.old }
    {
        let taken = self.follows_by(&clause, places);
        if taken {
            self.keep(clause, false);
        }
        taken
    }

    /// Whether unit propagation from the negation of `clause` over what is kept meets a conflict.
    /// Then all values that meet the given clauses meet it. Nothing changes. The clause's
    /// variables have to be below `vars`.
    pub fn follows(&mut self, clause: &Clause) -> bool
        requires { IsWithin self.old.vars clause.now }
        ensures exact { IsTrue result ↔ Follows (kept self.old) clause.now }
        ensures sound { IsTrue result → IsImplied self.old.given clause.now }
        ensures same { self.new ≡ self.old }
    {
        self.follows_by(clause, &[])
    }

    /// The same as `follows`, which is found soonest where propagation over the clauses at these
    /// places among those that are kept, one after the other, meets the conflict.
    pub fn follows_by(&mut self, clause: &Clause, places: &[usize]) -> bool
        requires { IsWithin self.old.vars clause.now }
        ensures exact { IsTrue result ↔ Follows (kept self.old) clause.now }
        ensures sound { IsTrue result → IsImplied self.old.given clause.now }
        ensures same { self.new ≡ self.old }
    {
        self.values.copy_from_slice(self.root.as_slice());
        follows(
            self.clauses.as_slice(),
            places,
            clause.as_slice(),
            self.values.as_mut_slice(),
            &mut self.watches,
        )
    }

    /// Keeps a clause that was given or that follows.
    fn keep(&mut self, clause: Clause, given: bool)
        requires room { 0 < self.old.spare }
        requires within { IsWithin self.old.vars clause }
        requires follows { IsFalse given → Follows (kept self.old) clause }
        ensures given { IsTrue given → self.new ≡ record self.old { given = self.old.given ++ clause ∷ []; spare = self.old.spare - 1 } }
        ensures added { IsFalse given → self.new ≡ record self.old { added = self.old.added ++ clause ∷ []; spare = self.old.spare - 1 } }
    {
        self.watches.watch(clause.as_slice(), self.root.as_slice());
        self.clauses.push_reserved(clause);
        self.marks.push_reserved(given);
        self.room -= 1;
        extend(
            self.clauses.as_slice(),
            self.root.as_mut_slice(),
            &mut self.watches,
        );
    }

    /// How many variables there are.
    pub fn vars(&self) -> u32
        ensures { result ≡ self.now.vars }
    {
        self.vars
    }

    /// The clauses that are kept: those that were given and those that were taken, in the order in
    /// which they came.
    pub fn clauses(&self) -> &[Clause]
        ensures merged { AreMerged self.now.given self.now.added result.now }
        ensures within { AreWithin self.now.vars result.now }
    {
        self.clauses.as_slice()
    }

    /// Whether these values meet each given clause. Each variable has to have a value.
    pub fn is_met(&self, values: &[bool]) -> bool
        requires { self.now.vars ≤ length values.now }
        ensures { IsTrue result ↔ MeetsAll (value_of values.now) self.now.given }
    {
        for (at, clause) in self.clauses.iter().enumerate() {
            if !is_met_if(self.marks[at], clause, values) {
                return false;
            }
        }
        true
    }

    /// A copy of the given clauses. The one error is out of memory.
    pub fn copy_given(&self, alloc: Global) -> Result<Seq<Clause>, AllocError>
        ensures value { IfOk result (λ s. s ≡ self.now.given) }
        ensures within { AreWithin self.now.vars self.now.given }
    {
        let mut copies = Vec::new(alloc);
        for (at, clause) in self.clauses.iter().enumerate() {
            if self.marks[at] {
                copies.push(clause.copy(alloc)?)?;
            }
        }
        Ok(Seq::from_vec(copies))
    }

    /// Whether the empty clause is kept. Then no values meet the formula.
    pub fn ended(&self) -> bool
        ensures empty { IsTrue result ↔ Contains (kept self.now) [] }
        ensures sound { IsTrue result → HaveNoValues self.now.given }
    {
        for clause in &self.clauses {
            if clause.len() == 0 {
                return true;
            }
        }
        false
    }

    /// The clauses that were taken, in order. It takes no memory.
    pub fn into_added(self) -> Seq<Clause>
        ensures value { result ≡ self.added }
        ensures within { AreWithin self.vars result }
        ensures derived { IsDerivation self.given result }
    {
        let Checked {
            vars: _,
            clauses,
            marks,
            room: _,
            root: _,
            values: _,
            watches: _,
        } = self;
        Seq::from_vec(only_added(clauses, marks.as_slice()))
    }
}

/// An assignment in which no variable has a value.
fn without_values(alloc: Global, vars: u32) -> Result<Vec<Option<bool>>, AllocError>
    ensures { IfOk result (λ v. v.items ≡ replicate vars None) }
{
    let values = vec![in alloc; None; vars as usize]?;
    Ok(values)
}

/// That many marks of given clauses.
fn all_given(alloc: Global, n: usize) -> Result<Vec<bool>, AllocError>
    ensures { IfOk result (λ v. v.items ≡ replicate n true) }
{
    let marks = vec![in alloc; true; n]?;
    Ok(marks)
}

/// Whether these values meet the clause, if it was given.
fn is_met_if(given: bool, clause: &Clause, values: &[bool]) -> bool
    requires { IsWithin (length values.now) clause.now }
    ensures { IsTrue result ↔ (IsTrue given → MeetsClause (value_of values.now) clause.now) }
{
    !given || clause.is_met(values)
}

/// Puts `n` variables without a value after the others, for which there is room.
fn open_more(values: &mut Vec<Option<bool>>, n: u32)
    requires { vec_len values.old + n ≤ vec_capacity values.old }
    ensures { values.new.items ≡ values.old.items ++ replicate n None }
{
    for _ in 0..n {
        values.push_reserved(None);
    }
}

/// The clauses that weren't given, in order.
fn only_added(mut clauses: Vec<Clause>, marks: &[bool]) -> Vec<Clause>
    requires { length marks.now ≡ length clauses.items }
    ensures { result.items ≡ added_of marks.now clauses.items }
{
    let mut kept = 0;
    for (at, given) in marks.iter().enumerate() {
        if !*given {
            clauses.swap(kept, at);
            kept += 1;
        }
    }
    clauses.truncate(kept);
    clauses
}

/// The lists of these clauses, with what they alone make true.
fn settled(
    alloc: Global,
    vars: u32,
    clauses: &[Clause],
    root: &mut [Option<bool>],
) -> Result<Watches, AllocError>
    requires { AreWithin (length root.old) clauses.now }
    ensures { OnlyForced clauses.now root.old root.new }
{
    let mut watches = Watches::new(alloc, vars)?;
    watches.reserve(clauses.len())?;
    for clause in clauses {
        watches.watch(clause.as_slice(), root);
    }
    watches.begin();
    for at in 0..clauses.len() {
        if watches.look(clauses, at, root) {
            return Ok(watches);
        }
    }
    watches.run(clauses, root);
    Ok(watches)
}

/// Adds what the last clause makes true.
fn extend(clauses: &[Clause], root: &mut [Option<bool>], watches: &mut Watches)
    requires { AreWithin (length root.old) clauses.now }
    ensures { OnlyForced clauses.now root.old root.new }
{
    watches.begin();
    let Some(at) = clauses.len().checked_sub(1) else {
        return
    };
    if !watches.look(clauses, at, root) {
        watches.run(clauses, root);
    }
}

/// Whether `clause` follows from `clauses` by unit propagation, which begins with the clauses at
/// these places. At the entry `values` are such as the clauses alone make true.
fn follows(
    clauses: &[Clause],
    places: &[usize],
    clause: &[Lit],
    values: &mut [Option<bool>],
    watches: &mut Watches,
) -> bool
    requires clauses_within { AreWithin (length values.old) clauses.now }
    requires within { IsWithin (length values.old) clause.now }
    requires implied { AreImplied clauses.now values.old }
    ensures { IsTrue result ↔ Follows clauses.now clause.now }
{
    watches.begin();
    if assume_negated(clause, values, watches) {
        return true;
    }
    if watches.run_by(clauses, places, values) {
        return true;
    }
    propagate(clauses, values)
}
