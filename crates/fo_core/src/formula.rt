ghost use Rattle.std.specs.Prelude.{◌≡◌, ◌↔◌, ◌∷◌, [], IsTrue, IfOk};
ghost use Rattle.fo_core.specs.declared.formula.Formula.TheVariants as F;

use crate::boxed::Boxed;
use crate::seq::Seq;
use crate::term::{Term, same_terms};
use std::alloc::{AllocError, Global};

/// A formula of many-sorted first-order logic with equality.
#[derive(Debug, Drop)]
pub enum Formula {
    True,
    False,
    /// A relation symbol, the copy of which it speaks, and its arguments.
    Rel(u32, u32, Seq<Term>),
    Eq(Term, Term),
    Not(Boxed<Formula>),
    And(Seq<Formula>),
    Or(Seq<Formula>),
    /// For all elements of the sort.
    All(u32, Boxed<Formula>),
    /// For some element of the sort.
    Ex(u32, Boxed<Formula>),
}

impl Formula {
    /// A copy.
    pub fn copy(&self, alloc: Global) -> Result<Formula, AllocError>
        ensures { IfOk result (λ f. f ≡ self.now) }
    {
        match self {
            Formula::True => Ok(Formula::True),
            Formula::False => Ok(Formula::False),
            Formula::Rel(r, d, args) => Ok(Formula::Rel(*r, *d, args.copy(alloc)?)),
            Formula::Eq(a, b) => Ok(Formula::Eq(a.copy(alloc)?, b.copy(alloc)?)),
            Formula::Not(g) => Ok(Formula::Not(Boxed::new(alloc, g.get().copy(alloc)?)?)),
            Formula::And(fs) => {
                let mut copies = Seq::new(alloc);
                'conjuncts: for g in fs.as_slice() {
                    copies.push(g.copy(alloc)?)?;
                }
                Ok(Formula::And(copies))
            }
            Formula::Or(fs) => {
                let mut copies = Seq::new(alloc);
                'disjuncts: for g in fs.as_slice() {
                    copies.push(g.copy(alloc)?)?;
                }
                Ok(Formula::Or(copies))
            }
            Formula::All(s, g) => Ok(Formula::All(*s, Boxed::new(alloc, g.get().copy(alloc)?)?)),
            Formula::Ex(s, g) => Ok(Formula::Ex(*s, Boxed::new(alloc, g.get().copy(alloc)?)?)),
        }
    }

    /// The negation of the formula.
    pub fn not(alloc: Global, f: Formula) -> Result<Formula, AllocError>
        ensures { IfOk result (λ g. g ≡ F.Not f) }
    {
        Ok(Formula::Not(Boxed::new(alloc, f)?))
    }

    /// The conjunction of the two formulas.
    pub fn both(alloc: Global, f: Formula, g: Formula) -> Result<Formula, AllocError>
        ensures { IfOk result (λ h. h ≡ F.And (f ∷ g ∷ [])) }
    {
        let mut parts = Seq::new(alloc);
        parts.push(f)?;
        parts.push(g)?;
        Ok(Formula::And(parts))
    }

    /// The disjunction of the two formulas.
    pub fn either(alloc: Global, f: Formula, g: Formula) -> Result<Formula, AllocError>
        ensures { IfOk result (λ h. h ≡ F.Or (f ∷ g ∷ [])) }
    {
        let mut parts = Seq::new(alloc);
        parts.push(f)?;
        parts.push(g)?;
        Ok(Formula::Or(parts))
    }

    /// Whether both are equal. It takes no memory.
    pub fn same(&self, other: &Formula) -> bool
        ensures { IsTrue result ↔ (self.now ≡ other.now) }
    {
        same_formula(self, other)
    }
}

impl Seq<Formula> {
    /// A copy.
    pub fn copy(&self, alloc: Global) -> Result<Seq<Formula>, AllocError>
        ensures { IfOk result (λ s. s ≡ self.now) }
    {
        let mut copies = Seq::new(alloc);
        'each: for item in self.as_slice() {
            copies.push(item.copy(alloc)?)?;
        }
        Ok(copies)
    }
}

/// Whether the formulas are the same.
#[cycle(formulas)]
fn same_formula(a: &Formula, b: &Formula) -> bool
    ensures { IsTrue result ↔ (a.now ≡ b.now) }
{
    match (a, b) {
        (Formula::True, Formula::True) => true,
        (Formula::False, Formula::False) => true,
        (Formula::Rel(r, c, xs), Formula::Rel(s, d, ys)) => {
            r == s && c == d && same_terms(xs.as_slice(), ys.as_slice())
        }
        (Formula::Eq(x, y), Formula::Eq(u, v)) => x.same(u) && y.same(v),
        (Formula::Not(f), Formula::Not(g)) => same_formula(f.get(), g.get()),
        (Formula::And(fs), Formula::And(gs)) => same_formulas(fs.as_slice(), gs.as_slice()),
        (Formula::Or(fs), Formula::Or(gs)) => same_formulas(fs.as_slice(), gs.as_slice()),
        (Formula::All(s, f), Formula::All(t, g)) => s == t && same_formula(f.get(), g.get()),
        (Formula::Ex(s, f), Formula::Ex(t, g)) => s == t && same_formula(f.get(), g.get()),
        _ => false,
    }
}

/// Whether the lists of formulas are the same.
#[cycle(formulas)]
pub fn same_formulas(a: &[Formula], b: &[Formula]) -> bool
    ensures { IsTrue result ↔ (a.now ≡ b.now) }
{
    if a.len() != b.len() {
        return false;
    }
    'each: for i in 0..a.len() {
        if !same_formula(&a[i], &b[i]) {
            return false;
        }
    }
    true
}
