ghost use Rattle.std.specs.Prelude.{◌≡◌, ◌↔◌, IsTrue, IfOk};

use crate::seq::Seq;
use std::alloc::{AllocError, Global};

/// A term.
#[derive(Debug, Drop)]
pub enum Term {
    /// A variable by its number, which is the number of binders above its own.
    Var(u32),
    /// A function symbol, the copy of which it speaks, and its arguments. The copy of an
    /// immutable symbol is 0.
    App(u32, u32, Seq<Term>),
}

impl Term {
    /// A copy.
    pub fn copy(&self, alloc: Global) -> Result<Term, AllocError>
        ensures { IfOk result (λ t. t ≡ self.now) }
    {
        match self {
            Term::Var(i) => Ok(Term::Var(*i)),
            Term::App(f, d, args) => {
                let mut copies = Seq::new(alloc);
                'each: for t in args.as_slice() {
                    copies.push(t.copy(alloc)?)?;
                }
                Ok(Term::App(*f, *d, copies))
            }
        }
    }

    /// Whether both are equal. It takes no memory.
    pub fn same(&self, other: &Term) -> bool
        ensures { IsTrue result ↔ (self.now ≡ other.now) }
    {
        same_term(self, other)
    }
}

impl Seq<Term> {
    /// A copy.
    pub fn copy(&self, alloc: Global) -> Result<Seq<Term>, AllocError>
        ensures { IfOk result (λ s. s ≡ self.now) }
    {
        let mut copies = Seq::new(alloc);
        'each: for item in self.as_slice() {
            copies.push(item.copy(alloc)?)?;
        }
        Ok(copies)
    }
}

/// Whether the terms are the same.
#[cycle(terms)]
fn same_term(a: &Term, b: &Term) -> bool
    ensures { IsTrue result ↔ (a.now ≡ b.now) }
{
    match (a, b) {
        (Term::Var(x), Term::Var(y)) => x == y,
        (Term::App(f, c, xs), Term::App(g, d, ys)) => {
            f == g && c == d && same_terms(xs.as_slice(), ys.as_slice())
        }
        _ => false,
    }
}

/// Whether the lists of terms are the same.
#[cycle(terms)]
pub fn same_terms(a: &[Term], b: &[Term]) -> bool
    ensures { IsTrue result ↔ (a.now ≡ b.now) }
{
    if a.len() != b.len() {
        return false;
    }
    'each: for i in 0..a.len() {
        if !same_term(&a[i], &b[i]) {
            return false;
        }
    }
    true
}
