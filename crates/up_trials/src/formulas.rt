//! Formulas over a relation of one argument.
use crate::fixtures::list;
use fo_core::{Formula, Term, all_over, some_over};
use std::alloc::Global;
use std::process::Abort;

/// The relation of this number at a variable.
pub fn held(rt: &impl Abort, alloc: Global, relation: u32, x: u32) -> Formula {
    Formula::Rel(relation, 0, list(rt, alloc, [Term::Var(x)]))
}

/// The negation.
pub fn not(rt: &impl Abort, alloc: Global, f: Formula) -> Formula {
    Formula::not(alloc, f).expect(rt, "memory")
}

/// The two variables have different values.
pub fn differ(rt: &impl Abort, alloc: Global, x: u32, y: u32) -> Formula {
    not(rt, alloc, Formula::Eq(Term::Var(x), Term::Var(y)))
}

/// The formula for all values of its variables, which have these sorts.
pub fn for_all(rt: &impl Abort, alloc: Global, sorts: &[u32], f: Formula) -> Formula {
    all_over(alloc, sorts, f).expect(rt, "memory")
}

/// The formula for some values of its variables, which have these sorts.
pub fn for_some(rt: &impl Abort, alloc: Global, sorts: &[u32], f: Formula) -> Formula {
    some_over(alloc, sorts, f).expect(rt, "memory")
}
