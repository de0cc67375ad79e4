//! Formulas under a list of quantifiers, and the variables that these bind.

ghost use Rattle.std.specs.Prelude.{◌≡◌, IfOk};
ghost use Rattle.fo_core.specs.Over.{all_over as all_over_of, some_over as some_over_of, variables as variables_of};

use crate::boxed::Boxed;
use crate::formula::Formula;
use crate::seq::Seq;
use crate::term::Term;
use std::alloc::{AllocError, Global};

/// The formula under universals of these sorts, the first of them outermost.
pub fn all_over(alloc: Global, sorts: &[u32], body: Formula) -> Result<Formula, AllocError>
    ensures { IfOk result (λ f. f ≡ all_over_of sorts.now body) }
{
    let mut f = body;
    'each: for i in (0..sorts.len()).rev() {
        f = Formula::All(sorts[i], Boxed::new(alloc, f)?);
    }
    Ok(f)
}

/// The formula under existentials of these sorts, the first of them outermost.
pub fn some_over(alloc: Global, sorts: &[u32], body: Formula) -> Result<Formula, AllocError>
    ensures { IfOk result (λ f. f ≡ some_over_of sorts.now body) }
{
    let mut f = body;
    'each: for i in (0..sorts.len()).rev() {
        f = Formula::Ex(sorts[i], Boxed::new(alloc, f)?);
    }
    Ok(f)
}

/// The variables of these numbers: `count` of them from `from` on. Out of memory is also the answer
/// where a number passes 32 bits.
pub fn variables(alloc: Global, from: usize, count: usize) -> Result<Seq<Term>, AllocError>
    ensures { IfOk result (λ ts. ts ≡ variables_of from count) }
{
    let mut terms = Seq::new(alloc);
    'each: for i in 0..count {
        if from > u32::MAX as usize || i > u32::MAX as usize - from {
            return Err(AllocError);
        }
        terms.push(Term::Var((from + i) as u32))?;
    }
    Ok(terms)
}
