ghost use Rattle.std.specs.Prelude.{◌≡◌, IfOk};
ghost use Rattle.fo_terms.specs.Universe.{IsU32};
ghost use Rattle.fo_ground.specs.Grounds.{CanGround, form_layout};

use crate::layout::Layout;
use crate::starts::{Starts, row_starts, symbol_starts, with_skolems};
use crate::term_starts::{sizes, term_starts};
use fo_core::{Seq, Sig};
use fo_norm::SkolemForm;
use fo_terms::Universe;
use std::alloc::{AllocError, Global};

/// Where the ground terms and atoms of a form lie. More atoms than have numbers of 32 bits are
/// reported as out of memory.
pub fn lay_out(
    alloc: Global,
    sig: &Sig,
    form: &SkolemForm,
    u: &Universe,
) -> Result<Layout, AllocError>
    requires { CanGround sig.now form.now u.now }
    ensures layout { IfOk result (λ lay. lay ≡ form_layout sig.now form.now u.now) }
    ensures small { IfOk result (λ lay. IsU32 lay.base) }
{
    let copies = form.copies;
    let whole = with_skolems(alloc, sig, form)?;
    let sizes = sizes(alloc, &whole, copies, u)?;
    let terms = term_starts(alloc, &whole, copies, sizes.as_slice(), u)?;
    let rows = row_starts(alloc, &whole, copies, sizes.as_slice(), u)?;
    let Starts { starts: same, end } = rows;
    let symbols = symbol_starts(
        alloc,
        &whole,
        copies,
        terms.as_slice(),
        sizes.as_slice(),
        u,
        end,
    )?;
    let Starts { starts, end: base } = symbols;
    Ok(Layout {
        sig: whole,
        copies,
        base,
        sizes,
        starts: Seq::from_vec(starts),
        same: Seq::from_vec(same),
    })
}
