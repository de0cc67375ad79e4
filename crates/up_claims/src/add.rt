ghost use Rattle.std.specs.Prelude.{◌≡◌, ◌∷◌, ◌++◌, [], OnOk, IfOk};
ghost use Rattle.std.specs.List.{All};
ghost use Rattle.fo_core.specs.Shift.{CanShift};
ghost use Rattle.up_claims.specs.Claims.{at_copy, denied as denied_of};

use fo_core::{Boxed, Formula, Seq, Sig, shifted};
use std::alloc::{AllocError, Global};

/// Adds the formulas, said of this copy.
pub fn add(
    alloc: Global,
    sig: &Sig,
    copy: u32,
    formulas: &[Formula],
    claims: &mut Seq<Formula>,
) -> Result<(), AllocError>
    requires { All (CanShift sig.now copy) formulas.now }
    ensures { OnOk result (claims.new ≡ claims.old ++ at_copy sig.now copy formulas.now) }
{
    'each: for f in formulas {
        claims.push(shifted(alloc, sig, f, copy)?)?;
    }
    Ok(())
}

/// Adds that the formula is false in this copy.
pub fn add_denied(
    alloc: Global,
    sig: &Sig,
    copy: u32,
    f: &Formula,
    claims: &mut Seq<Formula>,
) -> Result<(), AllocError>
    requires { CanShift sig.now copy f.now }
    ensures { OnOk result (claims.new ≡ claims.old ++ denied_of sig.now copy f.now ∷ []) }
{
    let moved = shifted(alloc, sig, f, copy)?;
    claims.push(Formula::Not(Boxed::new(alloc, moved)?))?;
    Ok(())
}
