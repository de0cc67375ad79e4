ghost use Rattle.std.specs.Prelude.{◌≡◌, ◌≤◌, length, IfOk};
ghost use Rattle.fo_norm.specs.Forms.{MeetsForm};
ghost use Rattle.fo_terms.specs.Universe.{IsU32};
ghost use Rattle.prop_core.specs.Formula.{value_of};
ghost use Rattle.fo_ground.specs.Grounds.{AreMetBy, CanGround, form_layout};

use crate::classes::{Classes, read_classes};
use crate::grounded::Grounded;
use crate::laying::lay_out;
use crate::layout::Layout;
use crate::tables::tables;
use fo_core::{Seq, Sig, World};
use fo_norm::SkolemForm;
use fo_terms::Universe;
use std::alloc::{AllocError, Global};

/// The world that values of the variables give, where the layout is that of the form's atoms.
pub fn read_world(
    alloc: Global,
    sig: &Sig,
    form: &SkolemForm,
    lay: &Layout,
    u: &Universe,
    values: &[bool],
) -> Result<World, AllocError>
    requires ready { CanGround sig.now form.now u.now }
    requires layout { lay.now ≡ form_layout sig.now form.now u.now }
    requires few { IsU32 lay.now.base }
    requires values { lay.now.base ≤ length values.now }
    requires met { AreMetBy sig.now form.now u.now (value_of values.now) }
    ensures meets { IfOk result (λ w. MeetsForm sig.now form.now w) }
    ensures copies { IfOk result (λ w. length w.copies ≡ form.now.copies) }
{
    let classes = read_classes(alloc, lay, u, values)?;
    let symbols = sig.symbols.as_slice();
    let fixed = tables(alloc, lay, u, &classes, values, symbols, false, 0)?;
    let mut copies = Vec::with_capacity(alloc, form.copies as usize)?;
    'each: for copy in 0..form.copies {
        copies.push(tables(alloc, lay, u, &classes, values, symbols, true, copy)?)?;
    }
    let Classes {
        sizes,
        heads: _,
        numbers: _,
    } = classes;
    Ok(World {
        sizes,
        fixed,
        copies: Seq::from_vec(copies),
    })
}

/// The world whose elements are the classes of ground terms that the values say are the same: one of
/// as many copies as the form has, which meets the form.
///
/// It asks for what [`crate::ground`] asks, and for one value for each variable of clauses over the
/// form's atoms, which together meet the axioms of equality and all ground instances of the claims.
/// Values that meet the clauses of [`crate::ground`] do. The one error is out of memory.
pub fn world_of(
    alloc: Global,
    sig: &Sig,
    form: &SkolemForm,
    g: &Grounded,
    u: &Universe,
    values: &[bool],
) -> Result<World, AllocError>
    requires ready { CanGround sig.now form.now u.now }
    requires atoms { (form_layout sig.now form.now u.now).base ≤ g.now.cnf.vars }
    requires values { length values.now ≡ g.now.cnf.vars }
    requires met { AreMetBy sig.now form.now u.now (value_of values.now) }
    ensures meets { IfOk result (λ w. MeetsForm sig.now form.now w) }
    ensures copies { IfOk result (λ w. length w.copies ≡ form.now.copies) }
{
    let lay = lay_out(alloc, sig, form, u)?;
    read_world(alloc, sig, form, &lay, u, values)
}
