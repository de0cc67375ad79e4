ghost use Rattle.std.specs.Prelude.{◌≡◌, ◌≤◌, ◌++◌, ℕ, Bool, [], length, replicate, IfOk, OnOk};
ghost use Rattle.std.specs.List.{All};
ghost use Rattle.fo_core.specs.declared.world.World.{World};
ghost use Rattle.fo_norm.specs.Forms.{MeetsForm};
ghost use Rattle.prop_core.specs.Formula.{AreWithin, MeetsAll};
ghost use Rattle.fo_terms.specs.Universe.{IsUniverse};
ghost use Rattle.fo_ground.specs.declared.grounded.Atom.TheVariants.{Helper};
ghost use Rattle.fo_ground.specs.Emits.{Adds};
ghost use Rattle.fo_ground.specs.Grounds.{CanGround, IsGrounded, IsListed, IsShaped};
ghost use Rattle.fo_ground.specs.Layout.{IsEqualityBy, IsLaidOut};

use crate::atoms::atoms;
use crate::axioms::{add_claims, add_equalities};
use crate::congruence::{add_functions, add_relations};
use crate::emit::Builder;
use crate::grounded::{Atom, Grounded};
use crate::laying::lay_out;
use crate::layout::Layout;
use fo_core::{Seq, Sig};
use fo_norm::SkolemForm;
use fo_terms::Universe;
use prop_core::Cnf;
use std::alloc::{AllocError, Global};

/// Adds helpers after the atoms, so that each variable below `vars` has an atom.
fn push_helpers(atoms: &mut Vec<Atom>, vars: u32) -> Result<(), AllocError>
    requires { length atoms.old.items ≤ vars }
    ensures length { OnOk result (length atoms.new.items ≡ vars) }
    ensures helpers { OnOk result ((n : ℕ) × (atoms.new.items ≡ atoms.old.items ++ replicate n Helper)) }
{
    let first = atoms.len() as u32;
    'each: for _place in first..vars {
        atoms.push(Atom::Helper)?;
    }
    Ok(())
}

/// Adds the axioms of equality over the layout's atoms: it is reflexive and transitive, and functions
/// and relations respect it.
pub fn add_axioms(
    alloc: Global,
    lay: &Layout,
    u: &Universe,
    atoms: &[Atom],
    into: &mut Builder,
) -> Result<(), AllocError>
    requires ready { IsLaidOut u.now lay.now }
    requires universe { IsUniverse lay.now.sig lay.now.copies u.now.terms }
    requires listed { IsListed u.now lay.now atoms.now }
    requires shaped { All (IsShaped lay.now.sig lay.now.copies u.now) atoms.now }
    requires long { length atoms.now ≡ lay.now.base }
    requires over { lay.now.base ≤ into.old.vars }
    requires within { AreWithin into.old.vars into.old.clauses }
    ensures { OnOk result (Adds lay.now.base [] (IsEqualityBy u.now lay.now) into.old.vars into.old.clauses into.new.vars into.new.clauses) }
{
    add_equalities(alloc, lay, u, into)?;
    add_functions(alloc, lay, u, into)?;
    add_relations(alloc, lay, u, atoms, into)?;
    Ok(())
}

/// The clauses of a Skolem form over its ground terms.
fn grounded(
    alloc: Global,
    sig: &Sig,
    form: &SkolemForm,
    u: &Universe,
) -> Result<Grounded, AllocError>
    requires { CanGround sig.now form.now u.now }
    ensures { IfOk result (IsGrounded sig.now form.now u.now) }
{
    let lay = lay_out(alloc, sig, form, u)?;
    let mut atoms = atoms(alloc, &lay, u)?;
    let mut into = Builder {
        vars: lay.base,
        clauses: Seq::new(alloc),
    };
    add_axioms(alloc, &lay, u, atoms.as_slice(), &mut into)?;
    add_claims(alloc, &lay, u, form.claims.as_slice(), &mut into)?;
    let Builder { vars, clauses } = into;
    push_helpers(&mut atoms, vars)?;
    Ok(Grounded {
        cnf: Cnf { vars, clauses },
        atoms: Seq::from_vec(atoms),
    })
}

/// The clauses of a Skolem form over its ground terms: that being the same is an equality which
/// functions and relations respect, and each claim's instances under all ground terms.
///
/// Some values meet them exactly where some world meets the form (Herbrand's theorem; here over all
/// finite nonempty domains, which is all domains, as there are finitely many ground terms).
///
/// It asks for the form's universe by an order that rises, and that the form weighs at most
/// [`fo_core::MOST_WEIGHT`]. The one error is out of memory; more variables than have numbers of 32
/// bits are reported so too.
pub fn ground(
    alloc: Global,
    sig: &Sig,
    form: &SkolemForm,
    u: &Universe,
) -> Result<Grounded, AllocError>
    requires { CanGround sig.now form.now u.now }
    ensures well_formed { IfOk result (λ g. AreWithin g.cnf.vars g.cnf.clauses) }
    ensures atoms { IfOk result (λ g. length g.atoms ≡ g.cnf.vars) }
    ensures grounded { IfOk result (λ g. IsGrounded sig.now form.now u.now g) }
    ensures world_from_values { IfOk result (λ g. (v : ℕ → Bool) → MeetsAll v g.cnf.clauses → (w : World) × MeetsForm sig.now form.now w) }
    ensures values_from_world { IfOk result (λ g. (w : World) → MeetsForm sig.now form.now w → (v : ℕ → Bool) × MeetsAll v g.cnf.clauses) }
{
    let grounded = grounded(alloc, sig, form, u)?;
    Ok(grounded)
}
