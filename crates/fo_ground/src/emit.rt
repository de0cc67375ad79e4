ghost use Rattle.std.specs.Prelude.{◌≡◌, ◌≤◌, MatchOption, IfOk, OnOk};
ghost use Rattle.prop_core.specs.Formula.{IsWithin, AreWithin};
ghost use Rattle.fo_norm.specs.Forms.{IsAtom, IsNormal};
ghost use Rattle.fo_ground.specs.Emits.{Adds};
ghost use Rattle.fo_ground.specs.Layout.{IsLaidOut, IsLiteral, HasInstance, IsVariableOf, IsLiteralOf, IsMetBy};

use crate::layout::Layout;
use crate::place::{place, places, same, slot};
use fo_core::{Formula, Seq};
use fo_terms::Universe;
use prop_core::{Clause, Lit};
use std::alloc::{AllocError, Global};

/// The clauses so far, and how many variables they have.
#[derive(Drop)]
pub struct Builder {
    pub vars: u32,
    pub clauses: Seq<Clause>,
}

/// The variable that stands for an atom's instance. Of other formulas there is none.
fn atom(
    alloc: Global,
    lay: &Layout,
    u: &Universe,
    env: &[u32],
    f: &Formula,
) -> Result<Option<u32>, AllocError>
    requires ready { IsLaidOut u.now lay.now }
    requires instance { HasInstance u.now lay.now env.now f.now }
    ensures { IfOk result (λ o. MatchOption o (¬ IsAtom f.now) (λ x. IsVariableOf u.now lay.now f.now env.now x)) }
{
    match f {
        Formula::Rel(r, d, args) => {
            let places = places(alloc, lay, u, env, args.as_slice())?;
            Ok(Some(slot(lay, u, *r, *d, places.as_slice())))
        }
        Formula::Eq(a, b) => {
            let p = place(alloc, lay, u, env, a)?;
            let q = place(alloc, lay, u, env, b)?;
            Ok(Some(same(lay, u, p, q)))
        }
        _ => Ok(None),
    }
}

/// The literal that stands for the instance of an atom or of its negation.
fn literal(
    alloc: Global,
    lay: &Layout,
    u: &Universe,
    env: &[u32],
    f: &Formula,
) -> Result<Option<Lit>, AllocError>
    requires ready { IsLaidOut u.now lay.now }
    requires instance { HasInstance u.now lay.now env.now f.now }
    ensures { IfOk result (λ o. MatchOption o (¬ IsLiteral f.now) (λ l. IsLiteralOf u.now lay.now f.now env.now l)) }
{
    match f {
        Formula::Not(g) => match atom(alloc, lay, u, env, g.get())? {
            Some(var) => Ok(Some(Lit {
                var,
                positive: false,
            })),
            None => Ok(None),
        },
        _ => match atom(alloc, lay, u, env, f)? {
            Some(var) => Ok(Some(Lit {
                var,
                positive: true,
            })),
            None => Ok(None),
        },
    }
}

/// Adds clauses that say: some literal of the prefix is true, or the formula is, where its
/// variables stand for the ground terms at the places in `env`. A disjunct that is no literal gets a
/// new variable that implies it (David Plaisted and Steven Greenbaum, "A Structure-preserving
/// Clause Form Translation", 1986).
pub fn emit(
    alloc: Global,
    lay: &Layout,
    u: &Universe,
    env: &mut Vec<u32>,
    prefix: &[Lit],
    f: &Formula,
    into: &mut Builder,
) -> Result<(), AllocError>
    requires ready { IsLaidOut u.now lay.now }
    requires instance { HasInstance u.now lay.now env.old.items f.now }
    requires normal { IsNormal f.now }
    requires over { lay.now.base ≤ into.old.vars }
    requires within { AreWithin into.old.vars into.old.clauses }
    requires inside { IsWithin into.old.vars prefix.now }
    ensures added { OnOk result (Adds lay.now.base prefix.now (IsMetBy u.now lay.now f.now env.old.items) into.old.vars into.old.clauses into.new.vars into.new.clauses) }
    ensures kept { OnOk result (env.new.items ≡ env.old.items) }
{
    if let Some(lit) = literal(alloc, lay, u, env.as_slice(), f)? {
        let mut clause = Clause::from_slice(alloc, prefix)?;
        clause.push(lit)?;
        into.clauses.push(clause)?;
        return Ok(());
    }
    match f {
        Formula::True => Ok(()),
        Formula::False => {
            into.clauses.push(Clause::from_slice(alloc, prefix)?)?;
            Ok(())
        }
        Formula::And(fs) => {
            'each: for g in fs.as_slice() {
                emit(alloc, lay, u, env, prefix, g, into)?;
            }
            Ok(())
        }
        Formula::Or(fs) => {
            let mut clause = Clause::from_slice(alloc, prefix)?;
            'some: for g in fs.as_slice() {
                match literal(alloc, lay, u, env.as_slice(), g)? {
                    Some(lit) => clause.push(lit)?,
                    None => {
                        let var = into.vars;
                        if var == u32::MAX {
                            return Err(AllocError);
                        }
                        into.vars = var + 1;
                        let negative = [Lit {
                            var,
                            positive: false,
                        }];
                        emit(alloc, lay, u, env, &negative, g, into)?;
                        clause.push(Lit {
                            var,
                            positive: true,
                        })?;
                    }
                }
            }
            into.clauses.push(clause)?;
            Ok(())
        }
        Formula::All(s, g) => {
            let first = *u.firsts.at(*s as usize);
            let end = first + *lay.sizes.at(*s as usize);
            'every: for p in first..end {
                env.push(p)?;
                emit(alloc, lay, u, env, prefix, g.get(), into)?;
                env.pop();
            }
            Ok(())
        }
        Formula::Rel(_, _, _) => unreachable!(),
        Formula::Eq(_, _) => unreachable!(),
        Formula::Not(_g) => unreachable!(),
        Formula::Ex(_s, _g) => unreachable!(),
    }
}
