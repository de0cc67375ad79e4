ghost use Rattle.std.specs.Prelude.{◌↔◌, ◌≤◌, IsTrue};
ghost use Rattle.fo_core.specs.Sorted.{binders, NestAtMost};

use crate::formula::Formula;

/// Whether no place of the formula stands under more than so many binders.
pub fn nests_at_most(f: &Formula, depth: u32) -> bool
    ensures { IsTrue result ↔ (binders f.now ≤ depth) }
{
    match f {
        Formula::True | Formula::False | Formula::Rel(_, _, _) | Formula::Eq(_, _) => true,
        Formula::Not(g) => nests_at_most(g.get(), depth),
        Formula::And(fs) => {
            'conjuncts: for g in fs.as_slice() {
                if !nests_at_most(g, depth) {
                    return false;
                }
            }
            true
        }
        Formula::Or(fs) => {
            'disjuncts: for g in fs.as_slice() {
                if !nests_at_most(g, depth) {
                    return false;
                }
            }
            true
        }
        Formula::All(_, g) => depth > 0 && nests_at_most(g.get(), depth - 1),
        Formula::Ex(_, g) => depth > 0 && nests_at_most(g.get(), depth - 1),
    }
}

/// Whether no place of these formulas stands under more than so many binders.
pub fn all_nest_at_most(fs: &[Formula], depth: u32) -> bool
    ensures { IsTrue result ↔ NestAtMost depth fs.now }
{
    fs.iter().all(|f| nests_at_most(f, depth))
}
