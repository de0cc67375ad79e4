ghost use Rattle.std.specs.Prelude.{◌≤◌};

use crate::clauses::lit;
use fo_core::Seq;
use prop_check::Checked;
use prop_core::{Answer, Clause, Cnf};
use prop_plain::{go_on, solve};
use std::alloc::Global;
use std::process::Abort;

/// Adds that the pigeon sits in one of three holes, and in none with one before it.
fn add_pigeon(rt: &impl Abort, alloc: Global, clauses: &mut Seq<Clause>, pigeon: u32)
    requires { pigeon ≤ 8 }
{
    let at = pigeon * 3;
    let holes = [lit(at, true), lit(at + 1, true), lit(at + 2, true)];
    let clause = Clause::from_slice(alloc, &holes).expect(rt, "memory");
    clauses.push(clause).expect(rt, "memory");
    for other in 0..pigeon {
        for hole in 0..3 {
            let both = [lit(other * 3 + hole, false), lit(at + hole, false)];
            let clause = Clause::from_slice(alloc, &both).expect(rt, "memory");
            clauses.push(clause).expect(rt, "memory");
        }
    }
}

/// Whether so many pigeons sit in three holes, no two in the same. Going on from nothing that was
/// learnt answers the same.
fn fit(rt: &impl Abort, alloc: Global, count: u32) -> bool
    requires { count ≤ 8 }
{
    let mut clauses = Seq::new(alloc);
    for pigeon in 0..count {
        add_pigeon(rt, alloc, &mut clauses, pigeon);
    }
    let cnf = Cnf {
        vars: count * 3,
        clauses,
    };
    assert!(rt; cnf.is_well_formed());
    let answer = solve(alloc, &cnf).expect(rt, "memory");
    let is_met = matches!(answer, Answer::Sat(_));
    let checked = Checked::new(alloc, &cnf).expect(rt, "memory");
    let again = go_on(alloc, &cnf, checked).expect(rt, "memory");
    assert_eq!(rt; matches!(again, Answer::Sat(_)), is_met);
    is_met
}

#[test]
fn pigeons_fit_their_holes_or_not(rt: HostRuntime) {
    let alloc = rt.alloc();
    assert!(rt; fit(&rt, alloc, 3));
    assert!(rt; !fit(&rt, alloc, 4));
}
