use crate::clauses::{clause, lit};
use crate::fixtures::list;
use fo_core::Seq;
use prop_check::Checked;
use prop_core::{Clause, Cnf};
use std::alloc::Global;
use std::process::Abort;

/// The clause that one of the two variables has its value.
fn either(rt: &impl Abort, alloc: Global, first: bool, second: bool) -> Clause {
    clause(rt, alloc, &[lit(0, first), lit(1, second)])
}

/// The four clauses of two variables with all signs.
fn all_signs(rt: &impl Abort, alloc: Global) -> Seq<Clause> {
    let first = [
        either(rt, alloc, true, true),
        either(rt, alloc, true, false),
    ];
    let mut clauses = list(rt, alloc, first);
    clauses
        .push(either(rt, alloc, false, true))
        .expect(rt, "memory");
    clauses
        .push(either(rt, alloc, false, false))
        .expect(rt, "memory");
    clauses
}

#[test]
fn four_clauses_of_all_signs_are_refuted(rt: HostRuntime) {
    let alloc = rt.alloc();
    let cnf = Cnf {
        vars: 2,
        clauses: all_signs(&rt, alloc),
    };
    assert!(rt; cnf.is_well_formed());
    let mut checked = Checked::new(alloc, &cnf).expect(&rt, "memory");
    checked.reserve(1).expect(&rt, "memory");
    assert!(rt; !checked.add(Clause::new(alloc)));
    let unit = clause(&rt, alloc, &[lit(0, true)]);
    assert!(rt; unit.is_within(2));
    assert!(rt; checked.add(unit));
    assert!(rt; !checked.ended());
    checked.reserve(1).expect(&rt, "memory");
    assert!(rt; checked.add(Clause::new(alloc)));
    assert!(rt; checked.ended() && checked.clauses().len() == 6);
    assert_eq!(rt; checked.into_added().len(), 2);
}
