use crate::fixtures::list;
use prop_core::{Answer, Clause, Cnf, Lit, Refutation};
use std::alloc::Global;
use std::process::Abort;

pub fn lit(var: u32, positive: bool) -> Lit {
    Lit { var, positive }
}

/// The clause of these literals.
pub fn clause(rt: &impl Abort, alloc: Global, lits: &[Lit]) -> Clause {
    Clause::from_slice(alloc, lits).expect(rt, "memory")
}

#[test]
fn clauses_and_formulas_are_built_met_and_copied(rt: HostRuntime) {
    let alloc = rt.alloc();
    let mut two = clause(&rt, alloc, &[lit(0, true)]);
    two.push(lit(1, false)).expect(&rt, "memory");
    assert!(rt; Clause::new(alloc).is_empty() && two.len() == 2);
    let clauses = list(&rt, alloc, [two]);
    let cnf = Cnf { vars: 2, clauses };
    assert!(rt; cnf.is_well_formed());
    let copy = cnf.copy(alloc).expect(&rt, "memory");
    let first = copy.clauses.as_slice().first().expect(&rt, "none");
    assert_eq!(rt; first.as_slice().last(), Some(&lit(1, true).negated()));
    assert!(rt; first.is_within(2) && !first.is_within(1));
}

#[test]
fn answers_are_copied(rt: HostRuntime) {
    let alloc = rt.alloc();
    let clauses = list(&rt, alloc, [Clause::new(alloc)]);
    let answer = Answer::Unsat(Refutation { clauses });
    let copy = answer.copy(alloc).expect(&rt, "memory");
    let Answer::Unsat(refutation) = copy else {
        panic!(rt; "met")
    };
    let copy = refutation.copy(alloc).expect(&rt, "memory");
    assert_eq!(rt; copy.clauses.len(), 1);
}

#[test]
fn values_meet_a_formula_or_do_not(rt: HostRuntime) {
    let alloc = rt.alloc();
    let first_or_not_second = clause(&rt, alloc, &[lit(0, true), lit(1, false)]);
    let clauses = list(&rt, alloc, [first_or_not_second]);
    let cnf = Cnf { vars: 2, clauses };
    assert!(rt; cnf.is_well_formed());
    assert!(rt; cnf.is_met(&[false, false]));
    assert!(rt; !cnf.is_met(&[false, true]));
    assert!(rt; cnf.is_met(&[true, true]));
}
