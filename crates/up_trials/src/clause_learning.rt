ghost use Rattle.std.specs.Prelude.{◌<◌};

use crate::clauses::lit;
use crate::fixtures::list;
use fo_core::Seq;
use prop_cdcl::solve;
use prop_core::{Answer, Clause, Cnf};
use std::alloc::Global;
use std::process::Abort;

/// Whether the answer is that the formula is met, by no values.
fn is_met_by_none(answer: &Answer) -> bool {
    match answer {
        Answer::Sat(values) => values.is_empty(),
        Answer::Unsat(_) => false,
    }
}

/// Whether the answer is a refutation that ends with the empty clause.
fn is_refuted(answer: &Answer) -> bool {
    match answer {
        Answer::Sat(_) => false,
        Answer::Unsat(refutation) => match refutation.clauses.as_slice().last() {
            Some(last) => last.is_empty(),
            None => false,
        },
    }
}

#[test]
fn no_variables_and_no_clauses_are_met(rt: HostRuntime) {
    let alloc = rt.alloc();
    let cnf = Cnf {
        vars: 0,
        clauses: Seq::new(alloc),
    };
    assert!(rt; is_met_by_none(&solve(alloc, &cnf).expect(&rt, "memory")));
    assert!(rt; is_met_by_none(&prop_plain::solve(alloc, &cnf).expect(&rt, "memory")));
}

#[test]
fn an_empty_clause_is_refuted_by_itself(rt: HostRuntime) {
    let alloc = rt.alloc();
    let cnf = Cnf {
        vars: 0,
        clauses: list(&rt, alloc, [Clause::new(alloc)]),
    };
    assert!(rt; cnf.is_well_formed());
    assert!(rt; is_refuted(&solve(alloc, &cnf).expect(&rt, "memory")));
    assert!(rt; is_refuted(&prop_plain::solve(alloc, &cnf).expect(&rt, "memory")));
}

/// Adds the clause that one of the two variables has its value.
fn add(rt: &impl Abort, alloc: Global, cnf: &mut Cnf, first: (u32, bool), second: (u32, bool)) {
    let lits = [lit(first.0, first.1), lit(second.0, second.1)];
    let clause = Clause::from_slice(alloc, &lits).expect(rt, "memory");
    cnf.clauses.push(clause).expect(rt, "memory");
}

/// Pairs of variables that have nothing to do with the two last ones, which can't be met: a search
/// in order of variables would meet 3^30 values of the pairs first.
#[test]
fn a_contradiction_after_thirty_pairs_is_found(rt: HostRuntime) {
    let alloc = rt.alloc();
    let mut cnf = Cnf {
        vars: 62,
        clauses: Seq::new(alloc),
    };
    for pair in 0..30u32 {
        add(&rt, alloc, &mut cnf, (2 * pair, true), (2 * pair + 1, true));
    }
    for (first, second) in [(true, true), (true, false), (false, true), (false, false)] {
        add(&rt, alloc, &mut cnf, (60, first), (61, second));
    }
    assert!(rt; cnf.is_well_formed());
    match solve(alloc, &cnf).expect(&rt, "memory") {
        Answer::Sat(_) => assert!(rt; false),
        Answer::Unsat(refutation) => assert!(rt; refutation.clauses.len() < 100),
    }
}

/// Up to three literals, drawn by a linear congruence from this state, which goes on.
fn drawn_clause(rt: &impl Abort, alloc: Global, vars: u32, state: &mut u64) -> Clause
    requires { 0 < vars }
{
    let mut clause = Clause::new(alloc);
    for _ in 0..3 {
        *state = state
            .wrapping_mul(6364136223846793005)
            .wrapping_add(1442695040888963407);
        let bits = (*state >> 33) as u32;
        if bits % 8 > 0 {
            let lit = lit((bits / 16) % vars, bits / 8 % 2 == 0);
            clause.push(lit).expect(rt, "memory");
        }
    }
    clause
}

/// A formula of `count` such clauses.
fn drawn(rt: &impl Abort, alloc: Global, vars: u32, count: u32, seed: u64) -> Cnf
    requires { 0 < vars }
{
    let mut clauses = Seq::new(alloc);
    let mut state = seed;
    for _ in 0..count {
        let clause = drawn_clause(rt, alloc, vars, &mut state);
        clauses.push(clause).expect(rt, "memory");
    }
    Cnf { vars, clauses }
}

#[test]
fn small_formulas_get_the_answer_of_plain_search(rt: HostRuntime) {
    let alloc = rt.alloc();
    for seed in 0..400u64 {
        let cnf = drawn(&rt, alloc, 8, 20 + (seed % 16) as u32, seed);
        assert!(rt; cnf.is_well_formed());
        let learning = solve(alloc, &cnf).expect(&rt, "memory");
        let plain = prop_plain::solve(alloc, &cnf).expect(&rt, "memory");
        let is_met = matches!(learning, Answer::Sat(_));
        assert_eq!(rt; is_met, matches!(plain, Answer::Sat(_)), "at {seed}");
    }
}
