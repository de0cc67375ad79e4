use crate::fixtures::{held_symbol, list, numbers};
use crate::formulas::{for_all, for_some, held};
use fo_core::{Formula, Query, Sig, Symbol, Term};
use fo_norm::{SkolemForm, normal};
use std::alloc::Global;
use std::process::Abort;

/// The form of claims about one sort, a relation of one argument and one of two.
fn form_of(rt: &impl Abort, alloc: Global, claim: Formula) -> SkolemForm {
    let next = Symbol {
        relation: true,
        mutable: true,
        args: numbers(rt, alloc, &[0, 0]),
        result: 0,
    };
    let sig = Sig {
        sorts: 1,
        symbols: list(rt, alloc, [held_symbol(rt, alloc), next]),
    };
    let claims = list(rt, alloc, [claim]);
    let query = Query { copies: 1, claims };
    assert!(rt; sig.is_well_sorted());
    assert!(rt; query.is_well_sorted(alloc, &sig).expect(rt, "memory"));
    let form = normal(alloc, &sig, &query).expect(rt, "memory");
    form.copy(alloc).expect(rt, "memory")
}

/// Some y comes next after the variable numbered 0.
fn has_next(rt: &impl Abort, alloc: Global) -> Formula {
    let next = list(rt, alloc, [Term::Var(0), Term::Var(1)]);
    for_some(rt, alloc, &[0], Formula::Rel(1, 0, next))
}

/// Some z is held, below so many variables.
fn some_held(rt: &impl Abort, alloc: Global, variables: u32) -> Formula {
    for_some(rt, alloc, &[0], held(rt, alloc, 0, variables))
}

#[test]
fn arguments_are_the_enclosing_universals(rt: HostRuntime) {
    let alloc = rt.alloc();
    let next = for_all(&rt, alloc, &[0], has_next(&rt, alloc));
    let both = list(&rt, alloc, [next, some_held(&rt, alloc, 0)]);
    let form = form_of(&rt, alloc, Formula::And(both));
    assert_eq!(rt; form.skolems.len(), 2);
    assert_eq!(rt; form.skolems.at(0).args.len(), 1);
    assert_eq!(rt; form.skolems.at(1).args.len(), 0);
}

#[test]
fn an_existential_below_a_universal_has_an_argument(rt: HostRuntime) {
    let alloc = rt.alloc();
    let both = list(&rt, alloc, [has_next(&rt, alloc), some_held(&rt, alloc, 1)]);
    let claim = for_all(&rt, alloc, &[0], Formula::And(both));
    let form = form_of(&rt, alloc, claim);
    assert_eq!(rt; form.skolems.len(), 2);
    assert_eq!(rt; form.skolems.at(0).args.len(), 1);
    assert_eq!(rt; form.skolems.at(1).args.len(), 1);
}
