use crate::fixtures::{list, numbers};
use fo_core::Seq;
use fo_ground::{Atom, Grounded};
use prop_core::Cnf;

#[test]
fn grounded_forms_are_copied(rt: HostRuntime) {
    let alloc = rt.alloc();
    let fact = Atom::Fact(0, 0, numbers(&rt, alloc, &[0]));
    let atoms = list(&rt, alloc, [Atom::Same(0, 0), fact, Atom::Helper]);
    let cnf = Cnf {
        vars: 3,
        clauses: Seq::new(alloc),
    };
    let grounded = Grounded { cnf, atoms };
    let copy = grounded.copy(alloc).expect(&rt, "memory");
    assert_eq!(rt; copy.cnf.vars, 3);
    assert_eq!(rt; copy.atoms.len(), 3);
}
