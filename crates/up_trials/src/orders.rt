use crate::fixtures::system;
use pyv_strat::{Purpose, StratFault, order};

#[test]
fn a_function_into_its_own_sort_is_a_cycle(rt: HostRuntime) {
    let alloc = rt.alloc();
    let sys = system(
        &rt,
        alloc,
        "sort node\nimmutable function next(node): node\n",
    );
    assert!(rt; sys.is_well_sorted(alloc).expect(&rt, "memory"));
    match order(alloc, &sys, Purpose::Infer) {
        Err(StratFault::Cycle(cycle)) => assert!(rt; cycle.as_slice() == [0, 0].as_slice()),
        _ => panic!(rt; "an order"),
    }
}

/// For each node there is an identity that is its own.
const IDENTITIES: &str = "sort node
sort id
immutable function identity(node): id
axiom forall N. exists I. identity(N) = I
";

#[test]
fn identities_are_numbered_above_their_nodes(rt: HostRuntime) {
    let alloc = rt.alloc();
    let sys = system(&rt, alloc, IDENTITIES);
    assert!(rt; sys.is_well_sorted(alloc).expect(&rt, "memory"));
    let order = order(alloc, &sys, Purpose::Infer).expect(&rt, "a cycle");
    assert!(rt; matches!(order.numbers.as_slice(), [node, id] if node < id));
}
