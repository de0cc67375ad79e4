use fo_core::{Query, Seq};
use fo_min::{Excess, Least};

#[test]
fn answers_are_copied(rt: HostRuntime) {
    let alloc = rt.alloc();
    let query = Query {
        copies: 1,
        claims: Seq::new(alloc),
    };
    let over = Least::Over(Excess { weight: 29, query });
    let copy = over.copy(alloc).expect(&rt, "memory");
    let Least::Over(excess) = copy else {
        panic!(rt; "another answer")
    };
    assert_eq!(rt; excess.weight, 29);
}
