use fo_core::{Query, Seq};
use fo_min::Excess;
use up_claims::Kind;
use up_unroll::Unrolled;

#[test]
fn answers_are_copied(rt: HostRuntime) {
    let alloc = rt.alloc();
    let query = Query {
        copies: 1,
        claims: Seq::new(alloc),
    };
    let over = Unrolled::Over(Kind::Unroll, Excess { weight: 29, query });
    let copy = over.copy(alloc).expect(&rt, "memory");
    let Unrolled::Over(Kind::Unroll, excess) = copy else {
        panic!(rt; "another answer")
    };
    assert_eq!(rt; excess.weight, 29);
}
