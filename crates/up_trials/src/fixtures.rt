//! What several tests begin with: lists, signatures, worlds, and systems of models' texts. Where
//! memory runs out they stop the test: an error that is handed on costs more to prove than the test
//! itself.
ghost use Rattle.std.specs.Prelude.{◌≡◌};
ghost use Rattle.up_claims.specs.Inferring.{CanInfer};

use fo_core::{MOST_WEIGHT, Order, Purpose, Seq, Sig, Symbol, System, Table, World};
use pyv_lex::tokens;
use pyv_parse::parse;
use pyv_sorts::elaborate;
use pyv_strat::order;
use std::alloc::Global;
use std::process::Abort;
use up_gen::model_text;
use up_machine::Limits;

/// The list of these.
pub fn list<T: Drop, const N: usize>(rt: &impl Abort, alloc: Global, items: [T; N]) -> Seq<T> {
    Seq::from_vec(Vec::from_array(alloc, items).expect(rt, "a list"))
}

/// The list of these numbers.
pub fn numbers(rt: &impl Abort, alloc: Global, items: &[u32]) -> Seq<u32> {
    Seq::from_vec(items.to_vec(alloc).expect(rt, "a list"))
}

/// A mutable relation of one element of sort 0.
pub fn held_symbol(rt: &impl Abort, alloc: Global) -> Symbol {
    Symbol {
        relation: true,
        mutable: true,
        args: numbers(rt, alloc, &[0]),
        result: 0,
    }
}

/// One sort and that relation.
pub fn held_signature(rt: &impl Abort, alloc: Global) -> Sig {
    Sig {
        sorts: 1,
        symbols: list(rt, alloc, [held_symbol(rt, alloc)]),
    }
}

/// A table with these values.
pub fn table(rt: &impl Abort, alloc: Global, values: &[u32]) -> Table {
    Table {
        values: numbers(rt, alloc, values),
    }
}

/// A world of that signature with this many elements and one copy, in which these values say
/// whether each element is held.
pub fn state(rt: &impl Abort, alloc: Global, size: u32, held: &[u32]) -> World {
    let tables = list(rt, alloc, [table(rt, alloc, held)]);
    World {
        sizes: numbers(rt, alloc, &[size]),
        fixed: Seq::new(alloc),
        copies: list(rt, alloc, [tables]),
    }
}

/// A system with an order of its sorts for inference.
#[derive(Drop)]
pub struct Problem {
    pub sys: System,
    pub order: Order,
}

/// The system that a model's text means.
pub fn system(rt: &impl Abort, alloc: Global, text: &str) -> System {
    let text = text.as_bytes();
    assert!(rt; u32::try_from(text.len()).is_ok());
    let tokens = tokens(alloc, text).expect(rt, "tokens");
    let model = parse(alloc, text, tokens.as_slice()).expect(rt, "a tree");
    elaborate(alloc, text, &model).expect(rt, "a system").sys
}

/// The same with an order.
pub fn problem_of(rt: &impl Abort, alloc: Global, text: &str) -> Problem
    ensures { CanInfer result.sys result.order }
{
    let sys = system(rt, alloc, text);
    assert!(rt; sys.is_well_sorted(alloc).expect(rt, "memory"));
    let order = order(alloc, &sys, Purpose::Infer).expect(rt, "an order");
    Problem { sys, order }
}

/// The smallest of the generated models: at first the server has the token, nodes take it and give
/// it back, and no two are to hold it.
pub fn smallest_generated(rt: &impl Abort, alloc: Global) -> Problem
    ensures { CanInfer result.sys result.order }
{
    let text = model_text(alloc, 1).expect(rt, "memory");
    problem_of(rt, alloc, text.as_str())
}

/// Limits of a run of this many workers and productive events, which nothing else stops.
pub fn limits(workers: u32, steps: u32) -> Limits
    ensures { result.weight ≡ MOST_WEIGHT }
{
    Limits {
        workers,
        batch: 4,
        frames: 8,
        steps,
        weight: MOST_WEIGHT,
    }
}
