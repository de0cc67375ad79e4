//! Many-sorted first-order logic over finite structures: terms, formulas, transition systems and
//! worlds, with what they mean.
#![tactic(auto)]

mod boxed;
mod cell;
mod depth;
mod finder;
mod formula;
mod laws;
mod names;
mod order;
mod over;
mod query;
mod run_laws;
mod seq;
mod shift;
mod signature;
mod sorted;
mod system;
mod term;
mod text;
mod threads;
mod tuples;
mod weight_laws;
mod world;

pub use boxed::Boxed;
pub use cell::Cell;
pub use finder::{Finder, Finders, Found};
pub use formula::Formula;
pub use laws::{
    all_tuples_are_in_order, outer_quantifiers_add_no_edge, quantified_formulas_are_well_sorted,
    quantifiers_range_over_elements, safe_where_no_reachable_state_violates, shifted_moves_copies,
    terms_read_bound_values, truth_is_decided, truth_reads_named_copies, tuples_are_numbered,
    variables_read_values,
};
pub use names::{
    Names, RESERVED_WORDS, begins_word, continues_word, is_name, is_reserved, is_word,
};
pub use order::{Order, Purpose};
pub use over::{all_over, some_over, variables};
pub use query::{MOST_WEIGHT, Query};
pub use run_laws::{copy_alone_keeps_meaning, pair_of_copies_keeps_meaning, reached_step_by_step};
pub use seq::Seq;
pub use shift::shifted;
pub use signature::{Sig, Symbol};
pub use system::{Step, System};
pub use term::Term;
pub use text::Text;
pub use tuples::{all_tuples, sizes_of, tuple_at, tuple_count, tuple_place};
pub use weight_laws::{fewer_formulas_are_no_heavier, fewer_literals_are_no_heavier};
pub use world::{Table, World};
