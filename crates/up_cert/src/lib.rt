//! Judging verdicts: whether what a report claims is so, and else the first spot that fails.
#![tactic(auto)]

mod answer;
mod asking;
mod chain;
mod clauses;
mod judged;
mod judging;
mod laws;
mod leaving;
mod run;
mod spot;

pub use judged::Judged;
pub use judging::judge;
pub use laws::{
    a_verdict_holds_where_all_spots_pass, an_accepted_chain_leaves_no_universal_invariant,
    judged_rightly, one_judgement, queries_of_the_spots_judge_a_verdict, the_first_excess_is_told,
};
pub use run::judge_run;
pub use spot::{Spot, What};
