//! A machine that workers share in a turnstile, and the visits that a worker makes there. A visit
//! enters, makes at most one event, and leaves. Between two visits others may have made events, but
//! what the worker holds stays, and frames only grow stronger: so what was blocked in the frame that
//! it was given is blocked still, and a clause is learnt without a second look at what blocks it.
#![tactic(auto)]

mod asking;
mod giving_up;
mod laws;
mod reporting;
mod returning;

pub use asking::{Asked, ask};
pub use giving_up::give_up;
pub use laws::{an_end_stays, others_leave_a_job};
pub use reporting::report_back;
