//! Systems that are read from a model's text.
ghost use Rattle.std.specs.Prelude.{IfOk};
ghost use Rattle.up_claims.specs.Inferring.{CanInfer};

use fo_core::{Order, Purpose, System};
use pyv_lex::tokens;
use pyv_parse::parse;
use pyv_sorts::elaborate;
use pyv_strat::order;
use std::alloc::Global;

/// A system, with an order of its sorts for inference.
#[derive(Drop)]
pub struct Problem {
    pub sys: System,
    pub order: Order,
}

/// The system that the text of a model means.
fn system_of(alloc: Global, text: &[u8]) -> anyhow::Result<System> {
    anyhow::ensure!(u32::try_from(text.len()).is_ok(), "the model is too long");
    let tokens = tokens(alloc, text)?;
    let model = parse(alloc, text, tokens.as_slice())?;
    Ok(elaborate(alloc, text, &model)?.sys)
}

impl Problem {
    /// What the text of a model means.
    pub fn of_text(alloc: Global, text: &[u8]) -> anyhow::Result<Problem>
        ensures { IfOk result (λ p. CanInfer p.sys p.order) }
    {
        let sys = system_of(alloc, text)?;
        anyhow::ensure!(sys.is_well_sorted(alloc)?, "not well-sorted");
        let order = order(alloc, &sys, Purpose::Infer)?;
        Ok(Problem { sys, order })
    }
}
