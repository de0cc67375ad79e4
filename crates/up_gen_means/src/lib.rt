//! The generated models are models: each is read to a system that is stratified for a search.
#![tactic(auto)]

ghost use Rattle.std.specs.Prelude.{ℕ, ◌≤◌};
ghost use Rattle.up_gen.specs.Models.{model_text_of};
ghost use Rattle.up_gen.specs.declared.models.TheConstants.{MOST_RELATIONS};
ghost use Rattle.up_gen_means.specs.Accepted.{IsAccepted};

/// Each text of `up_gen` means a system, and this is stratified for a search.
pub fn generated_texts_mean()
    ensures { (n : ℕ) → 1 ≤ n → n ≤ MOST_RELATIONS → IsAccepted (model_text_of n) }
{}
