//! Options that several commands have.

ghost use Rattle.std.specs.Prelude.{◌≡◌, ◌≤◌};
ghost use Rattle.fo_core.specs.declared.query.TheConstants.{MOST_WEIGHT};
ghost use Rattle.updr_words.specs.Forms.{number_of};
ghost use Rattle.updr_top.specs.Options.{weight_option};

use fo_core::Finder;
use fo_solve::Engine;
use updr_words::{Giving, Number};

/// `--weight`: the most that a query may weigh.
pub const WEIGHT: Number = Number {
    name: "weight",
    giving: Giving::ByOption,
    usual: "4000000",
    least: 1,
    most: 4_000_000,
};

/// A finder whose limit is this weight.
pub fn finder(weight: u32) -> Engine
    requires { weight ≤ MOST_WEIGHT }
    ensures { ⟦<Engine as Finder>⟧.limit result ≡ weight }
{
    Engine::new(u64::from(weight))
}
