ghost use Rattle.std.specs.Prelude.{◌≡◌};
ghost use Rattle.prop_core.specs.Formula.{negated};

/// A literal: a variable, or its negation where it isn't positive.
#[derive(Clone, Copy, Debug, Default, PartialEq, Eq)]
pub struct Lit {
    /// The variable's number, from 0.
    pub var: u32,
    /// Whether the literal is the variable itself.
    pub positive: bool,
}

impl Lit {
    /// The literal with the other sign.
    pub fn negated(self) -> Lit
        ensures { result ≡ negated self }
    {
        Lit {
            var: self.var,
            positive: !self.positive,
        }
    }
}
