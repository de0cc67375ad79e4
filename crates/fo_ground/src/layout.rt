ghost use Rattle.std.specs.Prelude.{◌≡◌, ◌<◌, ◌*◌, length, MatchOption, ⊤};
ghost use Rattle.std.specs.List.{All};
ghost use Rattle.fo_core.specs.Weights.{power};

use fo_core::{Seq, Sig};

/// Where ground terms lie in the universe, and where the variables of atoms begin. All of them are
/// computed from symbols and places; nothing is searched.
#[derive(Drop)]
pub struct Layout {
    /// The signature with the Skolem functions after its own symbols.
    pub sig: Sig,
    /// How many copies the form has.
    pub copies: u32,
    /// How many variables the atoms have.
    pub base: u32,
    /// How many ground terms each sort has.
    pub sizes: Seq<u32>,
    /// For each symbol where its first tuple lies: a relation's among the variables, a function's
    /// in the universe.
    pub starts: Seq<u32>,
    /// For each place the variable of its equation with itself. Those with the later terms of its
    /// sort come after it.
    pub same: Seq<u32>,
}

/// The product of `factor` with the number of tuples of terms of these sorts, where it has 32 bits.
pub fn tuples(factor: u32, sorts: &[u32], sizes: &[u32]) -> Option<u32>
    requires { All (λ s. s < length sizes.now) sorts.now }
    ensures { MatchOption result (⊤) (λ n. n ≡ factor * power sizes.now sorts.now) }
{
    let mut product = factor;
    'each: for sort in sorts {
        product = match product.checked_mul(sizes[*sort as usize]) {
            Some(product) => product,
            None => return None,
        };
    }
    Some(product)
}
