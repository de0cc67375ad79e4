ghost use Rattle.std.specs.Prelude.{◌≡◌, ◌+◌, ◌<◌, ◌^◌, max, true, false, IfOk};
ghost use Rattle.pyv_grammar.specs.Reading.{found as found_of, equality};
ghost use Rattle.pyv_grammar.specs.declared.tree.Expr.TheVariants as expr;
ghost use Rattle.pyv_parse.specs.Gives.{Makes, above, quantifier_of};

use crate::halt::Halt;
use fo_core::{Boxed, Seq};
use pyv_grammar::{Bound, Expr, Found};
use pyv_lex::Token;
use std::alloc::Global;

/// An expression that ends with no open body.
pub(crate) fn closed(tree: Expr, height: u32) -> Found
    ensures { result ≡ found_of tree false height }
{
    Found {
        tree,
        ends_open: false,
        height,
    }
}

/// The negation by a sign.
pub(crate) fn negation(alloc: Global, sign: Token, operand: Found) -> Result<Found, Halt>
    ensures made { Makes result (found_of (expr.Not sign.span.from operand.tree) operand.ends_open operand.height) }
{
    let tree = Expr::Not(sign.span.from, Boxed::new(alloc, operand.tree)?);
    Ok(Found {
        tree,
        ends_open: operand.ends_open,
        height: operand.height,
    })
}

/// The trees of two expressions, in boxes.
fn boxed(alloc: Global, left: Found, right: Found) -> Result<(Boxed<Expr>, Boxed<Expr>), Halt>
    ensures made { Makes result (left.tree, right.tree) }
{
    let left = Boxed::new(alloc, left.tree)?;
    let right = Boxed::new(alloc, right.tree)?;
    Ok((left, right))
}

/// The equality by a sign.
pub(crate) fn equality(alloc: Global, sign: Token, left: Found, right: Found) -> Result<Found, Halt>
    ensures made { Makes result (equality expr.Equal sign left right) }
{
    let height = left.height.max(right.height);
    let (left, right) = boxed(alloc, left, right)?;
    Ok(closed(Expr::Equal(sign.span.from, left, right), height))
}

/// The inequality by a sign.
pub(crate) fn inequality(
    alloc: Global,
    sign: Token,
    left: Found,
    right: Found,
) -> Result<Found, Halt>
    ensures made { Makes result (equality expr.Unequal sign left right) }
{
    let height = left.height.max(right.height);
    let (left, right) = boxed(alloc, left, right)?;
    Ok(closed(Expr::Unequal(sign.span.from, left, right), height))
}

/// The implication by a sign.
pub(crate) fn implication(
    alloc: Global,
    sign: Token,
    left: Found,
    right: Found,
) -> Result<Found, Halt>
    ensures made { Makes result (found_of (expr.Implies sign.span.from left.tree right.tree) right.ends_open (max left.height right.height)) }
{
    let height = left.height.max(right.height);
    let ends_open = right.ends_open;
    let (left, right) = boxed(alloc, left, right)?;
    Ok(Found {
        tree: Expr::Implies(sign.span.from, left, right),
        ends_open,
        height,
    })
}

/// The equivalence by a sign.
pub(crate) fn equivalence(
    alloc: Global,
    sign: Token,
    left: Found,
    right: Found,
) -> Result<Found, Halt>
    requires { max left.height right.height + 1 < 2 ^ 32 }
    ensures made { Makes result (found_of (expr.Iff sign.span.from left.tree right.tree) right.ends_open (max left.height right.height + 1)) }
{
    let height = left.height.max(right.height) + 1;
    let ends_open = right.ends_open;
    let (left, right) = boxed(alloc, left, right)?;
    Ok(Found {
        tree: Expr::Iff(sign.span.from, left, right),
        ends_open,
        height,
    })
}

/// The height of a conditional whose parts have these heights.
#[tactic(auto, unfolding(crate::specs::Gives::above))]
fn above(condition: u32, with: u32, without: u32) -> u32
    requires { above condition with without < 2 ^ 32 }
    ensures { result ≡ above condition with without }
{
    condition.max(with.max(without)) + 1
}

/// The conditional by its word.
pub(crate) fn conditional(
    alloc: Global,
    word: Token,
    condition: Found,
    with: Found,
    without: Found,
) -> Result<Found, Halt>
    requires { above condition.height with.height without.height < 2 ^ 32 }
    ensures made { Makes result (found_of (expr.If word.span.from condition.tree with.tree without.tree) true (above condition.height with.height without.height)) }
{
    let height = above(condition.height, with.height, without.height);
    let condition = Boxed::new(alloc, condition.tree)?;
    let (with, without) = boxed(alloc, with, without)?;
    Ok(Found {
        tree: Expr::If(word.span.from, condition, with, without),
        ends_open: true,
        height,
    })
}

/// A quantifier by its word.
pub(crate) fn quantified(
    alloc: Global,
    universal: bool,
    word: Token,
    variables: Seq<Bound>,
    body: Found,
) -> Result<Found, Halt>
    ensures made { Makes result (found_of (quantifier_of universal word.span.from variables body.tree) true body.height) }
{
    let height = body.height;
    let body = Boxed::new(alloc, body.tree)?;
    let tree = if universal {
        Expr::All(word.span.from, variables, body)
    } else {
        Expr::Ex(word.span.from, variables, body)
    };
    Ok(Found {
        tree,
        ends_open: true,
        height,
    })
}

/// An expression that speaks of the state after a step, by its word.
pub(crate) fn after_step(alloc: Global, word: Token, inner: Found) -> Result<Found, Halt>
    ensures made { Makes result (found_of (expr.New word.span.from inner.tree) false inner.height) }
{
    let tree = Expr::New(word.span.from, Boxed::new(alloc, inner.tree)?);
    Ok(closed(tree, inner.height))
}
