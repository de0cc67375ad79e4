use crate::tree::Expr;

/// An expression as it is read: its tree, whether it ends with the body of a quantifier or the
/// last part of a conditional outside brackets, and how high `<->` and `if` stand in each other.
#[derive(Debug, Drop)]
pub struct Found {
    pub tree: Expr,
    pub ends_open: bool,
    pub height: u32,
}

/// Where reading stopped: how many tokens are left, the one at fault first among them.
#[derive(Clone, Copy, Debug, PartialEq, Eq)]
pub enum Stuck {
    /// No tree goes on by the token.
    Bad(usize),
    /// A tree goes on by it only under larger limits.
    Deep(usize),
}
