use fo_core::{Boxed, Seq};
use pv_base::Span;

/// A variable where it is bound, and its sort, where that is told. Names are bytes of the text.
#[derive(Debug, Drop)]
pub struct Bound {
    pub name: Span,
    pub sort: Option<Span>,
}

/// An expression. Its number is the byte place of its token: of a connective or an equality its
/// sign (in a list the first sign between two members), else its reserved word.
#[derive(Debug, Drop)]
pub enum Expr {
    True(u32),
    False(u32),
    /// A name, whether brackets stand behind it, and its arguments.
    Name(Span, bool, Seq<Expr>),
    New(u32, Boxed<Expr>),
    Distinct(u32, Seq<Expr>),
    Not(u32, Boxed<Expr>),
    And(u32, Seq<Expr>),
    Or(u32, Seq<Expr>),
    Implies(u32, Boxed<Expr>, Boxed<Expr>),
    Iff(u32, Boxed<Expr>, Boxed<Expr>),
    Equal(u32, Boxed<Expr>, Boxed<Expr>),
    Unequal(u32, Boxed<Expr>, Boxed<Expr>),
    All(u32, Seq<Bound>, Boxed<Expr>),
    Ex(u32, Seq<Bound>, Boxed<Expr>),
    /// The condition, and what holds with it and without it.
    If(u32, Boxed<Expr>, Boxed<Expr>, Boxed<Expr>),
}

/// A declaration. A truth value says whether a symbol is mutable.
#[derive(Debug, Drop)]
pub enum Decl {
    Sort(Span),
    /// A relation and the sorts of its arguments.
    Relation(bool, Span, Seq<Span>),
    /// A constant and its sort.
    Constant(bool, Span, Span),
    /// A function, the sorts of its arguments and the sort of its values.
    Function(bool, Span, Seq<Span>, Span),
    Axiom(Expr),
    Init(Expr),
    Safety(Expr),
    Invariant(Expr),
    /// A transition, its parameters, the symbols that it may modify, and its body.
    Transition(Span, Seq<Bound>, Seq<Span>, Expr),
    /// A trace, which says nothing of the system.
    Trace,
}

/// The declarations of a file, in order.
#[derive(Debug, Drop)]
pub struct Model {
    pub decls: Seq<Decl>,
}
