ghost use Rattle.std.specs.Prelude.{◌≡◌, OnOk, IfErr};
ghost use Rattle.pyv_grammar.specs.Reading.{found as found_of};
ghost use Rattle.pyv_parse.specs.declared.halt.Halt.TheVariants as halt;
ghost use Rattle.pyv_parse.specs.Gives.{no_members, put_member, sign_of, node_for};

use crate::halt::Halt;
use fo_core::Seq;
use pyv_grammar::{Expr, Found};
use pyv_lex::{Kind, Token};
use std::alloc::Global;

/// A connective that joins any number of operands.
#[derive(Clone, Copy, Debug, PartialEq, Eq)]
pub enum Connective {
    And,
    Or,
}

/// Its sign.
pub(crate) fn sign(connective: Connective) -> Kind
    ensures { result ≡ sign_of connective }
{
    match connective {
        Connective::And => Kind::Amp,
        Connective::Or => Kind::Bar,
    }
}

/// Operands or arguments that were read: their trees, whether the last one ends open, and the
/// greatest height.
#[derive(Debug, Drop)]
pub struct Members {
    pub trees: Seq<Expr>,
    pub ends_open: bool,
    pub height: u32,
}

pub(crate) fn no_members(alloc: Global) -> Members
    ensures { result ≡ no_members }
{
    Members {
        trees: Seq::new(alloc),
        ends_open: false,
        height: 0,
    }
}

/// Puts one behind the others.
pub(crate) fn put(members: &mut Members, found: Found) -> Result<(), Halt>
    ensures ok { OnOk result (members.new ≡ put_member members.old found) }
    ensures err { IfErr result (λ e. e ≡ halt.Memory) }
{
    let Found {
        tree,
        ends_open,
        height,
    } = found;
    members.trees.push(tree)?;
    members.ends_open = ends_open;
    members.height = members.height.max(height);
    Ok(())
}

/// The expression of a connective over members, whose first sign between two is this token.
pub(crate) fn join(connective: Connective, sign: Token, members: Members) -> Found
    ensures { result ≡ found_of (node_for connective sign.span.from members.trees) members.ends_open members.height }
{
    let Members {
        trees,
        ends_open,
        height,
    } = members;
    let tree = match connective {
        Connective::And => Expr::And(sign.span.from, trees),
        Connective::Or => Expr::Or(sign.span.from, trees),
    };
    Found {
        tree,
        ends_open,
        height,
    }
}
