//! The parts of the models' text, each appended to what is there.

ghost use Rattle.std.specs.Prelude.{◌≡◌, ◌++◌, ◌+◌, ◌<◌, ◌^◌, codes, decimal, string_bytes, OnOk};
ghost use Rattle.up_gen.specs.Models.{name_of, declaration, initially_empty, leaves, holds, joins, take_text, move_name, move_changes, move_text, back_head, back_text, safety_text};

use itoa::Buffer;
use std::alloc::AllocError;

/// Writes some words.
pub fn push_words(text: &mut String, words: &str) -> Result<(), AllocError>
    ensures { OnOk result (string_bytes text.new ≡ string_bytes text.old ++ words.now) }
{
    text.push_str(words)
}

/// Writes a number.
fn push_number(text: &mut String, number: u32) -> Result<(), AllocError>
    ensures { OnOk result (string_bytes text.new ≡ string_bytes text.old ++ decimal number) }
{
    let mut buffer = Buffer::new();
    text.push_str(buffer.format(number))
}

/// Writes the name of relation k.
fn push_name(text: &mut String, k: u32) -> Result<(), AllocError>
    ensures { OnOk result (string_bytes text.new ≡ string_bytes text.old ++ name_of k) }
{
    push_words(text, "r")?;
    push_number(text, k)
}

/// Writes the line that declares relation k.
pub fn push_declaration(text: &mut String, k: u32) -> Result<(), AllocError>
    ensures { OnOk result (string_bytes text.new ≡ string_bytes text.old ++ declaration k) }
{
    push_words(text, "mutable relation ")?;
    push_name(text, k)?;
    push_words(text, "(node)\n")
}

/// Writes the line that says that no node is in relation k at first.
pub fn push_initially_empty(text: &mut String, k: u32) -> Result<(), AllocError>
    ensures { OnOk result (string_bytes text.new ≡ string_bytes text.old ++ initially_empty k) }
{
    push_words(text, "init !")?;
    push_name(text, k)?;
    push_words(text, "(N)\n")
}

/// Writes that node n leaves relation k.
fn push_leaves(text: &mut String, k: u32) -> Result<(), AllocError>
    ensures { OnOk result (string_bytes text.new ≡ string_bytes text.old ++ leaves k) }
{
    push_words(text, "  & (new(")?;
    push_name(text, k)?;
    push_words(text, "(N)) <-> ")?;
    push_name(text, k)?;
    push_words(text, "(N) & N != n)\n")
}

/// Writes that node n joins relation k.
fn push_joins(text: &mut String, k: u32) -> Result<(), AllocError>
    ensures { OnOk result (string_bytes text.new ≡ string_bytes text.old ++ joins k) }
{
    push_words(text, "  & (new(")?;
    push_name(text, k)?;
    push_words(text, "(N)) <-> ")?;
    push_name(text, k)?;
    push_words(text, "(N) | N = n)\n")
}

/// Writes the transition by which a node takes the lock from the server.
pub fn push_take(text: &mut String) -> Result<(), AllocError>
    ensures { OnOk result (string_bytes text.new ≡ string_bytes text.old ++ take_text) }
{
    push_words(text, "transition take(n: node)\n  modifies server, r0\n")?;
    push_words(text, "  & server\n  & !new(server)\n")?;
    push_joins(text, 0)?;
    Ok(())
}

/// Writes that node n is in relation k.
fn push_holds(text: &mut String, k: u32) -> Result<(), AllocError>
    ensures { OnOk result (string_bytes text.new ≡ string_bytes text.old ++ holds k) }
{
    push_words(text, "  & ")?;
    push_name(text, k)?;
    push_words(text, "(n)\n")
}

/// Writes the first line of the transition by which the lock goes from relation k to the next.
fn push_move_name(text: &mut String, k: u32) -> Result<(), AllocError>
    ensures { OnOk result (string_bytes text.new ≡ string_bytes text.old ++ move_name k) }
{
    push_words(text, "transition move")?;
    push_number(text, k)?;
    push_words(text, "(n: node)\n")?;
    Ok(())
}

/// Writes the line of that transition that says what it changes.
fn push_move_changes(text: &mut String, k: u32) -> Result<(), AllocError>
    requires { k + 1 < 2 ^ 32 }
    ensures { OnOk result (string_bytes text.new ≡ string_bytes text.old ++ move_changes k) }
{
    push_words(text, "  modifies ")?;
    push_name(text, k)?;
    push_words(text, ", ")?;
    push_name(text, k + 1)?;
    push_words(text, "\n")
}

/// Writes the transition by which the lock goes from relation k to the next.
pub fn push_move(text: &mut String, k: u32) -> Result<(), AllocError>
    requires { k + 1 < 2 ^ 32 }
    ensures { OnOk result (string_bytes text.new ≡ string_bytes text.old ++ move_text k) }
{
    push_move_name(text, k)?;
    push_move_changes(text, k)?;
    push_holds(text, k)?;
    push_leaves(text, k)?;
    push_joins(text, k + 1)
}

/// Writes the first lines of the transition by which the lock goes back to the server.
fn push_back_head(text: &mut String, k: u32) -> Result<(), AllocError>
    ensures { OnOk result (string_bytes text.new ≡ string_bytes text.old ++ back_head k) }
{
    push_words(text, "transition back(n: node)\n  modifies server, ")?;
    push_name(text, k)?;
    push_words(text, "\n")?;
    Ok(())
}

/// Writes the transition by which the lock goes back from relation k to the server.
pub fn push_back(text: &mut String, k: u32) -> Result<(), AllocError>
    ensures { OnOk result (string_bytes text.new ≡ string_bytes text.old ++ back_text k) }
{
    push_back_head(text, k)?;
    push_holds(text, k)?;
    push_words(text, "  & new(server)\n")?;
    push_leaves(text, k)
}

/// Writes the safety: relation k has at most one node.
pub fn push_safety(text: &mut String, k: u32) -> Result<(), AllocError>
    ensures { OnOk result (string_bytes text.new ≡ string_bytes text.old ++ safety_text k) }
{
    push_words(text, "safety [one] ")?;
    push_name(text, k)?;
    push_words(text, "(X) & ")?;
    push_name(text, k)?;
    push_words(text, "(Y) -> X = Y\n")
}
