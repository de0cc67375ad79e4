ghost use Rattle.std.specs.Prelude.{◌≡◌, ◌++◌, ◌-◌, ◌<◌, ◌≤◌, ◌^◌, length, string_bytes, IfOk, OnOk};
ghost use Rattle.std.specs.List.{flat_map, range_with_len};
ghost use Rattle.up_gen.specs.Models.{declaration, initially_empty, move_text, states_text, transitions_text, model_text_of};

use crate::parts::{
    push_back, push_declaration, push_initially_empty, push_move, push_safety, push_take,
    push_words,
};
use fo_core::Text;
use std::alloc::{AllocError, Global};

/// The most relations of nodes that a model has.
pub const MOST_RELATIONS: u32 = 8;

/// Writes the declarations of the relations.
fn push_declarations(text: &mut String, count: u32) -> Result<(), AllocError>
    ensures { OnOk result (string_bytes text.new
        ≡ string_bytes text.old ++ flat_map declaration (range_with_len 0 count)) }
{
    'each: for k in 0..count {
        push_declaration(text, k)?;
    }
    Ok(())
}

/// Writes the initial states of the relations.
fn push_inits(text: &mut String, count: u32) -> Result<(), AllocError>
    ensures { OnOk result (string_bytes text.new
        ≡ string_bytes text.old ++ flat_map initially_empty (range_with_len 0 count)) }
{
    'each: for k in 0..count {
        push_initially_empty(text, k)?;
    }
    Ok(())
}

/// Writes the transitions by which the lock goes from one relation to the next.
fn push_moves(text: &mut String, count: u32) -> Result<(), AllocError>
    ensures { OnOk result (string_bytes text.new
        ≡ string_bytes text.old ++ flat_map move_text (range_with_len 0 count)) }
{
    'each: for k in 0..count {
        push_move(text, k)?;
    }
    Ok(())
}

/// Appends what the states of the model are, and which are initial.
fn push_states(text: &mut String, n: u32) -> Result<(), AllocError>
    ensures { OnOk result (string_bytes text.new ≡ string_bytes text.old ++ states_text n) }
{
    push_words(text, "sort node\nmutable relation server\n")?;
    push_declarations(text, n)?;
    push_words(text, "init server\n")?;
    push_inits(text, n)?;
    Ok(())
}

/// Appends the transitions of the model.
fn push_transitions(text: &mut String, n: u32) -> Result<(), AllocError>
    requires { 1 ≤ n }
    ensures { OnOk result (string_bytes text.new ≡ string_bytes text.old ++ transitions_text n) }
{
    push_take(text)?;
    push_moves(text, n - 1)?;
    push_back(text, n - 1)
}

/// Appends the model of n relations.
fn push_model(text: &mut String, n: u32) -> Result<(), AllocError>
    requires { 1 ≤ n }
    ensures { OnOk result (string_bytes text.new ≡ string_bytes text.old ++ model_text_of n) }
{
    push_states(text, n)?;
    push_transitions(text, n)?;
    push_safety(text, n - 1)
}

/// The text of the model of n relations: a lock that a node takes from the server and that goes
/// through n relations, one after the other, before it comes back. The safety is that the last
/// relation never has two nodes. It grows with n, and so does each invariant that shows it safe.
///
/// It asks for an n from 1 to [`MOST_RELATIONS`]. The text has at most 2,000 bytes. The one error is
/// out of memory.
pub fn model_text(alloc: Global, n: u32) -> Result<Text, AllocError>
    requires low { 1 ≤ n }
    requires high { n ≤ MOST_RELATIONS }
    ensures text { IfOk result (λ text. text ≡ model_text_of n) }
    ensures short { IfOk result (λ text. length text ≤ 2000) }
{
    let mut text = String::new(alloc);
    push_model(&mut text, n)?;
    Ok(Text::from_string(text))
}
