//! The text of a field with references.

ghost use Rattle.std.specs.Prelude.{◌≡◌, ◌++◌, ◌∷◌, codes, IfOk, OnOk, false};
ghost use Rattle.wdl_base.specs.Plain.{has_nul};
ghost use Rattle.cwl_model.specs.Fields as spec;

use crate::tool::Piece;
use std::alloc::Global;
use wdl_base::{Name, NoMemory, Text};

/// Appends a reference to an input, with what stands behind its name.
fn push_reference(text: &mut Text, name: &Name, end: &str) -> Result<(), NoMemory>
    requires { has_nul end.now ≡ false }
    ensures { OnOk result (text.new ≡ text.old ++ 36 ∷ (codes "(inputs." ++ (name.now ++ end.now))) }
{
    text.push_str("$(inputs.")?;
    text.push_str(name.as_str())?;
    text.push_str(end)
}

/// Appends the text of a piece.
fn push_piece(text: &mut Text, piece: &Piece) -> Result<(), NoMemory>
    ensures { OnOk result (text.new ≡ text.old ++ spec.piece_field piece.now) }
{
    match piece {
        Piece::Chars(chars) => text.push_str(chars.as_str()),
        Piece::Input(name) => push_reference(text, name, ")"),
        Piece::InputPath(name) => push_reference(text, name, ".path)"),
    }
}

/// The field that has these pieces: references are written `$(inputs.NAME)` and
/// `$(inputs.NAME.path)`.
pub fn field_of(alloc: Global, pieces: &[Piece]) -> Result<Text, NoMemory>
    ensures value { IfOk result (λ t. t ≡ spec.field_text pieces.now) }
{
    let mut text = Text::empty(alloc);
    for piece in pieces {
        push_piece(&mut text, piece)?;
    }
    Ok(text)
}
