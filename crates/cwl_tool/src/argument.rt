//! The argument of a tool: the command, with references to inputs in place of its placeholders (CWL
//! v1.2, "Parameter references").

ghost use Rattle.std.specs.Prelude.{◌≡◌, ◌++◌, List, [], IfOk, OnOk};
ghost use Rattle.std.specs.Option.{option_copied};
ghost use Rattle.cwl_image.specs.Image as image;
ghost use Rattle.cwl_model.specs.declared.tool.Piece.{Piece};
ghost use Rattle.cwl_tool.specs.Parts.{with_part};

use crate::references::reference;
use cwl_model::{CwlIn, CwlTy, Piece};
use std::alloc::Global;
use wdl_typed::{TExpr, TPart};
use wdl_value::{Items, Name, NoMemory, Text};

/// The type of the first input of that name.
fn type_at<'a>(inputs: &'a [CwlIn], name: &Name) -> Option<&'a CwlTy>
    ensures { option_copied result ≡ image.type_at inputs.now name.now }
{
    for input in inputs {
        if input.id.is(name.as_str()) {
            return Some(&input.ty);
        }
    }
    None
}

/// The reference to an input: to its path where it is a File.
fn hole_of(alloc: Global, inputs: &[CwlIn], name: &Name) -> Result<Piece, NoMemory>
    ensures { IfOk result (λ p. p ≡ image.hole_by name.now (image.type_at inputs.now name.now)) }
{
    match type_at(inputs, name) {
        Some(CwlTy::File) => Ok(Piece::InputPath(name.copy(alloc)?)),
        _ => Ok(Piece::Input(name.copy(alloc)?)),
    }
}

/// Adds the characters, if there are any.
fn close(chars: Text, pieces: &mut Items<Piece>) -> Result<(), NoMemory>
    ensures { OnOk result (pieces.new ≡ pieces.old ++ image.chars_before chars []) }
{
    if chars.as_str().len() > 0 {
        pieces.push(Piece::Chars(chars))?;
    }
    Ok(())
}

/// Adds a part behind pieces and the characters at their end, and gives the characters that are
/// then at the end.
fn add_part(
    alloc: Global,
    inputs: &[CwlIn],
    part: &TPart<TExpr>,
    mut chars: Text,
    pieces: &mut Items<Piece>,
) -> Result<Text, NoMemory>
    ensures { IfOk result (λ last. (ps : List Piece) → pieces.new ++ image.chars_before last ps ≡ pieces.old ++ image.chars_before chars (with_part inputs.now part.now ps)) }
{
    match part {
        TPart::Chars(more) => {
            chars.push_str(more.as_str())?;
            Ok(chars)
        }
        TPart::Hole(hole) => {
            let Some(key) = reference(&hole.expr) else {
                return Ok(chars);
            };
            close(chars, pieces)?;
            pieces.push(hole_of(alloc, inputs, &key.first)?)?;
            Ok(Text::empty(alloc))
        }
    }
}

/// The argument of a command. Neighbouring characters are joined, and no piece is empty.
pub fn argument_of(
    alloc: Global,
    inputs: &[CwlIn],
    parts: &[TPart<TExpr>],
) -> Result<Items<Piece>, NoMemory>
    ensures { IfOk result (λ ps. ps ≡ image.argument inputs.now parts.now) }
{
    let mut pieces = Items::new(alloc);
    let mut chars = Text::empty(alloc);
    for part in parts {
        chars = add_part(alloc, inputs, part, chars, &mut pieces)?;
    }
    close(chars, &mut pieces)?;
    Ok(pieces)
}
