//! Templates of commands with a piece for each hole.

ghost use Rattle.std.specs.Prelude.{◌≡◌, ◌++◌, ◌<◌, ◌≤◌, ◌+◌, length, IfOk, OnOk, IsErrOf};
ghost use Rattle.wdl_base.specs.Templates.{joined, part_text, HasPiece, HasPieces};
ghost use Rattle.library_calls.specs.declared.filling.FillFault.TheVariants.{
  TooLarge,
  NoMemory as OutOfMemory,
};

use std::alloc::Global;
use thiserror::Error;
use wdl_value::{NoMemory, Part, Template, Text};

/// The most bytes of a filled template.
const FILL_LIMIT: usize = 65_536;

/// Why a template is not filled.
#[derive(Clone, Copy, Debug, PartialEq, Eq, Error)]
pub enum FillFault {
    /// The filled text would have more than 65,536 bytes.
    #[error("the command has more than 65,536 bytes")]
    TooLarge,
    #[error("out of memory")]
    NoMemory,
}

impl From<NoMemory> for FillFault {
    ghost from_gives = { λ _ e. e ≡ OutOfMemory };

    fn from(_e: NoMemory) -> FillFault {
        FillFault::NoMemory
    }
}

/// The text of a part, where its number is below the number of pieces.
fn text_of<'a>(part: &'a Part, pieces: &'a [Text]) -> &'a Text
    requires { HasPiece (length pieces.now) part.now }
    ensures { result.now ≡ part_text part.now pieces.now }
{
    match part {
        Part::Chars(text) => text,
        Part::Hole(hole) => &pieces[*hole as usize],
    }
}

fn append(text: &mut Text, more: &Text) -> Result<(), FillFault>
    requires { length text.old ≤ 65536 }
    ensures ok { OnOk result (text.new ≡ text.old ++ more.now) }
    ensures fits { OnOk result (length text.new ≤ 65536) }
    ensures too_large { IsErrOf result TooLarge → 65536 < length text.old + length more.now }
{
    if FILL_LIMIT - text.as_str().len() < more.as_str().len() {
        return Err(FillFault::TooLarge);
    }
    text.push_str(more.as_str())?;
    Ok(())
}

/// The template with a piece in the place of each hole, the piece k for the hole k. `TooLarge`
/// comes exactly where this text has more than 65,536 bytes, and nothing larger is built.
pub fn fill(alloc: Global, template: &Template, pieces: &[Text]) -> Result<Text, FillFault>
    requires { HasPieces (length pieces.now) template.now }
    ensures value { IfOk result (λ text. text ≡ joined template.now pieces.now) }
    ensures fits { OnOk result (length (joined template.now pieces.now) ≤ 65536) }
    ensures too_large { IsErrOf result TooLarge → 65536 < length (joined template.now pieces.now) }
{
    let mut text = Text::empty(alloc);
    for part in template.as_slice() {
        append(&mut text, text_of(part, pieces))?;
    }
    Ok(text)
}
