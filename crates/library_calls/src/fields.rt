//! Fields with references, and the pieces that they are made of.

ghost use Rattle.std.specs.Prelude.{◌≡◌, ◌++◌, OnOk, IsErrOf, true, false};
ghost use Rattle.library_calls.specs.Fields as spec;
ghost use Rattle.library_calls.specs.declared.fields.FieldFault.TheVariants.{
  NotPlain,
  NoMemory as OutOfMemory,
};

use cwl_model::Piece;
use std::alloc::{AllocError, Global};
use thiserror::Error;
use wdl_value::{Items, Name, NameFault, NoMemory, Text};

/// Why a string is no field of this profile.
#[derive(Clone, Copy, Debug, PartialEq, Eq, Error)]
pub enum FieldFault {
    /// It holds NUL, a backslash, `${`, or a `$(` that begins no reference.
    #[error("the text holds NUL, a backslash, or a `$` that begins no reference")]
    NotPlain,
    #[error("out of memory")]
    NoMemory,
}

impl From<NoMemory> for FieldFault {
    ghost from_gives = { λ _ e. e ≡ OutOfMemory };

    fn from(_e: NoMemory) -> FieldFault {
        FieldFault::NoMemory
    }
}

impl From<AllocError> for FieldFault {
    ghost from_gives = { λ _ e. e ≡ OutOfMemory };

    fn from(_e: AllocError) -> FieldFault {
        FieldFault::NoMemory
    }
}

/// Whether a text begins with NUL, a backslash or `${`.
fn begins_refused(bytes: &[u8]) -> bool
    ensures { result ≡ spec.begins_refused bytes.now }
{
    match bytes {
        [0 | b'\\', ..] => true,
        [b'$', b'{', ..] => true,
        _ => false,
    }
}

/// Whether a text holds NUL, a backslash or `${`.
fn holds_refused(bytes: &[u8]) -> bool
    ensures { result ≡ spec.holds_refused bytes.now }
{
    let mut rest = bytes;
    'chars: while let [_, more @ ..] = rest {
        if begins_refused(rest) {
            return true;
        }
        rest = more;
    }
    false
}

/// Appends characters as a piece; nothing where there are none.
fn push_chars(alloc: Global, pieces: &mut Items<Piece>, chars: &str) -> Result<(), FieldFault>
    ensures ok { OnOk result (pieces.new ≡ pieces.old ++ spec.chars_piece chars.now) }
    ensures plain { OnOk result (spec.holds_refused chars.now ≡ false) }
    ensures refused { IsErrOf result NotPlain → spec.holds_refused chars.now ≡ true }
{
    if holds_refused(chars.as_bytes()) {
        return Err(FieldFault::NotPlain);
    }
    if !chars.is_empty() {
        pieces.push(Piece::Chars(Text::from_plain(alloc, chars)?))?;
    }
    Ok(())
}

fn name_of(alloc: Global, word: &str) -> Result<Name, FieldFault>
    ensures { spec.NameReads word.now result }
{
    match Name::new(alloc, word) {
        Ok(name) => Ok(name),
        Err(NameFault::NotAName) => Err(FieldFault::NotPlain),
        Err(NameFault::NoMemory) => Err(FieldFault::NoMemory),
    }
}

/// The reference between `$(` and `)`.
fn reference_of(alloc: Global, word: &str) -> Result<Piece, FieldFault>
    ensures { spec.ReferenceReads word.now result }
{
    let Some(path) = word.strip_prefix("inputs.") else {
        return Err(FieldFault::NotPlain);
    };
    match path.strip_suffix(".path") {
        Some(name) => Ok(Piece::InputPath(name_of(alloc, name)?)),
        None => Ok(Piece::Input(name_of(alloc, path)?)),
    }
}

/// The pieces of a field: characters, with neighbours joined and none empty, and references (CWL
/// v1.2 CommandLineTool, "Parameter references"). The field is refused as `NotPlain` exactly where
/// it holds NUL, a backslash, `${`, or a `$(` that begins neither `$(inputs.NAME)` nor
/// `$(inputs.NAME.path)`, where NAME is an identifier of at most 128 bytes and no reserved word.
pub fn pieces_of(alloc: Global, field: &str) -> Result<Items<Piece>, FieldFault>
    ensures value { spec.PiecesRead field.now result }
{
    let mut pieces = Items::new(alloc);
    let mut rest = field;
    'references: while let Some((chars, more)) = rest.split_once("$(") {
        push_chars(alloc, &mut pieces, chars)?;
        let Some((word, behind)) = more.split_once(')') else {
            return Err(FieldFault::NotPlain);
        };
        pieces.push(reference_of(alloc, word)?)?;
        rest = behind;
    }
    push_chars(alloc, &mut pieces, rest)?;
    Ok(pieces)
}
