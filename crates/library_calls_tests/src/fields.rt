//! Fields, and the pieces that they are made of.

use cwl_model::{Piece, field_of};
use library_calls::{FieldFault, pieces_of};
use std::alloc::Global;
use std::test::Fail;

/// A field a line, and its pieces between semicolons: characters behind `c:`, inputs behind `i:`
/// and paths of inputs behind `p:`. A field that is not plain has `!`.
const FIELDS: &str = "\
a $(inputs.x) b|c:a ;i:x;c: b
$(date)|!
cat $(inputs.f.path) > out.txt|c:cat ;p:f;c: > out.txt
$(inputs.x)$(inputs.y.path)|i:x;p:y
$(inputs.x)|i:x
|
$HOME/$1|c:$HOME/$1
$|c:$
$$(inputs.x)$|c:$;i:x;c:$
(a) b)|c:(a) b)
a $(inputs.x) $(date)|!
${x}|!
$(inputs.x|!
$(inputs.x.size)|!
$(inputs.x.path.path)|!
$( inputs.x)|!
$(inputs.1x)|!
$(inputs.)|!
$(inputs.task)|!
$(x)|!
a\\b|!
\\$(inputs.x)|!
a\0b|!";

fn write_pieces(text: &mut String, pieces: &[Piece]) -> Result<(), Fail> {
    for (i, piece) in pieces.iter().enumerate() {
        if i > 0 {
            text.push(';')?;
        }
        match piece {
            Piece::Chars(chars) => {
                text.push_str("c:")?;
                text.push_str(chars.as_str())?;
            }
            Piece::Input(name) => {
                text.push_str("i:")?;
                text.push_str(name.as_str())?;
            }
            Piece::InputPath(name) => {
                text.push_str("p:")?;
                text.push_str(name.as_str())?;
            }
        }
    }
    Ok(())
}

/// The pieces of a field as the table has them, if their text is the field again.
fn answer(alloc: Global, field: &str) -> Result<String, Fail> {
    let mut text = String::new(alloc);
    match pieces_of(alloc, field) {
        Ok(pieces) => {
            write_pieces(&mut text, pieces.as_slice())?;
            if field_of(alloc, pieces.as_slice())?.as_str() != field {
                text.push_str(" has another text")?;
            }
        }
        Err(FieldFault::NotPlain) => text.push('!')?,
        Err(FieldFault::NoMemory) => text.push_str("no memory")?,
    }
    Ok(text)
}

/// The first field that is read otherwise, or nothing.
fn first_wrong<'a>(alloc: Global, table: &'a str) -> Result<&'a str, Fail> {
    for line in table.split('\n') {
        let (field, expected) = line.split_once('|').ok_or("a field")?;
        if answer(alloc, field)?.as_str() != expected {
            return Ok(line);
        }
    }
    Ok("")
}

#[test]
fn fields_have_pieces_where_they_are_plain(rt: HostRuntime) -> Result<(), Fail> {
    assert_eq!(rt; first_wrong(rt.alloc(), FIELDS)?, "");
    Ok(())
}
