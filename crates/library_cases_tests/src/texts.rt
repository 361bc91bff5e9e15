use command_text::dedent;
use std::alloc::Global;
use std::test::Fail;
use wdl_ast::{Fence, Kind, Mark, Quote, Token, tokens_of};
use wdl_parse_doc::{ParseFault, parse};
use wdl_value::{Items, Part, Span, Template, Text};
use wdl_words::{WordFault, read_words};

#[test]
fn an_argument_with_nul_is_invalid(rt: HostRuntime) -> Result<(), Fail> {
    let alloc = rt.alloc();
    let mut arguments = Vec::new(alloc);
    arguments.push(String::from_str(alloc, "check")?)?;
    arguments.push(String::from_str(alloc, "a\0b")?)?;
    match read_words(alloc, arguments.as_slice()) {
        Err(WordFault::Usage) => {}
        _ => assert!(rt; false),
    }
    Ok(())
}

/// The template of a line: `|` ends a part, and `~` with a digit is a hole.
fn template(alloc: Global, line: &str) -> Result<Template, Fail> {
    let mut parts = Items::new(alloc);
    for part in line.split('|') {
        match part.strip_prefix('~') {
            Some(number) => parts.push(Part::Hole(number.parse::<u32>()?))?,
            None => parts.push(Part::Chars(Text::new(alloc, part)?))?,
        }
    }
    Ok(parts)
}

/// The line of a template, in the same way.
fn line(alloc: Global, template: &Template) -> Result<String, Fail> {
    let mut line = String::new(alloc);
    for (at, part) in template.as_slice().iter().enumerate() {
        if 0 < at {
            line.push('|')?;
        }
        match part {
            Part::Chars(text) => line.push_str(text.as_str())?,
            Part::Hole(hole) => line.push_str(format!(in alloc; "~{hole}")?.as_str())?,
        }
    }
    Ok(line)
}

#[test]
fn dedent_joins_neighbouring_parts(rt: HostRuntime) -> Result<(), Fail> {
    let alloc = rt.alloc();
    let rows = [("\n  a\r|\n  b", "a\nb"), ("  a| b|~0||c", "a b|~0|c")];
    for (given, wanted) in rows {
        let found = dedent(alloc, &template(alloc, given)?)?;
        let found = line(alloc, &found)?;
        assert_eq!(rt; found.as_str(), wanted);
    }
    Ok(())
}

fn mark(piece: &str) -> Option<Mark> {
    Some(match piece {
        "{" => Mark::OpenBrace,
        "}" => Mark::CloseBrace,
        "[" => Mark::OpenBracket,
        "]" => Mark::CloseBracket,
        "," => Mark::Comma,
        ":" => Mark::Colon,
        "-" => Mark::Minus,
        _ => return None,
    })
}

/// The token that a piece of a row stands for: `"` and `;` begin and end a string, `#` is
/// characters, and `<<<` and `>>>` begin and end a command.
fn kind(alloc: Global, piece: &str) -> Result<Kind, Fail> {
    if let Some(mark) = mark(piece) {
        return Ok(Kind::Mark(mark));
    }
    Ok(match piece {
        "1.0" | "1.1" | "2.5" => Kind::Frac(Text::new(alloc, piece)?),
        "1" => Kind::Int(1),
        "\"" => Kind::StrOpen(Quote::Double),
        ";" => Kind::StrClose,
        "#" => Kind::Chars(Text::new(alloc, piece)?),
        "<<<" => Kind::CommandOpen(Fence::Angle),
        ">>>" => Kind::CommandClose,
        _ => Kind::Word(Text::new(alloc, piece)?),
    })
}

/// A token for each piece between blanks, whose span starts at the number of the piece.
fn tokens(alloc: Global, row: &str) -> Result<Items<Token>, Fail> {
    let mut tokens = Items::new(alloc);
    let mut start: u32 = 0;
    for piece in row.split_ascii_whitespace() {
        let kind = kind(alloc, piece)?;
        let span = Span {
            doc: 0,
            start,
            end: start,
        };
        start = start.saturating_add(1);
        tokens.push(Token { span, kind })?;
    }
    Ok(tokens)
}

/// Whether the document has as many tokens as the row, or its error: the code, and the number of
/// the token.
fn reading(alloc: Global, row: &str) -> Result<String, Fail> {
    let tokens = tokens(alloc, row)?;
    match parse(alloc, tokens.as_slice()) {
        Ok(document) => {
            let words = tokens_of(alloc, &document)?;
            if words.len() == tokens.len() {
                Ok(format!(in alloc; "ok")?)
            } else {
                Ok(format!(in alloc; "other tokens")?)
            }
        }
        Err(ParseFault::Bad { code, span }) => Ok(format!(in alloc; "{code} at {}", span.start)?),
        Err(ParseFault::NoMemory) => Ok(format!(in alloc; "no memory")?),
    }
}

/// Documents whose imports and values of `meta` no bundle has, and ends of strings that did not
/// begin.
const DOCUMENTS: &str = "\
version 1.1 import \" # ; import \" ; as a alias B as C alias D as E struct F { } import \" ;¦ok¶\
version 1.1 task t { meta { } parameter_meta { } command <<< >>> }¦ok¶\
version 1.1 task t { meta { a : null b : true , c : - 2.5 d : \" # ; e : { f : [ 1 , { } , [ ] , ] \
input : 1 } } command <<< >>> }¦ok¶\
version 1.1 task t { meta { Float : 2.5 Object : 1.0 object : { sub : [ 1.0 ] } read_json : 1 size \
: 1 } command <<< >>> }¦ok¶\
version 1.1 workflow w { meta { } parameter_meta { } }¦ok¶\
version 1.1 workflow w { ; }¦110 at 5¶\
version 1.1 task t { meta { a : 1 ; } }¦110 at 10";

#[test]
fn a_tree_has_the_tokens_that_no_bundle_shows(rt: HostRuntime) -> Result<(), Fail> {
    let alloc = rt.alloc();
    for row in DOCUMENTS.split('¶') {
        let (text, wanted) = row.split_once('¦').unwrap_or((row, "no row"));
        assert_eq!(rt; reading(alloc, text)?.as_str(), wanted);
    }
    Ok(())
}
