//! A text read as JSON, byte by byte: where it is none, and which members are given twice.

use crate::object::Open;
use crate::word::is_word;
use std::alloc::Global;
use wdl_base::NoMemory;

/// The most repeated members that are kept.
const MOST_REPEATED: usize = 5;

/// What may come next between tokens.
#[derive(Clone, Copy, Debug, PartialEq, Eq)]
pub(crate) enum Expected {
    /// The object of the inputs.
    Whole,
    /// The value of a member.
    Value,
    /// A value or `]`.
    FirstItem,
    /// A value after `,`.
    Item,
    /// A name or `}`.
    FirstName,
    /// A name after `,`.
    Name,
    Colon,
    /// `,` or `}`.
    NextMember,
    /// `,` or `]`.
    NextItem,
    End,
}

/// Why a text is no JSON.
#[derive(Clone, Copy, Debug, PartialEq, Eq)]
pub(crate) enum Cause {
    /// Something else was expected.
    Unexpected(Expected),
    /// A string without a closing quote in its line.
    OpenText,
    /// A `\` with a character that it does not escape.
    Escape,
    /// A control character in a string.
    Control,
    /// `//`, `/*` or `#`.
    Comment,
}

/// A fault: the byte at which it is, and its cause.
#[derive(Clone, Copy, Debug, PartialEq, Eq)]
pub(crate) struct Fault {
    pub(crate) at: usize,
    pub(crate) cause: Cause,
}

/// The token that is being read, from its first byte on.
#[derive(Clone, Copy, Debug, PartialEq, Eq)]
enum Token {
    None,
    Text { start: usize, escaped: bool },
    Word { start: usize },
}

/// A member that was given before in its object: the byte at which its name begins, and the name.
#[derive(Drop)]
pub(crate) struct Repeated {
    pub(crate) at: usize,
    pub(crate) name: String,
}

/// What was read of a text.
#[derive(Drop)]
pub(crate) struct Scan<'t> {
    alloc: Global,
    text: &'t [u8],
    open: Vec<Open>,
    expected: Expected,
    token: Token,
    pub(crate) repeated: Vec<Repeated>,
}

/// A fault where something else was expected.
fn unexpected(at: usize, expected: Expected) -> Option<Fault> {
    Some(Fault {
        at,
        cause: Cause::Unexpected(expected),
    })
}

fn at_fault(at: usize, cause: Cause) -> Option<Fault> {
    Some(Fault { at, cause })
}

/// Whether a value may come next.
fn takes_value(expected: Expected) -> bool {
    matches!(
        expected,
        Expected::Whole | Expected::Value | Expected::FirstItem | Expected::Item
    )
}

/// Whether a name may come next.
fn takes_name(expected: Expected) -> bool {
    matches!(expected, Expected::FirstName | Expected::Name)
}

/// Whether a byte ends a number or a name without quotes.
fn is_end(byte: u8) -> bool {
    byte.is_ascii_whitespace() || matches!(byte, b',' | b':' | b'[' | b']' | b'{' | b'}' | b'"')
}

/// Whether a `\` may stand in front of a byte.
fn is_escape(byte: u8) -> bool {
    matches!(
        byte,
        b'"' | b'\\' | b'/' | b'b' | b'f' | b'n' | b'r' | b't' | b'u'
    )
}

impl<'t> Scan<'t> {
    fn new(alloc: Global, text: &'t [u8]) -> Scan<'t> {
        Scan {
            alloc,
            text,
            open: Vec::new(alloc),
            expected: Expected::Whole,
            token: Token::None,
            repeated: Vec::new(alloc),
        }
    }

    /// What comes after a value.
    fn after_value(&self) -> Expected {
        match self.open.last() {
            Some(open) if open.is_object() => Expected::NextMember,
            Some(_) => Expected::NextItem,
            None => Expected::End,
        }
    }

    /// Keeps the name of a member in its object.
    fn name(&mut self, start: usize, end: usize) -> Result<(), NoMemory> {
        let bytes = self.text.get(start.saturating_add(1)..end).unwrap_or(&[]);
        let Ok(name) = std::str::from_utf8(bytes) else {
            return Ok(());
        };
        let Some(open) = self.open.last_mut() else {
            return Ok(());
        };
        let is_new = open.add(self.alloc, name)?;
        if !is_new && self.repeated.len() < MOST_REPEATED {
            let name = String::from_str(self.alloc, name)?;
            self.repeated.push(Repeated { at: start, name })?;
        }
        Ok(())
    }

    /// Ends a string.
    fn end_text(&mut self, start: usize, at: usize) -> Result<(), NoMemory> {
        self.token = Token::None;
        if takes_name(self.expected) {
            self.expected = Expected::Colon;
            return self.name(start, at);
        }
        self.expected = self.after_value();
        Ok(())
    }

    /// Reads a byte of a string.
    fn in_text(
        &mut self,
        at: usize,
        byte: u8,
        start: usize,
        escaped: bool,
    ) -> Result<Option<Fault>, NoMemory> {
        if escaped {
            self.token = Token::Text {
                start,
                escaped: false,
            };
            let place = at.saturating_sub(1);
            return Ok(if is_escape(byte) {
                None
            } else {
                at_fault(place, Cause::Escape)
            });
        }
        match byte {
            b'"' => self.end_text(start, at)?,
            b'\\' => {
                self.token = Token::Text {
                    start,
                    escaped: true,
                }
            }
            b'\n' | b'\r' => return Ok(at_fault(start, Cause::OpenText)),
            0..=31 => return Ok(at_fault(at, Cause::Control)),
            _ => {}
        }
        Ok(None)
    }

    /// Ends a number or a name without quotes.
    fn end_word(&mut self, start: usize, end: usize) -> Option<Fault> {
        self.token = Token::None;
        let word = self.text.get(start..end).unwrap_or(&[]);
        if !is_word(word) {
            return unexpected(start, self.expected);
        }
        self.expected = self.after_value();
        None
    }

    /// Reads `{` or `[`.
    fn opens(&mut self, at: usize, is_object: bool) -> Result<Option<Fault>, NoMemory> {
        if !takes_value(self.expected) {
            return Ok(unexpected(at, self.expected));
        }
        self.open.push(Open::new(self.alloc, is_object))?;
        self.expected = if is_object {
            Expected::FirstName
        } else {
            Expected::FirstItem
        };
        Ok(None)
    }

    /// Reads `}` or `]`.
    fn closes(&mut self, at: usize, is_object: bool) -> Option<Fault> {
        let fits = match self.expected {
            Expected::FirstName | Expected::NextMember => is_object,
            Expected::FirstItem | Expected::NextItem => !is_object,
            _ => false,
        };
        if !fits {
            return unexpected(at, self.expected);
        }
        let _ = self.open.pop();
        self.expected = self.after_value();
        None
    }

    /// Reads `,`.
    fn comma(&mut self, at: usize) -> Option<Fault> {
        self.expected = match self.expected {
            Expected::NextMember => Expected::Name,
            Expected::NextItem => Expected::Item,
            expected => return unexpected(at, expected),
        };
        None
    }

    /// Reads `:`.
    fn colon(&mut self, at: usize) -> Option<Fault> {
        if self.expected != Expected::Colon {
            return unexpected(at, self.expected);
        }
        self.expected = Expected::Value;
        None
    }

    /// Reads the first byte of a string.
    fn quote(&mut self, at: usize) -> Option<Fault> {
        if !takes_value(self.expected) && !takes_name(self.expected) {
            return unexpected(at, self.expected);
        }
        self.token = Token::Text {
            start: at,
            escaped: false,
        };
        None
    }

    /// Reads the first byte of a number or of a name without quotes.
    fn word(&mut self, at: usize, byte: u8) -> Option<Fault> {
        let starts = matches!(byte, b'-' | b'0'..=b'9' | b't' | b'f' | b'n');
        match self.expected {
            Expected::Value | Expected::FirstItem | Expected::Item => {}
            Expected::Whole if starts => {}
            expected => return unexpected(at, expected),
        }
        self.token = Token::Word { start: at };
        None
    }

    /// Reads a byte between tokens.
    fn between(&mut self, at: usize, byte: u8) -> Result<Option<Fault>, NoMemory> {
        Ok(match byte {
            b' ' | b'\t' | b'\n' | b'\r' => None,
            b'{' => self.opens(at, true)?,
            b'[' => self.opens(at, false)?,
            b'}' => self.closes(at, true),
            b']' => self.closes(at, false),
            b',' => self.comma(at),
            b':' => self.colon(at),
            b'"' => self.quote(at),
            b'/' | b'#' => at_fault(at, Cause::Comment),
            _ => self.word(at, byte),
        })
    }

    /// Reads a byte.
    fn read(&mut self, at: usize, byte: u8) -> Result<Option<Fault>, NoMemory> {
        match self.token {
            Token::Text { start, escaped } => self.in_text(at, byte, start, escaped),
            Token::Word { .. } if !is_end(byte) => Ok(None),
            Token::Word { start } => match self.end_word(start, at) {
                Some(fault) => Ok(Some(fault)),
                None => self.between(at, byte),
            },
            Token::None => self.between(at, byte),
        }
    }

    /// Reads the end of the text.
    fn end(&mut self) -> Option<Fault> {
        match self.token {
            Token::Text { start, .. } => return at_fault(start, Cause::OpenText),
            Token::Word { start } => {
                let fault = self.end_word(start, self.text.len());
                if fault.is_some() {
                    return fault;
                }
            }
            Token::None => {}
        }
        if self.expected == Expected::End {
            None
        } else {
            unexpected(self.text.len(), self.expected)
        }
    }

    /// Reads the text up to its first fault.
    fn run(&mut self) -> Result<Option<Fault>, NoMemory> {
        let text = self.text;
        for (at, byte) in text.iter().enumerate() {
            if let Some(fault) = self.read(at, *byte)? {
                return Ok(Some(fault));
            }
        }
        Ok(self.end())
    }
}

/// Returns the first fault of a text as JSON, as far as it is found.
pub(crate) fn fault_in(alloc: Global, text: &[u8]) -> Result<Option<Fault>, NoMemory> {
    Scan::new(alloc, text).run()
}

/// Returns the first few members of a text that are given again in their object.
pub(crate) fn repeated_in(alloc: Global, text: &[u8]) -> Result<Vec<Repeated>, NoMemory> {
    let mut scan = Scan::new(alloc, text);
    let _ = scan.run()?;
    Ok(scan.repeated)
}
