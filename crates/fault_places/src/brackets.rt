//! The brackets that are open at a place of a document.

use crate::position::bytes_before;
use crate::quoted::last_word;
use std::alloc::Global;
use wdl_value::NoMemory;

/// What opens a part of a document.
#[derive(Clone, Copy, Debug, PartialEq, Eq)]
pub enum Bracket {
    Brace,
    Square,
    Paren,
    /// `~{` or `${`, in a string or a command.
    Placeholder,
    SingleQuote,
    DoubleQuote,
    /// The `<<<` of a command.
    Fence,
    /// The `{` of a command.
    CommandBrace,
}

/// A bracket, and the byte at which it stands.
#[derive(Clone, Copy, Debug, PartialEq, Eq)]
pub struct Opening {
    pub bracket: Bracket,
    pub at: u32,
}

/// The brackets that are open at a place of a document, the outermost first, and the `}` at which
/// the last command with braces before it ended.
#[derive(Drop)]
pub struct Brackets {
    pub stack: Vec<Opening>,
    pub command_end: Option<u32>,
    comment: bool,
    escaped: bool,
    /// The byte before, where it means itself.
    previous: u8,
}

impl Bracket {
    /// How it is written; of a placeholder `~{`.
    pub fn opening(self) -> &'static str {
        match self {
            Bracket::Brace | Bracket::CommandBrace => "{",
            Bracket::Square => "[",
            Bracket::Paren => "(",
            Bracket::Placeholder => "~{",
            Bracket::SingleQuote => "'",
            Bracket::DoubleQuote => "\"",
            Bracket::Fence => "<<<",
        }
    }

    /// How what closes it is written.
    pub fn closing(self) -> &'static str {
        match self {
            Bracket::Brace | Bracket::CommandBrace | Bracket::Placeholder => "}",
            Bracket::Square => "]",
            Bracket::Paren => ")",
            Bracket::SingleQuote => "'",
            Bracket::DoubleQuote => "\"",
            Bracket::Fence => ">>>",
        }
    }
}

/// The bracket that a byte of code opens.
fn bracket_of(byte: u8, after_command: bool) -> Option<Bracket> {
    match byte {
        b'{' if after_command => Some(Bracket::CommandBrace),
        b'{' => Some(Bracket::Brace),
        b'[' => Some(Bracket::Square),
        b'(' => Some(Bracket::Paren),
        b'\'' => Some(Bracket::SingleQuote),
        b'"' => Some(Bracket::DoubleQuote),
        b'<' if after_command => Some(Bracket::Fence),
        _ => None,
    }
}

/// Whether the code before a byte asks for a command: it ends with `command`, or with `command <<`
/// where the byte is `<`.
fn asks_for_command(code: &[u8], byte: u8) -> bool {
    match byte {
        b'{' => last_word(code) == "command",
        b'<' => {
            match code.strip_suffix(b"<<") {
                Some(rest) => last_word(rest) == "command",
                None => false,
            }
        }
        _ => false,
    }
}

impl Brackets {
    /// The brackets that are open before the byte `end` of a document. They are those of any text,
    /// so they need not match.
    pub fn open_before(alloc: Global, bytes: &[u8], end: u32) -> Result<Brackets, NoMemory> {
        let mut brackets = Brackets {
            stack: Vec::new(alloc),
            command_end: None,
            comment: false,
            escaped: false,
            previous: 0,
        };
        let part = bytes_before(bytes, end);
        for at in 0..end {
            if let Some(byte) = part.get(at as usize) {
                brackets.step(part, at, *byte)?;
            }
        }
        Ok(brackets)
    }

    /// The innermost bracket.
    pub fn last(&self) -> Option<Opening> {
        self.stack.last().copied()
    }

    /// The last placeholder that is open.
    pub fn placeholder(&self) -> Option<Opening> {
        let mut found = None;
        for opening in &self.stack {
            if opening.bracket == Bracket::Placeholder {
                found = Some(*opening);
            }
        }
        found
    }

    fn push(&mut self, bracket: Bracket, at: u32) -> Result<(), NoMemory> {
        Ok(self.stack.push(Opening { bracket, at })?)
    }

    /// Takes the next byte.
    fn step(&mut self, bytes: &[u8], at: u32, byte: u8) -> Result<(), NoMemory> {
        let escaped = self.escaped;
        let inside = match self.stack.last() {
            Some(opening) => Some(opening.bracket),
            None => None,
        };
        match inside {
            Some(Bracket::SingleQuote) => self.step_string(at, byte, b'\'')?,
            Some(Bracket::DoubleQuote) => self.step_string(at, byte, b'"')?,
            Some(Bracket::Fence) => {
                let ends = byte == b'>' && bytes_before(bytes, at).ends_with(b">>");
                self.step_command(at, byte, ends)?
            }
            Some(Bracket::CommandBrace) => {
                self.step_command(at, byte, byte == b'}')?;
                if byte == b'}' {
                    self.command_end = Some(at);
                }
            }
            _ => self.step_code(bytes, at, byte)?,
        }
        self.previous = if escaped { 0 } else { byte };
        Ok(())
    }

    /// Whether a byte is the brace of a placeholder.
    fn is_hole(&self, byte: u8) -> bool {
        byte == b'{' && (self.previous == b'~' || self.previous == b'$')
    }

    fn step_string(&mut self, at: u32, byte: u8, quote: u8) -> Result<(), NoMemory> {
        if self.escaped {
            self.escaped = false;
        } else if byte == b'\\' {
            self.escaped = true;
        } else if byte == quote || byte == b'\n' {
            self.stack.pop();
        } else if self.is_hole(byte) {
            return self.push(Bracket::Placeholder, at.saturating_sub(1));
        }
        Ok(())
    }

    fn step_command(&mut self, at: u32, byte: u8, ends: bool) -> Result<(), NoMemory> {
        if ends {
            self.stack.pop();
        } else if self.is_hole(byte) {
            return self.push(Bracket::Placeholder, at.saturating_sub(1));
        }
        Ok(())
    }

    fn step_code(&mut self, bytes: &[u8], at: u32, byte: u8) -> Result<(), NoMemory> {
        if self.comment || byte == b'#' {
            self.comment = byte != b'\n';
            return Ok(());
        }
        if byte == b'}' || byte == b']' || byte == b')' {
            self.stack.pop();
            return Ok(());
        }
        match bracket_of(byte, asks_for_command(bytes_before(bytes, at), byte)) {
            Some(bracket) => self.push(bracket, at),
            None => Ok(()),
        }
    }
}
