use std::alloc::Global;
use wdl_value::NoMemory;

/// The most bytes of a text in double quotes that are shown.
const TEXT_BYTES: usize = 80;

/// The byte with which the control characters U+0080 to U+009F begin in UTF-8. The second one is 0x80
/// to 0x9F.
const LEAD: u8 = 0xC2;

/// A text of lines that is built up. It holds what programs wrote, so it need not be UTF-8.
#[derive(Drop)]
pub(crate) struct Note {
    alloc: Global,
    bytes: Vec<u8>,
}

/// Whether a terminal would obey a byte that follows another one: a control character, or the second
/// byte of one.
fn is_control(byte: u8, before: u8) -> bool {
    byte.is_ascii_control() || (before == LEAD && byte >= 0x80 && byte < 0xA0)
}

/// The bytes in front of the first newline, and those behind it.
fn split_line(bytes: &[u8]) -> (&[u8], &[u8]) {
    match bytes.iter().position(|byte| *byte == b'\n') {
        Some(at) => (&bytes[..at], &bytes[at + 1..]),
        None => (bytes, &[]),
    }
}

/// The last lines of the bytes, at most so many, without the newline at the end.
pub(crate) fn last_lines(bytes: &[u8], most: usize) -> &[u8] {
    let whole = match bytes {
        [front @ .., b'\n'] => front,
        _ => bytes,
    };
    let lines = whole.split(|byte| *byte == b'\n').count();
    let mut rest = whole;
    for _ in most..lines {
        rest = split_line(rest).1;
    }
    rest
}

impl Note {
    /// A note without bytes.
    pub(crate) fn new(alloc: Global) -> Note {
        Note {
            alloc,
            bytes: Vec::new(alloc),
        }
    }

    /// Appends a text.
    pub(crate) fn push(&mut self, text: &str) -> Result<(), NoMemory> {
        self.bytes.extend_from_slice(text.as_bytes())?;
        Ok(())
    }

    /// Appends a number.
    pub(crate) fn push_number(&mut self, number: u64) -> Result<(), NoMemory> {
        let digits = format!(in self.alloc; "{number}")?;
        self.push(digits.as_str())
    }

    /// Appends an Int.
    pub(crate) fn push_signed(&mut self, number: i64) -> Result<(), NoMemory> {
        let digits = format!(in self.alloc; "{number}")?;
        self.push(digits.as_str())
    }

    /// Appends a byte of a text in double quotes, which follows another one.
    fn push_escaped(&mut self, byte: u8, before: u8) -> Result<(), NoMemory> {
        match byte {
            b'\n' => self.push("\\n"),
            b'\t' => self.push("\\t"),
            b'\r' => self.push("\\r"),
            b'"' => self.push("\\\""),
            b'\\' => self.push("\\\\"),
            _ if is_control(byte, before) => self.push("?"),
            _ => Ok(self.bytes.push(byte)?),
        }
    }

    /// Appends the first bytes of a text in double quotes, with `..` behind them where there are
    /// more than 80.
    pub(crate) fn push_text(&mut self, bytes: &[u8]) -> Result<(), NoMemory> {
        self.push("\"")?;
        let mut before: u8 = 0;
        for byte in bytes.iter().take(TEXT_BYTES) {
            self.push_escaped(*byte, before)?;
            before = *byte;
        }
        self.push("\"")?;
        if bytes.len() > TEXT_BYTES {
            self.push("..")?;
        }
        Ok(())
    }

    /// Appends what a program wrote, with `?` in place of control characters but tabs, which a
    /// terminal would obey.
    fn push_bytes(&mut self, bytes: &[u8]) -> Result<(), NoMemory> {
        let mut before: u8 = 0;
        for byte in bytes {
            let shown = if is_control(*byte, before) && *byte != b'\t' {
                b'?'
            } else {
                *byte
            };
            self.bytes.push(shown)?;
            before = *byte;
        }
        Ok(())
    }

    /// Appends the first lines of the bytes, at most so many, each with an indent, and `..` where
    /// there are more.
    pub(crate) fn push_lines(&mut self, bytes: &[u8], most: usize) -> Result<(), NoMemory> {
        let mut rest = bytes;
        for _ in 0..most {
            if rest.is_empty() {
                return Ok(());
            }
            let (line, after) = split_line(rest);
            self.push("    ")?;
            self.push_bytes(line)?;
            self.push("\n")?;
            rest = after;
        }
        if !rest.is_empty() {
            self.push("    ..\n")?;
        }
        Ok(())
    }

    /// The bytes of the note.
    pub(crate) fn bytes(&self) -> &[u8] {
        self.bytes.as_slice()
    }
}
