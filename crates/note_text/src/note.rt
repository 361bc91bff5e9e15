use shown_text::push_shown;
use std::alloc::Global;
use wdl_base::NoMemory;

/// The most characters of a quoted text that are shown. One that is escaped counts as one.
const MOST_SHOWN: usize = 120;

/// A note as it is written, piece by piece.
///
/// Where a call ends with [`NoMemory`], the note may hold some of the pieces of that call.
#[derive(Drop)]
pub struct Note {
    alloc: Global,
    text: String,
}

impl Note {
    /// A note without text.
    pub fn new(alloc: Global) -> Note {
        Note {
            alloc,
            text: String::new(alloc),
        }
    }

    /// The text so far.
    pub fn as_str(&self) -> &str {
        self.text.as_str()
    }

    /// The text.
    pub fn into_string(self) -> String {
        self.text
    }

    /// Appends a text.
    pub fn push(&mut self, text: &str) -> Result<(), NoMemory> {
        Ok(self.text.push_str(text)?)
    }

    /// Appends some texts, one after the other.
    pub fn push_all(&mut self, pieces: &[&str]) -> Result<(), NoMemory> {
        for piece in pieces {
            self.push(piece)?;
        }
        Ok(())
    }

    /// Appends a number in decimal.
    pub fn push_number(&mut self, number: usize) -> Result<(), NoMemory> {
        let digits = format!(in self.alloc; "{number}")?;
        self.push(digits.as_str())
    }

    /// Appends what a person wrote, with its control characters escaped as in a status line, and
    /// `..` in place of what follows 120 characters.
    pub fn push_given(&mut self, text: &str) -> Result<(), NoMemory> {
        for c in text.chars().take(MOST_SHOWN) {
            push_shown(&mut self.text, c)?;
        }
        if text.chars().nth(MOST_SHOWN).is_some() {
            self.push("..")?;
        }
        Ok(())
    }

    /// Appends what a person wrote, in backquotes.
    pub fn push_name(&mut self, text: &str) -> Result<(), NoMemory> {
        self.push("`")?;
        self.push_given(text)?;
        self.push("`")
    }

    /// Appends what a person wrote, in double quotes.
    pub fn push_quoted(&mut self, text: &str) -> Result<(), NoMemory> {
        self.push("\"")?;
        self.push_given(text)?;
        self.push("\"")
    }
}
