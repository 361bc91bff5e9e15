ghost use Rattle.std.specs.Prelude.{
  ◌≡◌,
  ◌++◌,
  ◌∷◌,
  true,
  false,
  [],
  ◌<◌,
  IfOk,
  OnOk,
  OnErr,
  IsErrOf,
  string_bytes,
};
ghost use Rattle.std.specs.Cmp.Lexicographic.{slice_cmp};
ghost use Rattle.std.specs.Ordering.{is_lt, nat_cmp};
ghost use Rattle.std.specs.Str.{bytes_eq};
ghost use Rattle.wdl_base.specs.Plain.{has_nul};
ghost use Rattle.wdl_base.specs.declared.error.TextFault.TheVariants.{Nul};

use crate::error::{NoMemory, TextFault};
use std::alloc::Global;
use std::marker::Model;

/// A text without the character NUL, seen as its bytes.
#[derive(Debug, Drop)]
pub struct Text {
    text: String,
}

impl Model for Text {
    ghost use Rattle.std.specs.Prelude.{◌≡◌, false, ℕ, List, string_bytes};
    ghost use Rattle.wdl_base.specs.Plain.{has_nul};

    ghost Value = { List ℕ };

    ghost view = { λ t. string_bytes t.text };

    ghost invariant = { λ t. has_nul (string_bytes t.text) ≡ false };
}

/// Whether the bytes hold NUL.
pub fn holds_nul(bytes: &[u8]) -> bool
    ensures { result ≡ has_nul bytes.now }
{
    for byte in bytes {
        if *byte == 0 {
            return true;
        }
    }
    false
}

impl Text {
    /// The text of a string. It is refused as `Nul` exactly where the string holds NUL.
    pub fn new(alloc: Global, s: &str) -> Result<Text, TextFault>
        ensures value { IfOk result (λ t. t ≡ s.now) }
        ensures plain { OnOk result (has_nul s.now ≡ false) }
        ensures nul { IsErrOf result Nul → has_nul s.now ≡ true }
    {
        if holds_nul(s.as_bytes()) {
            return Err(TextFault::Nul);
        }
        Ok(Text {
            text: String::from_str(alloc, s)?,
        })
    }

    /// The text of a string that is known to have no NUL.
    pub fn from_plain(alloc: Global, s: &str) -> Result<Text, NoMemory>
        requires { has_nul s.now ≡ false }
        ensures { IfOk result (λ t. t ≡ s.now) }
    {
        Ok(Text {
            text: String::from_str(alloc, s)?,
        })
    }

    /// The same for an owned string, which is moved.
    pub fn from_string(text: String) -> Text
        requires { has_nul (string_bytes text) ≡ false }
        ensures { result ≡ string_bytes text }
    {
        Text { text }
    }

    /// The text without bytes.
    pub fn empty(alloc: Global) -> Text
        ensures { result ≡ [] }
    {
        Text {
            text: String::new(alloc),
        }
    }

    /// The text as a string, which holds no NUL.
    pub fn as_str(&self) -> &str
        ensures value { result.now ≡ self.now }
        ensures plain { has_nul result.now ≡ false }
    {
        self.text.as_str()
    }

    /// A copy of the text.
    pub fn copy(&self, alloc: Global) -> Result<Text, NoMemory>
        ensures { IfOk result (λ t. t ≡ self.now) }
    {
        Ok(Text {
            text: String::from_str(alloc, self.text.as_str())?,
        })
    }

    /// Whether both texts have the same bytes.
    pub fn same(&self, other: &Text) -> bool
        ensures { result ≡ bytes_eq self.now other.now }
    {
        self.text.as_str() == other.text.as_str()
    }

    /// Whether the text is before another one, by their bytes.
    pub fn is_before(&self, other: &Text) -> bool
        ensures { result ≡ is_lt (slice_cmp nat_cmp self.now other.now) }
    {
        self.text.as_str().cmp(other.text.as_str()).is_lt()
    }

    /// Whether the text is this word.
    pub fn is(&self, word: &str) -> bool
        ensures { result ≡ bytes_eq self.now word.now }
    {
        self.text.as_str() == word
    }

    /// Appends a string that has no NUL.
    pub fn push_str(&mut self, more: &str) -> Result<(), NoMemory>
        requires { has_nul more.now ≡ false }
        ensures ok { OnOk result (self.new ≡ self.old ++ more.now) }
        ensures err { OnErr result (self.new ≡ self.old) }
    {
        self.text.push_str(more)?;
        Ok(())
    }

    /// Appends an ASCII character other than NUL.
    pub fn push_ascii(&mut self, byte: u8) -> Result<(), NoMemory>
        requires ascii { byte < 128 }
        requires plain { 0 < byte }
        ensures ok { OnOk result (self.new ≡ self.old ++ byte ∷ []) }
        ensures err { OnErr result (self.new ≡ self.old) }
    {
        self.text.push(char::from(byte))?;
        Ok(())
    }
}
