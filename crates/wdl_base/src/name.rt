ghost use Rattle.std.specs.Prelude.{◌≡◌, true, false, None, IfOk, OnOk, IsErrOf};
ghost use Rattle.std.specs.Str.{bytes_eq};
ghost use Rattle.wdl_base.specs.Names.{is_name, is_word_from, is_word};
ghost use Rattle.wdl_base.specs.Plain.{has_nul};
ghost use Rattle.wdl_base.specs.declared.error.NameFault.TheVariants.{NotAName};

use crate::error::{NameFault, NoMemory};
use crate::reserved::is_reserved;
use crate::text::Text;
use std::alloc::Global;
use std::marker::Model;

/// An identifier: an ASCII letter followed by ASCII letters, digits and `_`, at most 128 bytes and
/// no reserved word. It is seen as its bytes.
#[derive(Debug, Drop)]
pub struct Name {
    text: String,
}

impl Model for Name {
    ghost use Rattle.std.specs.Prelude.{◌≡◌, true, ℕ, List, string_bytes};
    ghost use Rattle.wdl_base.specs.Names.{is_name};

    ghost Value = { List ℕ };

    ghost view = { λ t. string_bytes t.text };

    ghost invariant = { λ t. is_name (string_bytes t.text) ≡ true };
}

fn goes_on(bytes: &[u8]) -> bool
    ensures { result ≡ is_word_from bytes.now }
{
    for byte in bytes {
        if !(byte.is_ascii_alphanumeric() || *byte == b'_') {
            return false;
        }
    }
    true
}

/// Whether the bytes are an ASCII letter followed by ASCII letters, digits and `_`.
pub fn is_identifier(bytes: &[u8]) -> bool
    ensures { result ≡ is_word bytes.now }
{
    match bytes {
        [] => false,
        [first, rest @ ..] => first.is_ascii_alphabetic() && goes_on(rest),
    }
}

impl Name {
    /// The name of that spelling. It is refused as `NotAName` exactly where the string is no
    /// identifier of at most 128 bytes, or is a reserved word.
    pub fn new(alloc: Global, s: &str) -> Result<Name, NameFault>
        ensures value { IfOk result (λ n. n ≡ s.now) }
        ensures named { OnOk result (is_name s.now ≡ true) }
        ensures refused { IsErrOf result NotAName → is_name s.now ≡ false }
    {
        if s.len() <= 128 && is_identifier(s.as_bytes()) && !is_reserved(s) {
            return Ok(Name {
                text: String::from_str(alloc, s)?,
            });
        }
        Err(NameFault::NotAName)
    }

    /// The name as a string.
    pub fn as_str(&self) -> &str
        ensures value { result.now ≡ self.now }
        ensures named { is_name result.now ≡ true }
        ensures plain { has_nul result.now ≡ false }
    {
        self.text.as_str()
    }

    /// A copy of the value.
    pub fn copy(&self, alloc: Global) -> Result<Name, NoMemory>
        ensures { IfOk result (λ n. n ≡ self.now) }
    {
        Ok(Name {
            text: String::from_str(alloc, self.text.as_str())?,
        })
    }

    /// Whether both are the same name.
    pub fn same(&self, other: &Name) -> bool
        ensures { result ≡ bytes_eq self.now other.now }
    {
        self.text.as_str() == other.text.as_str()
    }

    /// Whether the name is this word.
    pub fn is(&self, word: &str) -> bool
        ensures { result ≡ bytes_eq self.now word.now }
    {
        self.text.as_str() == word
    }

    /// The name as a text: a name holds no NUL.
    pub fn to_text(&self, alloc: Global) -> Result<Text, NoMemory>
        ensures { IfOk result (λ t. t ≡ self.now) }
    {
        Text::from_plain(alloc, self.as_str())
    }
}

/// What an expression refers to: `x`, or `call.output`.
#[derive(Debug, Drop)]
pub struct Key {
    pub first: Name,
    pub second: Option<Name>,
}

impl Key {
    /// The reference `name`.
    pub fn plain(alloc: Global, name: &Name) -> Result<Key, NoMemory>
        ensures { IfOk result (λ k. k ≡ record { first = name.now; second = None }) }
    {
        Ok(Key {
            first: name.copy(alloc)?,
            second: None,
        })
    }

    /// A copy of the value.
    pub fn copy(&self, alloc: Global) -> Result<Key, NoMemory>
        ensures { IfOk result (λ k. k ≡ self.now) }
    {
        let first = self.first.copy(alloc)?;
        match &self.second {
            Some(second) => Ok(Key {
                first,
                second: Some(second.copy(alloc)?),
            }),
            None => Ok(Key {
                first,
                second: None,
            }),
        }
    }
}
