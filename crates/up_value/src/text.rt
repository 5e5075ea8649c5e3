//! A text that contracts see as the list of its bytes.
ghost use Rattle.std.specs.Prelude.{◌≡◌, [], ◌↔◌, IfOk, IfSome, IsTrue, MatchOption, false, length, string_bytes, true};
ghost use Rattle.std.specs.Str.{bytes_eq, is_utf8};

use crate::chars::Chars;
use crate::items::Items;
use std::alloc::{AllocError, Global};
use std::marker::Model;
use std::str;

/// UTF-8 text, seen by contracts as the list of its bytes.
#[derive(Debug)]
pub struct Text {
    chars: Chars,
}

impl Model for Text {
    ghost use Rattle.std.specs.Prelude.{List, ℕ};
    ghost use Rattle.up_value.specs.Chars.{chars_bytes};

    ghost Value = { List ℕ };

    ghost view = { λ t. chars_bytes t.chars };
}

impl Clone for Text {
    ghost use Rattle.std.specs.Prelude.{◌≡◌};

    ghost is_clone = { λ s t. t ≡ s };

    fn clone(&self) -> Result<Self, AllocError> {
        self.copy()
    }
}

// Written out, so that a caller sees one call where it drops a text, wherever the characters are.
impl Drop for Text {
    fn drop(self) {
        let Text { chars } = self;
        drop(chars);
    }
}

impl Text {
    /// The text without characters. Takes no memory.
    pub fn empty() -> Self
        ensures { result ≡ [] }
    {
        Text {
            chars: Chars::empty(),
        }
    }

    /// Takes over a string without copying.
    pub fn new(text: String) -> Self
        ensures { result ≡ string_bytes text }
    {
        Text {
            chars: Chars::Long(text),
        }
    }

    pub fn from_str(alloc: Global, text: &str) -> Result<Self, AllocError>
        ensures { IfOk result (λ t. t ≡ text.now) }
    {
        let chars = Chars::from_str(alloc, text)?;
        Ok(Text { chars })
    }

    pub fn as_str(&self) -> &str
        ensures { result.now ≡ self.now }
    {
        self.chars.as_str()
    }

    pub fn is(&self, other: &str) -> bool
        ensures test { result ≡ bytes_eq self.now other.now }
        ensures equal { IsTrue result ↔ (self.now ≡ other.now) }
    {
        self.chars.as_str() == other
    }

    pub fn copy(&self) -> Result<Self, AllocError>
        ensures { IfOk result (λ t. t ≡ self.now) }
    {
        let chars = self.chars.copy()?;
        Ok(Text { chars })
    }
}

/// The bytes as a text, or `None` if they aren't UTF-8.
pub fn as_text(bytes: &[u8]) -> Option<&str>
    ensures test { MatchOption result (is_utf8 bytes.now ≡ false) (λ text. is_utf8 bytes.now ≡ true) }
    ensures same { IfSome result (λ text. text.now ≡ bytes.now) }
{
    match str::from_utf8(bytes) {
        Ok(text) => Some(text),
        Err(_) => None,
    }
}

pub fn copy_texts(alloc: Global, texts: &[Text]) -> Result<Items<Text>, AllocError>
    ensures { IfOk result (λ copied. copied ≡ texts.now) }
{
    let mut copied = Vec::with_capacity(alloc, texts.len())?;
    for text in texts {
        copied.push(text.copy()?)?;
    }
    Ok(Items::new(copied))
}
