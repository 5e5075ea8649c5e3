//! Names of jobs and events.
ghost use Rattle.std.specs.Prelude.{◌≡◌, ◌↔◌, IfOk, IfErr, IsTrue, if◌then◌else◌};
ghost use Rattle.std.specs.List.{list_all};
ghost use Rattle.std.specs.Str.{bytes_eq};
ghost use Rattle.up_value.specs.Names.{is_name, is_name_byte};

use crate::chars::Chars;
use crate::fault::TextFault;
use std::alloc::{AllocError, Global};
use std::marker::Model;

/// The name of a job or an event, seen by contracts as the list of its bytes.
#[derive(Debug)]
pub struct Name {
    chars: Chars,
}

impl Model for Name {
    ghost use Rattle.std.specs.Prelude.{◌≡◌, List, ℕ, true};
    ghost use Rattle.up_value.specs.Chars.{chars_bytes};
    ghost use Rattle.up_value.specs.Names.{is_name};

    ghost Value = { List ℕ };

    ghost view = { λ n. chars_bytes n.chars };

    ghost invariant = { λ n. is_name (chars_bytes n.chars) ≡ true };
}

#[tactic(auto, unfolding(crate::specs::Names::is_name_byte, crate::specs::Names::is_special))]
fn is_name_byte(byte: u8) -> bool
    ensures { result ≡ is_name_byte byte }
{
    matches!(byte, 0x21..=0x7E)
        && !matches!(
            byte,
            b'"' | b'\'' | b'\\' | b'(' | b')' | b'#' | b'=' | b'$'
        )
}

fn are_name_bytes(bytes: &[u8]) -> bool
    ensures { result ≡ list_all is_name_byte bytes.now }
{
    bytes.iter().all(|byte| is_name_byte(*byte))
}

/// Whether the text may be a name: one or more bytes from 0x21 to 0x7E other than `"`, `'`, `\`, `(`, `)`, `#`, `=` and `$`.
pub fn is_name(text: &str) -> bool
    ensures { result ≡ is_name text.now }
{
    !text.is_empty() && are_name_bytes(text.as_bytes())
}

// Written out, so that a caller sees one call where it drops a name, wherever the characters are.
impl Drop for Name {
    fn drop(self) {
        let Name { chars } = self;
        drop(chars);
    }
}

impl Name {
    /// Fails with `BadName` if the bytes aren't a name ([`is_name`]).
    pub fn new(alloc: Global, text: &str) -> Result<Self, TextFault>
        ensures named { IfOk result (λ name. (name ≡ text.now) × IsTrue (is_name text.now)) }
        ensures refused { IfErr result (λ fault. fault
            ≡ (if is_name text.now then TextFault.Memory else TextFault.BadName)) }
    {
        if !is_name(text) {
            return Err(TextFault::BadName);
        }
        let chars = Chars::from_str(alloc, text)?;
        Ok(Name { chars })
    }

    pub fn as_str(&self) -> &str
        ensures text { result.now ≡ self.now }
        ensures name { IsTrue (is_name self.now) }
    {
        self.chars.as_str()
    }

    pub fn is(&self, other: &Name) -> bool
        ensures test { result ≡ bytes_eq self.now other.now }
        ensures equal { IsTrue result ↔ (self.now ≡ other.now) }
    {
        self.as_str() == other.as_str()
    }

    pub fn copy(&self) -> Result<Self, AllocError>
        ensures { IfOk result (λ name. name ≡ self.now) }
    {
        let chars = self.chars.copy()?;
        Ok(Name { chars })
    }
}
