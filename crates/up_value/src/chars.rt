//! The characters of a text or a name.
ghost use Rattle.std.specs.Prelude.{◌≡◌, [], IfOk};
ghost use Rattle.up_value.specs.Chars.{chars_bytes};

use arrayvec::ArrayString;
use std::alloc::{AllocError, Global};

/// Few characters are kept in the value itself, so most names and texts take no memory of their own, and their copies none.
#[derive(Debug, Drop)]
pub(crate) enum Chars {
    Short(ArrayString<24>),
    Long(String),
}

impl Chars {
    pub(crate) fn empty() -> Self
        ensures { chars_bytes result ≡ [] }
    {
        Chars::Short(ArrayString::new())
    }

    pub(crate) fn from_str(alloc: Global, text: &str) -> Result<Self, AllocError>
        ensures { IfOk result (λ chars. chars_bytes chars ≡ text.now) }
    {
        match ArrayString::from(text) {
            Ok(short) => Ok(Chars::Short(short)),
            Err(_) => {
                let long = String::from_str(alloc, text)?;
                Ok(Chars::Long(long))
            }
        }
    }

    pub(crate) fn as_str(&self) -> &str
        ensures { result.now ≡ chars_bytes self.now }
    {
        match self {
            Chars::Short(short) => short.as_str(),
            Chars::Long(long) => long.as_str(),
        }
    }

    pub(crate) fn copy(&self) -> Result<Self, AllocError>
        ensures { IfOk result (λ chars. chars_bytes chars ≡ chars_bytes self.now) }
    {
        match self {
            Chars::Short(short) => Ok(Chars::Short(*short)),
            Chars::Long(long) => Chars::from_str(*long.allocator(), long.as_str()),
        }
    }
}
