//! A text under construction.
ghost use Rattle.std.specs.Prelude.{◌≡◌, ◌++◌, ◌⊎◌, ℕ, List, [], Some, None, IfOk, if◌then◌else◌, string_bytes};
ghost use Rattle.up_value.specs.Values.{Bytes};
ghost use Rattle.up_text.specs.Lexer.{Holds};

use std::alloc::{AllocError, Global};
use std::marker::Model;
use up_value::Text;

/// A text under construction. Running out of memory is only noted here, so that the rest is still read, and a fault there is reported
/// instead of `Memory`.
#[derive(Debug, Drop)]
pub struct Draft {
    text: String,
    refused: bool,
}

impl Model for Draft {
    ghost use Rattle.std.specs.Prelude.{List, ℕ, Option};

    ghost Value = { Option (List ℕ) };

    ghost use Rattle.up_text.specs.Lexer.{draft_of};

    ghost view = { draft_of };
}

impl Draft {
    pub(crate) fn new(alloc: Global) -> Self
        ensures { result ≡ Some [] }
    {
        Draft {
            text: String::new(alloc),
            refused: false,
        }
    }

    pub(crate) fn push(&mut self, part: &str)
        ensures { (bytes : Bytes) → Holds self.old bytes → Holds self.new (bytes ++ part.now) }
    {
        if !self.refused && self.text.push_str(part).is_err() {
            self.refused = true;
        }
    }

    pub(crate) fn finish(self) -> Result<Text, AllocError>
        ensures { (bytes : Bytes) → Holds self bytes → IfOk result (λ text. text ≡ bytes) }
    {
        let Draft { text, refused } = self;
        if refused {
            return Err(AllocError);
        }
        Ok(Text::new(text))
    }
}

/// Appends a quote or a backslash if `keep` is set.
pub(crate) fn push_quoting(out: &mut Draft, part: &str, keep: bool)
    ensures { (bytes : Bytes) → Holds out.old bytes
        → Holds out.new (bytes ++ (if keep then part.now else [])) }
{
    if keep {
        out.push(part);
    }
}
