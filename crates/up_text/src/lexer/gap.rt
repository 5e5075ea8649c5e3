//! The gap between two tokens.
ghost use Rattle.std.specs.Prelude.{◌≡◌, ◌+◌, ◌<◌, ◌≤◌, ◌^◌, ℕ, Bool, true, false, length};
ghost use Rattle.up_text.specs.Lexer.{begins_gap, passes_feeds, place, IsAfterGap, GapRun};

use crate::lexer::bytes::{
    begins_blank, begins_comment, begins_feed, begins_gap, split_blanks, split_first, split_line,
};

// The line and the text after the first part of a gap.
fn pass_part(text: &str, line: u32, passes: bool) -> (u32, &str)
    requires in_gap { begins_gap passes text.now ≡ true }
    requires in_range { line + length text.now < 2 ^ 32 }
    ensures run { (inside parens joined : Bool) (depth : ℕ) → passes ≡ passes_feeds inside depth
        → GapRun inside parens depth joined text.now line result.1.now result.0 }
    ensures shorter { length result.1.now < length text.now }
{
    if begins_blank(text) {
        return (line, split_blanks(text).1);
    }
    if begins_comment(text) {
        return (line, split_line(text).1);
    }
    if begins_feed(text) {
        return (line + 1, split_first(text).1);
    }
    (line + 1, split_first(split_first(text).1).1)
}

/// The line and the text after the gap that the text begins with. Line feeds are part of the gap outside a stanza and while a parenthesis
/// is open.
pub(crate) fn after_gap(text: &str, line: u32, inside: bool, depth: u32) -> (u32, &str)
    requires { line + length text.now < 2 ^ 32 }
    ensures passed { (parens : Bool)
        → IsAfterGap (place text.now line inside parens depth)
        (place result.1.now result.0 inside parens depth) }
    ensures run { (parens : Bool) → GapRun inside parens depth false text.now line result.1.now result.0 }
    ensures ends { begins_gap (passes_feeds inside depth) result.1.now ≡ false }
    ensures in_range { result.0 + length result.1.now ≤ line + length text.now }
    ensures shorter { length result.1.now ≤ length text.now }
{
    let passes = !inside || depth != 0;
    let mut line = line;
    let mut rest = text;
    'gap: while begins_gap(rest, passes) {
        let (reached, after) = pass_part(rest, line, passes);
        line = reached;
        rest = after;
    }
    (line, rest)
}
