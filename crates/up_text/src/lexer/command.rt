//! The text of a command.
ghost use Rattle.std.specs.Prelude.{◌≡◌, ◌+◌, ◌<◌, ◌^◌, true, false, length, IfOk, MatchResult};
ghost use Rattle.up_text.specs.Tokens.{Outside};
ghost use Rattle.up_text.specs.Lexer.{begins_gap, ends_token, is_line_end, Broken};
ghost use Rattle.up_text.specs.CommandParts.{Between, Told, Refused};

use crate::lexer::bytes::{begins_joint, is_line_end, split_blanks};
use crate::lexer::draft::Draft;
use crate::lexer::gap::after_gap;
use crate::lexer::spelling::push_spelling;
use up_value::TextFault;

// Passes a gap and appends it: its blanks as they are, or one space if lines are joined. A gap before the stanza's end isn't written.
fn push_gap<'a>(out: &mut Draft, text: &'a str, line: u32) -> (u32, &'a str)
    requires { line + length text.now < 2 ^ 32 }
    ensures { Between text.now line result.1.now result.0 out.old out.new }
{
    let (blanks, rest) = split_blanks(text);
    let between = if begins_joint(rest) { " " } else { blanks };
    let (reached, after) = after_gap(rest, line, true, 0);
    if !is_line_end(after) {
        out.push(between);
    }
    (reached, after)
}

// Appends a spelling and the gap after it.
fn push_word<'a>(out: &mut Draft, text: &'a str, line: u32) -> Result<(u32, &'a str), TextFault>
    requires begins { ends_token false text.now ≡ false }
    requires in_range { line + length text.now < 2 ^ 32 }
    ensures means { MatchResult result
        (λ read. Told text.now line read.1.now read.0 out.old out.new)
        (Broken false (Outside false) text.now) }
    ensures ends { IfOk result (λ read. begins_gap false read.1.now ≡ false) }
    ensures shorter { IfOk result (λ read. length read.1.now < length text.now) }
{
    let (reached, after) = push_spelling(out, text, line, false, true)?;
    let (line, rest) = push_gap(out, after, reached);
    Ok((line, rest))
}

/// Appends a command's text from after its gap on, and returns the line and the text at its end.
pub fn push_command<'a>(
    out: &mut Draft,
    text: &'a str,
    line: u32,
) -> Result<(u32, &'a str), TextFault>
    requires begins { begins_gap false text.now ≡ false }
    requires in_range { line + length text.now < 2 ^ 32 }
    ensures means { MatchResult result
        (λ read. Told text.now line read.1.now read.0 out.old out.new)
        (Refused text.now) }
    ensures ends { IfOk result (λ read. is_line_end read.1.now ≡ true) }
{
    let mut rest = text;
    let mut line = line;
    'words: while !is_line_end(rest) {
        let (reached, after) = push_word(out, rest, line)?;
        line = reached;
        rest = after;
    }
    Ok((line, rest))
}
