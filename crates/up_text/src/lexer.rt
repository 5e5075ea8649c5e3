//! Reads the tokens of a job file or a script.
ghost use Rattle.std.specs.Prelude.{◌≡◌, ◌+◌, ◌<◌, ◌≤◌, ◌^◌, true, length, take, drop};
ghost use Rattle.up_text.specs.Lexer.{is_line_end};
ghost use Rattle.up_text.specs.Places.{feeds, start, reading, Answers, line_at, is_finished, with_parens};
ghost use Rattle.up_text.specs.Scripts.{ReadsScript};
ghost use Rattle.up_text.specs.Commands.{ReadsCommand};

mod bytes;
mod command;
mod comments;
mod draft;
mod gap;
pub mod laws;
mod quoted;
mod script;
mod spelling;
mod words;

use crate::lexer::bytes::{begins_feed, is_line_end, split_first};
use crate::lexer::command::push_command;
pub use crate::lexer::comments::without_comments;
use crate::lexer::draft::Draft;
use crate::lexer::gap::after_gap;
use crate::lexer::script::find_end;
use crate::lexer::spelling::read_token;
pub use crate::lexer::words::next_word;
use crate::token::Token;
use std::alloc::Global;
use std::marker::Model;
use up_value::{Text, TextFault};

/// Reads a text token by token, by init(5). Its position is right after what it read.
#[derive(Debug, Drop)]
pub struct Lexer<'a> {
    // The rest of the text.
    rest: &'a str,
    // The line of its first byte.
    line: u32,
    // Whether a token of the current stanza has been read.
    inside: bool,
    // Whether parentheses are tokens, and how many are open.
    parens: bool,
    depth: u32,
}

impl<'a> Model for Lexer<'a> {
    ghost use Rattle.up_text.specs.Places.{Place};

    ghost Value = { Place };

    ghost use Rattle.up_text.specs.Lexer.{place_of, IsInRange};

    ghost view = { place_of };

    ghost invariant = { IsInRange };
}

// The line number and the text after a line end.
fn after_line_end(text: &str, line: u32) -> (u32, &str)
    requires at_end { is_line_end text.now ≡ true }
    requires in_range { line + length text.now < 2 ^ 32 }
    ensures line { result.0 ≡ line + feeds (take 1 text.now) }
    ensures rest { result.1.now ≡ drop 1 text.now }
    ensures in_range { result.0 + length result.1.now ≤ line + length text.now }
{
    if begins_feed(text) {
        (line + 1, split_first(text).1)
    } else {
        (line, text)
    }
}

impl<'a> Lexer<'a> {
    /// Borrows the text and takes no memory.
    pub fn new(text: &'a str) -> Self
        requires { length text.now < 4294967295 }
        ensures { result ≡ start text.now }
    {
        Lexer {
            rest: text,
            line: 1,
            inside: false,
            parens: false,
            depth: 0,
        }
    }

    /// Whether no token and no end of a stanza is left. After a `None` from `next` this distinguishes the end of the text from the end of a
    /// stanza.
    pub fn at_end(&self) -> bool
        ensures { result ≡ is_finished self.now }
    {
        !self.inside
            && after_gap(self.rest, self.line, self.inside, self.depth)
                .1
                .is_empty()
    }

    /// The line of the next token, or of the end of the stanza or of the text.
    pub fn line(&self) -> u32
        ensures { result ≡ line_at self.now }
    {
        after_gap(self.rest, self.line, self.inside, self.depth).0
    }

    /// Sets whether parentheses are tokens of their own from here on. None counts as open then. Forgets a fault of `next` too: `a(b"` is
    /// one unterminated token, and where parentheses are tokens its first one is `a`.
    pub fn parens(&mut self, on: bool)
        ensures { self.new ≡ with_parens on self.old }
    {
        self.parens = on;
        self.depth = 0;
    }

    /// The next token, or `None` at the end of a stanza and at the end of the text. After a failure each further `next` fails in the same
    /// way, until a call of another kind: `parens`, `command_text` and `script_lines` go on from the same place by rules of their own. After
    /// running out of memory `next` reads the token again.
    pub fn next(&mut self, alloc: Global) -> Result<Option<Token>, TextFault>
        ensures { Answers self.old (reading self.old) result self.new }
    {
        let (line, rest) = after_gap(self.rest, self.line, self.inside, self.depth);
        if is_line_end(rest) {
            let (line, rest) = after_line_end(rest, line);
            self.rest = rest;
            self.line = line;
            self.inside = false;
            self.depth = 0;
            return Ok(None);
        }
        let (token, line, rest, depth) = read_token(alloc, rest, line, self.parens, self.depth)?;
        self.rest = rest;
        self.line = line;
        self.inside = true;
        self.depth = depth;
        Ok(Some(token))
    }

    /// The rest of the stanza as it is written: quotes and backslashes stay, the comment and the blanks at both ends are removed, and each
    /// run of blanks that contains a line end becomes one space. The stanza's end is not passed. After a failure each further `command_text`
    /// fails in the same way; after running out of memory it reads the text again.
    pub fn command_text(&mut self, alloc: Global) -> Result<Text, TextFault>
        ensures { ReadsCommand self.old result self.new }
    {
        let (line, rest) = after_gap(self.rest, self.line, true, 0);
        let mut out = Draft::new(alloc);
        let (line, rest) = push_command(&mut out, rest, line)?;
        let text = out.finish()?;
        self.rest = rest;
        self.line = line;
        Ok(text)
    }

    /// The lines of a script up to its end line, each with its line feed; the end line is passed too. `None` if there is no
    /// end line. Call it after the `None` that ended the line `script`.
    pub fn script_lines(&mut self, alloc: Global) -> Result<Option<Text>, TextFault>
        ensures { ReadsScript self.old result self.new }
    {
        let Some((lines, rest, line)) = find_end(self.rest, self.line) else {
            return Ok(None);
        };
        let script = Text::from_str(alloc, lines)?;
        self.rest = rest;
        self.line = line;
        self.inside = false;
        self.depth = 0;
        Ok(Some(script))
    }
}
