//! Tokens, the texts of commands and scripts.
use crate::tables::is_number;
use std::alloc::{AllocError, Global};
use std::test::Fail;
use up_text::{Lexer, Text, TextFault, Token, next_word, without_comments};

// In each row, which ends with `||`, a text, and what a lexer does with it, step by step:
//
// - `plain LINE TEXT`: it gives a token that is spelled without quotes and backslashes; `spelled LINE TEXT`: another one;
// - `end`: the stanza ends; `refused LINE FAULT`: the token on this line is refused, by the number of a fault;
// - `parens on`, `parens off`: it is told whether parentheses are tokens;
// - `script TEXT`: it gives the lines of a script; `no-script`: the script has no end line;
// - `command TEXT`: it gives the text of a command; `no-command FAULT`: that is refused;
// - `nothing`: the text is used up, as it isn't before any other step; `more`: it isn't, since a lexer stays where it refuses.
const ROWS: &'static str = "\
# Tokens.||
|nothing||
# \"' \\\n \t\n\n|nothing||
\n\n a \t b # c\n#x\n  c#d\n|plain 3 a|plain 3 b|end|plain 5 c|end|nothing||
\u{e9}\u{a0}\rb\u{b}c\t\"\"#\n''|plain 1 \u{e9}\u{a0}\rb\u{b}c|spelled 1 |end|spelled 2 |end|nothing||
A=\"b c\" '\"'d\"'\" \"#\" \"a\\\"b\\c\"|spelled 1 A=b c|spelled 1 \"d'|spelled 1 #|spelled 1 a\"bc|end|nothing||
a\\ b \\# \\\" \\\\ \\\u{e9}x \"\\\u{20ac}\"|spelled 1 a b|spelled 1 #|spelled 1 \"|spelled 1 \\|spelled 1 \u{e9}x|spelled 1 \u{20ac}|end|nothing||
a \\\n\\\n b\\\nc # d \\\ne|plain 1 a|plain 3 b|plain 4 c|end|plain 5 e|end|nothing||
\"a  \\\n  b\" \"a\nb\" \"a  b \" \"c\\ \n d\"\nz|spelled 1 a b|spelled 2 a b|spelled 3 a  b |spelled 3 c  d|end|plain 5 z|end|nothing||
x\na\" y\n\nz|plain 1 x|end|refused 2 5|refused 2 5|more||
\n'a\\|refused 2 5|refused 2 5|more||
b\\|refused 1 7|refused 1 7|more||
(a)|plain 1 (a)|end|nothing||
# Parentheses.||
on a(b # c\n \n\"(\"\\)c) d)\ne (f\ng)|plain 1 on|parens on|plain 1 a|plain 1 (|plain 1 b|spelled 3 ()c|plain 3 )|plain 3 d|plain 3 )|end|\
plain 4 e|parens off|plain 4 (f|end|plain 5 g)|end|nothing||
a (\n|parens on|plain 1 a|plain 1 (|end|nothing||
# Scripts.||
script\n\n # c\n  a \"\n end  scripts\n end \t script # x\nb\n|plain 1 script|end|script \n # c\n  a \"\n end  scripts\n|plain 7 b|end|nothing||
script\nend script|plain 1 script|end|script |nothing||
script\nend script#c\nend script #c\nb|plain 1 script|end|script end script#c\n|plain 4 b|end|nothing||
script\nend scripts\nend|plain 1 script|end|no-script|plain 2 end|plain 2 scripts|end|plain 3 end|end|nothing||
# Commands.||
exec  a 'b  c' \"d\\\"\" \\e\t# f\ng|plain 1 exec|command a 'b  c' \"d\\\"\" \\e|end|plain 2 g|end|nothing||
exec \t a  \t b \t\nc|plain 1 exec|command a  \t b|end|plain 2 c|end|nothing||
exec a#b\nexec a \\# '#'#\nexec a\\ \nc|plain 1 exec|command a|end|plain 2 exec|command a \\# '#'|end|plain 3 exec|command a\\ |end|plain 4 c|end|nothing||
exec\nexec \t# a\nexec \\\n\t\nb\nexec|plain 1 exec|command |end|plain 2 exec|command |end|plain 3 exec|command |end|plain 5 b|end|plain 6 exec|command |end|nothing||
exec a b c d\nexec e f\ng|plain 1 exec|plain 1 a|command b c d|command |end|plain 2 exec|command e f|end|plain 3 g|end|nothing||
exec (a) \u{e9}\u{a0} '\u{20ac}' \\\u{e9}) # b\nc (d)|plain 1 exec|parens on|command (a) \u{e9}\u{a0} '\u{20ac}' \\\u{e9})|end|plain 2 c|plain 2 (|plain 2 d|plain 2 )|end|nothing||
exec \" ' \" ' \" ' $ \\\\ # \"|plain 1 exec|command \" ' \" ' \" ' $ \\\\|end|nothing||
# Commands over several lines.||
exec a \\\n  \\\n\t b\\\nc\nd|plain 1 exec|command a b c|end|plain 5 d|end|nothing||
exec \\\n a  b \\\n # c\nd|plain 1 exec|command a  b|end|plain 4 d|end|nothing||
exec \"a  \\\n  b\" 'c \n\n d' \"e\\ \nf\"\ng|plain 1 exec|command \"a b\" 'c d' \"e\\  f\"|end|plain 6 g|end|nothing||
# Commands that are refused.||
exec a \"b\n\nc|plain 1 exec|no-command 5|no-command 5|plain 1 a|refused 1 5|more||
exec a \\\n b\\|plain 1 exec|no-command 7|no-command 7|plain 1 a|refused 2 7|more||
exec a # '\nb|plain 1 exec|command a|end|plain 2 b|end|nothing||
";

// What stands behind the number of a line, if it is this line.
fn after_line(words: &str, line: u32) -> Option<&str> {
    match words.split_once(' ') {
        Some((number, after)) if is_number(number, line) => Some(after),
        _ => None,
    }
}

fn is_token(token: &Token, line: u32, word: &str, words: &str) -> bool {
    let kind = if token.plain { "plain" } else { "spelled" };
    match after_line(words, line) {
        Some(text) => token.line == line && word == kind && token.text.is(text),
        None => false,
    }
}

fn is_refused(fault: TextFault, line: u32, words: &str) -> bool {
    match after_line(words, line) {
        Some(number) => is_number(number, u32::from(fault.number())),
        None => false,
    }
}

// Where one allocation is made to fail, the next call reads the same; here and below.
fn gives_token(alloc: Global, lexer: &mut Lexer, word: &str, words: &str) -> bool {
    let line = lexer.line();
    let read = match lexer.next(alloc) {
        Err(TextFault::Memory) => lexer.next(alloc),
        read => read,
    };
    match read {
        Ok(Some(token)) => {
            let is_token = is_token(&token, line, word, words);
            drop(token);
            is_token
        }
        Ok(None) => word == "end",
        Err(fault) => word == "refused" && is_refused(fault, line, words),
    }
}

fn gives_script(alloc: Global, lexer: &mut Lexer, lines: Option<&str>) -> bool {
    let read = match lexer.script_lines(alloc) {
        Err(TextFault::Memory) => lexer.script_lines(alloc),
        read => read,
    };
    match read {
        Ok(Some(script)) => {
            let is_script = lines == Some(script.as_str());
            drop(script);
            is_script
        }
        Ok(None) => lines.is_none(),
        Err(_) => false,
    }
}

fn gives_command(alloc: Global, lexer: &mut Lexer, word: &str, words: &str) -> bool {
    let read = match lexer.command_text(alloc) {
        Err(TextFault::Memory) => lexer.command_text(alloc),
        read => read,
    };
    match read {
        Ok(command) => {
            let is_command = word == "command" && command.is(words);
            drop(command);
            is_command
        }
        Err(fault) => word == "no-command" && is_number(words, u32::from(fault.number())),
    }
}

// Whether a lexer takes a step.
fn takes(alloc: Global, lexer: &mut Lexer, step: &str) -> bool {
    let (word, words) = step.split_once(' ').unwrap_or((step, ""));
    if lexer.at_end() {
        return word == "nothing";
    }
    match word {
        "more" => true,
        "parens" => {
            lexer.parens(words == "on");
            true
        }
        "script" => gives_script(alloc, lexer, Some(words)),
        "no-script" => gives_script(alloc, lexer, None),
        "command" | "no-command" => gives_command(alloc, lexer, word, words),
        _ => gives_token(alloc, lexer, word, words),
    }
}

fn is_read(alloc: Global, text: &str, steps: &str) -> bool {
    if text.len() > 99 {
        return false;
    }
    let mut lexer = Lexer::new(text);
    for step in steps.split('|') {
        if !takes(alloc, &mut lexer, step) {
            return false;
        }
    }
    true
}

fn check(alloc: Global, rows: &'static str) -> Result<(), Fail> {
    for row in rows.split_terminator("||\n") {
        let holds = match row.split_once('|') {
            Some((text, steps)) => is_read(alloc, text, steps),
            None => row.starts_with("# "),
        };
        if !holds {
            return Err(Fail::from(row));
        }
    }
    Ok(())
}

#[test]
fn lexers_read(rt: HostRuntime) -> Result<(), Fail> {
    check(rt.alloc(), ROWS)
}

// Texts, each with its first word and what stands after it.
const WORDS: &'static [(&'static str, &'static str, &'static str)] = &[
    (" \ta \"b c", "a", " \"b c"),
    ("\"b c", "\"b", " c"),
    ("c\\\t", "c\\", "\t"),
    (" \t", "", ""),
    ("", "", ""),
];

fn check_words(words: &[(&'static str, &'static str, &'static str)]) -> Result<(), Fail> {
    for case in words {
        let found = next_word(case.0);
        if found.0 != case.1 || found.1 != case.2 {
            return Err(Fail::from(case.0));
        }
    }
    Ok(())
}

#[test]
fn words_stand_between_blanks() -> Result<(), Fail> {
    check_words(WORDS)
}

/// Texts, and what is left of them without their comments.
const COMMENTED: &'static [(&[u8], &[u8])] = &[
    (b"", b""),
    (b"a b", b"a b"),
    (b"a # b\n# c\nd", b"a \n\nd"),
    (b"a#\xff\x00\\\nb\xff", b"a\nb\xff"),
    (b"##", b""),
    (b"'# a' # 'b\n", b"'# a' \n"),
    (b"\"#\n#'\\\"#\" #", b"\"#\n#'\\\"#\" "),
    (b"\\#a\\\\#b", b"\\#a\\\\"),
    (b"a \\\n# b\n'\n#", b"a \\\n\n'\n#"),
    (b"'\\\n#' # \"\n#", b"'\\\n#' \n"),
    (b"(# )\n\xc3\xa9#\xa9", b"(\n\xc3\xa9"),
];

fn leaves(alloc: Global, text: &[u8], left: &[u8]) -> Result<bool, AllocError> {
    let bytes = without_comments(alloc, text)?;
    Ok(bytes.as_slice() == left)
}

fn check_comments(alloc: Global, cases: &[(&[u8], &[u8])]) -> Result<(), Fail> {
    for (place, case) in cases.iter().enumerate() {
        if !leaves(alloc, case.0, case.1)? {
            return Err(Fail::from(place));
        }
    }
    Ok(())
}

#[test]
fn comments_are_taken_out(rt: HostRuntime) -> Result<(), Fail> {
    check_comments(rt.alloc(), COMMENTED)
}
