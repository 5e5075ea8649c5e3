//! Writes the content of a job file: tokens, commands and expressions.

use std::alloc::{AllocError, Global};
use up_expr::{Branch, Leaf, Root, Test};
use up_stanza::Action;
use up_text::Text;

// Whether a byte means only itself in a job file.
fn is_plain_byte(byte: u8) -> bool {
    !matches!(
        byte,
        b' ' | b'\t' | b'\n' | b'"' | b'\'' | b'\\' | b'(' | b')' | b'#'
    )
}

// Whether a token of this text needs no quotes.
fn is_plain(text: &str) -> bool {
    !text.is_empty()
        && text != "and"
        && text != "or"
        && text.as_bytes().iter().all(|byte| is_plain_byte(*byte))
}

// The quote that occurs less often in a text; the double quote if both do equally often.
fn quote_for(text: &str) -> char {
    let double = text.as_bytes().iter().filter(|byte| **byte == b'"').count();
    let single = text
        .as_bytes()
        .iter()
        .filter(|byte| **byte == b'\'')
        .count();
    if single < double { '\'' } else { '"' }
}

fn put_quoted(out: &mut String, text: &str) -> Result<(), AllocError> {
    let quote = quote_for(text);
    out.push(quote)?;
    for c in text.chars() {
        if c == quote || c == '\\' {
            out.push('\\')?;
        }
        out.push(c)?;
    }
    out.push(quote)?;
    Ok(())
}

/// Appends a blank and a token of this text, in quotes if it needs them.
pub(crate) fn put_token(out: &mut String, text: &str) -> Result<(), AllocError> {
    out.push(' ')?;
    if is_plain(text) {
        out.push_str(text)?;
    } else {
        put_quoted(out, text)?;
    }
    Ok(())
}

pub(crate) fn put_tokens(out: &mut String, texts: &[Text]) -> Result<(), AllocError> {
    for text in texts {
        put_token(out, text.as_str())?;
    }
    Ok(())
}

fn put_words(out: &mut String, words: &[Text]) -> Result<(), AllocError> {
    out.push_str("exec")?;
    for word in words {
        out.push(' ')?;
        out.push_str(word.as_str())?;
    }
    out.push('\n')?;
    Ok(())
}

// An empty text or one that ends with a newline is a script, any other is a command after its `exec`.
fn put_shell(out: &mut String, text: &str) -> Result<(), AllocError> {
    if text.is_empty() || text.ends_with('\n') {
        out.push_str("script\n")?;
        out.push_str(text)?;
        out.push_str("end script\n")?;
    } else {
        out.push_str(text)?;
        out.push('\n')?;
    }
    Ok(())
}

/// Appends the `exec` or `script` of a process, after the process's name.
pub(crate) fn put_action(
    out: &mut String,
    process: &str,
    action: &Action,
) -> Result<(), AllocError> {
    out.push_str(process)?;
    match action {
        Action::Words(words) => put_words(out, words.as_slice())?,
        Action::Shell(text) => put_shell(out, text.as_str())?,
    }
    Ok(())
}

// Appends a key, what joins it to its value, and the value.
pub(crate) fn put_keyed(
    alloc: Global,
    out: &mut String,
    key: &str,
    sign: &str,
    value: &str,
) -> Result<(), AllocError> {
    let mut text = String::from_str(alloc, key)?;
    text.push_str(sign)?;
    text.push_str(value)?;
    put_token(out, text.as_str())
}

fn put_test(alloc: Global, out: &mut String, test: &Test) -> Result<(), AllocError> {
    match test {
        Test::Place(value) => put_token(out, value.as_str()),
        Test::Same(key, value) => put_keyed(alloc, out, key.as_str(), "=", value.as_str()),
        Test::Differs(key, value) => put_keyed(alloc, out, key.as_str(), "!=", value.as_str()),
    }
}

fn put_leaf(alloc: Global, out: &mut String, leaf: &Leaf) -> Result<(), AllocError> {
    put_token(out, leaf.event.as_str())?;
    for test in leaf.values.as_slice() {
        put_test(alloc, out, test)?;
    }
    Ok(())
}

// Operators group to the left, so only a right side needs parentheses.
fn open(out: &mut String, grouped: bool) -> Result<(), AllocError> {
    if grouped {
        out.push_str(" (")?;
    }
    Ok(())
}

fn close(out: &mut String, grouped: bool) -> Result<(), AllocError> {
    if grouped {
        out.push_str(" )")?;
    }
    Ok(())
}

/// Appends an expression, in parentheses if it is `grouped` and more than a leaf.
#[cycle(expressions)]
pub(crate) fn put_expr(
    alloc: Global,
    out: &mut String,
    branch: &Branch,
    grouped: bool,
) -> Result<(), AllocError> {
    match branch.root() {
        Root::Leaf(leaf) => put_leaf(alloc, out, leaf),
        Root::And(left, right) => {
            open(out, grouped)?;
            put_expr(alloc, out, &left, false)?;
            out.push_str(" and")?;
            put_expr(alloc, out, &right, true)?;
            close(out, grouped)
        }
        Root::Or(left, right) => {
            open(out, grouped)?;
            put_expr(alloc, out, &left, false)?;
            out.push_str(" or")?;
            put_expr(alloc, out, &right, true)?;
            close(out, grouped)
        }
    }
}
