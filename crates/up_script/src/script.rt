//! Reads a script.
ghost use Rattle.std.specs.Prelude.{◌≡◌, ◌<◌, ◌+◌, IfOk, IfSome, MatchOption, None, OnErr, Some, if◌then◌else◌, true, false, [], length, option_map};
ghost use Rattle.up_stanza.specs.Reading.{LacksMemory};
ghost use Rattle.up_text.specs.Places.{reading};
ghost use Rattle.up_text.specs.Lexemes.{lexemes_of, stanzas};
ghost use Rattle.up_script.specs.Bundle.{lines_of};
ghost use Rattle.up_script.specs.Script.{left_after};
ghost use Rattle.up_script.specs.ScriptInputs.{inputs_of_step};
ghost use Rattle.up_script.specs.Statements.{is_text, begins_text, after_step, inputs_from, lines_inputs, step_inputs, script_inputs, unless_left, texts_in, IsNext, Fronts, ReachesNoFurther};

use crate::bundle::split_line;
use crate::scripted::{ScriptInputs, StepInputs};
use crate::words::inputs_of;
use std::alloc::{AllocError, Global};
use std::collections::VecDeque;
use up_image::Table;
use up_model::Input;
use up_text::{Items, Lexer, Text, TextFault, as_text, without_comments};

// The bytes as a text, if they may be part of a script.
#[tactic(auto, unfolding(crate::specs::Statements::is_text))]
fn text_of(bytes: &[u8]) -> Option<&str>
    ensures test { MatchOption result (is_text bytes.now ≡ false) (λ text. is_text bytes.now ≡ true) }
    ensures same { IfSome result (λ text. text.now ≡ bytes.now) }
{
    if bytes.contains(&0) {
        return None;
    }
    as_text(bytes)
}

// Whether the first line may be part of a script.
#[tactic(auto, using(crate::proofs::Splitting::begins_none, crate::proofs::Splitting::begins_first))]
fn begins_text(script: &[u8]) -> bool
    ensures { result ≡ begins_text (lines_of script.now) }
{
    if script.is_empty() {
        return false;
    }
    text_of(split_line(script).0).is_some()
}

// The lines before the first that may not be part of a script, the bytes from it on, and the number of lines before it.
fn text_front(script: &[u8]) -> (&[u8], &[u8], u32)
    requires { length script.now < 4294967295 }
    ensures { Fronts script.now result.0.now result.1.now result.2 }
{
    let mut rest = script;
    let mut count = 0u32;
    'lines: while begins_text(rest) {
        rest = split_line(rest).1;
        count += 1;
    }
    let front = &script[..script.len() - rest.len()];
    (front, rest, count)
}

/// The next item in a step.
#[derive(Drop)]
enum Next {
    Word(Text),
    End,
    Bad,
}

#[tactic(auto, using(up_text::proofs::Lexemes::reads_lexemes, up_stanza::proofs::Telling::lacks_by, crate::proofs::Stepping::reads_no_further))]
fn next_word(alloc: Global, lexer: &mut Lexer) -> Result<Next, AllocError>
    ensures next { IfOk result (IsNext (lexemes_of lexer.old) (lexemes_of lexer.new)) }
    ensures memory { OnErr result (LacksMemory (reading lexer.old)) }
    ensures within { ReachesNoFurther lexer.new lexer.old }
{
    match lexer.next(alloc) {
        Ok(Some(token)) => Ok(Next::Word(token.text)),
        Ok(None) => Ok(Next::End),
        Err(TextFault::Memory) => Err(AllocError),
        Err(_) => Ok(Next::Bad),
    }
}

// Puts the words of the next step in place of earlier ones, whose memory is used again. Returns whether each is whole; the lexer is then
// after the step.
fn step_words(alloc: Global, lexer: &mut Lexer, words: &mut Vec<Text>) -> Result<bool, AllocError>
    ensures words { IfOk result (λ whole. (if whole then Some words.new.items else None) ≡ texts_in (lexemes_of lexer.old)) }
    ensures after { IfOk result (λ whole. whole ≡ true
        → lexemes_of lexer.new ≡ after_step (lexemes_of lexer.old)) }
    ensures within { ReachesNoFurther lexer.new lexer.old }
{
    words.clear();
    'words: loop {
        match next_word(alloc, lexer)? {
            Next::Word(word) => words.push(word)?,
            Next::End => return Ok(true),
            Next::Bad => return Ok(false),
        }
    }
}

// The inputs of the next step, unless it is bad; the lexer is then after it, and a load has taken the next table. Overwrites `words` with
// the words of the step.
fn step_inputs(
    alloc: Global,
    tables: &mut VecDeque<Table>,
    lexer: &mut Lexer,
    words: &mut Vec<Text>,
) -> Result<Option<StepInputs>, AllocError>
    ensures inputs { IfOk result (λ given. option_map inputs_of_step given
        ≡ step_inputs tables.old.items (lexemes_of lexer.old)) }
    ensures left { IfOk result (λ given. IfSome given
        (λ _. tables.new.items ≡ left_after tables.old.items (texts_in (lexemes_of lexer.old)))) }
    ensures after { IfOk result (λ given. IfSome given
        (λ _. lexemes_of lexer.new ≡ after_step (lexemes_of lexer.old))) }
    ensures within { ReachesNoFurther lexer.new lexer.old }
{
    if step_words(alloc, lexer, words)? {
        inputs_of(alloc, tables, words.as_slice())
    } else {
        Ok(None)
    }
}

// The inputs of a text that begins on this line, or the line on which its first bad step begins.
#[tactic(auto, using(crate::proofs::Stepping::bad_step, crate::proofs::Stepping::line_within, crate::proofs::Stepping::no_step, crate::proofs::Stepping::one_step, crate::proofs::Stepping::step_less))]
fn text_inputs(
    alloc: Global,
    tables: &mut VecDeque<Table>,
    text: &str,
    line: u32,
) -> Result<Result<ScriptInputs, u32>, AllocError>
    requires { line + length text.now < 4294967295 }
    ensures { IfOk result (λ read. read ≡ inputs_from tables.old.items line (stanzas text.now)) }
{
    let mut inputs = ScriptInputs::none(alloc);
    let mut words: Vec<Text> = Vec::new(alloc);
    let mut lexer = Lexer::new(text);
    'steps: while !lexer.at_end() {
        let lines = lexer.line();
        match step_inputs(alloc, tables, &mut lexer, &mut words)? {
            Some(given) => inputs.push(given)?,
            None => return Ok(Err(line + lines.saturating_sub(1))),
        }
    }
    Ok(Ok(inputs))
}

// The outcome of reading a script, of which these bytes are left from this line on, if they begin with a line that isn't text.
#[tactic(auto, using(crate::proofs::Splitting::left_none, crate::proofs::Splitting::left_ok, crate::proofs::Splitting::left_err))]
fn unless_left(read: Result<ScriptInputs, u32>, rest: &[u8], line: u32) -> Result<ScriptInputs, u32>
    ensures { result ≡ unless_left line (lines_of rest.now) read }
{
    if rest.is_empty() {
        return read;
    }
    match read {
        Ok(_) => Err(line),
        Err(earlier) => Err(earlier),
    }
}

// The inputs of the lines before the first that isn't text, or the first bad line. The script begins on this line.
#[tactic(auto, using(crate::proofs::Splitting::by_front))]
fn lines_inputs(
    alloc: Global,
    tables: &mut VecDeque<Table>,
    script: &[u8],
    line: u32,
) -> Result<Result<ScriptInputs, u32>, AllocError>
    requires { line + length script.now < 4294967295 }
    ensures { IfOk result (λ read. read ≡ lines_inputs tables.old.items line (lines_of script.now)) }
{
    let (front, rest, count) = text_front(script);
    let Some(text) = as_text(front) else {
        unreachable!()
    };
    let read = text_inputs(alloc, tables, text, line)?;
    Ok(unless_left(read, rest, line + count))
}

/// The inputs of a script that begins on this line, or its first bad line. Each load takes the next of the tables, which are those of
/// a bundle's later folders.
#[tactic(auto, unfolding(crate::specs::Statements::script_inputs), using(up_text::proofs::Comments::no_longer, crate::proofs::Hashless::no_comments))]
pub fn read_inputs_with(
    alloc: Global,
    tables: &mut VecDeque<Table>,
    script: &[u8],
    line: u32,
) -> Result<Result<ScriptInputs, u32>, AllocError>
    requires { line + length script.now < 4294967295 }
    ensures { IfOk result (λ read. read ≡ script_inputs tables.old.items line script.now) }
{
    if !script.contains(&b'#') {
        // No comment can begin, so no copy is made.
        return lines_inputs(alloc, tables, script, line);
    }
    let bytes = without_comments(alloc, script)?;
    lines_inputs(alloc, tables, bytes.as_slice(), line)
}

/// The same for a script without a bundle, in which a load is a bad step.
pub fn read_inputs(
    alloc: Global,
    script: &[u8],
    line: u32,
) -> Result<Result<ScriptInputs, u32>, AllocError>
    requires { line + length script.now < 4294967295 }
    ensures { IfOk result (λ read. read ≡ script_inputs [] line script.now) }
{
    let mut tables: VecDeque<Table> = VecDeque::new(alloc);
    read_inputs_with(alloc, &mut tables, script, line)
}

/// The same, with each turn as an input of its own.
pub fn script_inputs(
    alloc: Global,
    script: &[u8],
    line: u32,
) -> Result<Result<Items<Input>, u32>, AllocError>
    requires { line + length script.now < 4294967295 }
    ensures { IfOk result (λ read. read ≡ script_inputs [] line script.now) }
{
    match read_inputs(alloc, script, line)? {
        Ok(inputs) => {
            let inputs = inputs.expanded(alloc)?;
            Ok(Ok(inputs))
        }
        Err(line) => Ok(Err(line)),
    }
}
