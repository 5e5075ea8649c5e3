//! Reads the stanzas of a file.
ghost use Rattle.std.specs.Prelude.{◌≡◌, IfOk, option_map};
ghost use Rattle.up_text.specs.Places.{Place};
ghost use Rattle.up_stanza.specs.declared.action.Action as actions;
ghost use Rattle.up_stanza.specs.declared.kind.Kind.TheVariants as kind;
ghost use Rattle.up_stanza.specs.Arguments.{listed_of};
ghost use Rattle.up_stanza.specs.Reading.{IsFound};
ghost use Rattle.up_stanza.specs.Stanzas.{Found, and_then_found, map_found, stanza_as, stanzas_of, stanza_at, texts_at};
ghost use Rattle.up_stanza.specs.declared.process.Process.TheVariants as process;
ghost use Rattle.up_stanza.specs.declared.stanza.Stanza.TheVariants.{Runs};

use crate::action::Action;
use crate::expression::read_expression;
use crate::fault::{ConfFault, FaultCode};
use crate::kind::{Kind, Listed, kind_of};
use crate::listed::read_listed;
use crate::process::Process;
use crate::running::{read_exec, read_runs, read_script};
use crate::stanza::{Stanza, Stanzas};
use crate::statement::{Next, next_token, read_texts};
use std::alloc::{AllocError, Global};
use up_text::{Items, Lexer};

fn as_main(read: Result<Action, FaultCode>) -> Result<Stanza, FaultCode>
    ensures { (found : Found actions.Action) (new : Place) → IsFound found read new
        → IsFound (map_found (Runs process.Main) found) result new }
{
    match read {
        Ok(action) => Ok(Stanza::Runs(Process::Main, action)),
        Err(code) => Err(code),
    }
}

fn read_arguments(
    alloc: Global,
    kind: Listed,
    lexer: &mut Lexer,
) -> Result<Result<Stanza, FaultCode>, AllocError>
    ensures { IfOk result (λ stanza. IsFound
        (and_then_found (listed_of kind) (texts_at lexer.old)) stanza lexer.new) }
{
    match read_texts(alloc, lexer)? {
        Ok(texts) => read_listed(alloc, kind, texts),
        Err(code) => Ok(Err(code)),
    }
}

fn read_start(alloc: Global, lexer: &mut Lexer) -> Result<Result<Stanza, FaultCode>, AllocError>
    ensures { IfOk result (λ stanza. IsFound (stanza_as kind.Start lexer.old) stanza lexer.new) }
{
    match read_expression(alloc, lexer)? {
        Ok(tree) => Ok(Ok(Stanza::StartOn(tree))),
        Err(code) => Ok(Err(code)),
    }
}

fn read_stop(alloc: Global, lexer: &mut Lexer) -> Result<Result<Stanza, FaultCode>, AllocError>
    ensures { IfOk result (λ stanza. IsFound (stanza_as kind.Stop lexer.old) stanza lexer.new) }
{
    match read_expression(alloc, lexer)? {
        Ok(tree) => Ok(Ok(Stanza::StopOn(tree))),
        Err(code) => Ok(Err(code)),
    }
}

// Reads a stanza of this kind; the lexer's position is then after it.
fn read_kind(
    alloc: Global,
    kind: Kind,
    lexer: &mut Lexer,
) -> Result<Result<Stanza, FaultCode>, AllocError>
    ensures { IfOk result (λ stanza. IsFound (stanza_as kind lexer.old) stanza lexer.new) }
{
    match kind {
        Kind::Listed(kind) => read_arguments(alloc, kind, lexer),
        Kind::Exec => {
            let action = read_exec(alloc, lexer)?;
            Ok(as_main(action))
        }
        Kind::Script => {
            let action = read_script(alloc, lexer)?;
            Ok(as_main(action))
        }
        Kind::PreStart => read_runs(alloc, Process::PreStart, lexer),
        Kind::PostStart => read_runs(alloc, Process::PostStart, lexer),
        Kind::PreStop => read_runs(alloc, Process::PreStop, lexer),
        Kind::PostStop => read_runs(alloc, Process::PostStop, lexer),
        Kind::Start => read_start(alloc, lexer),
        Kind::Stop => read_stop(alloc, lexer),
    }
}

// The fault of a word that begins no stanza: some stanzas of init(5) aren't supported.
fn no_kind(word: &str) -> FaultCode {
    match word {
        "expect"
        | "chroot"
        | "setuid"
        | "setgid"
        | "umask"
        | "nice"
        | "limit"
        | "oom"
        | "apparmor"
        | "cgroup" => FaultCode::NotInProfile,
        _ => FaultCode::UnknownStanza,
    }
}

/// Reads the next stanza; the lexer's position is then after it.
pub(crate) fn read_stanza(
    alloc: Global,
    lexer: &mut Lexer,
) -> Result<Result<Stanza, FaultCode>, AllocError>
    ensures { IfOk result (λ stanza. IsFound (stanza_at lexer.old) stanza lexer.new) }
{
    match next_token(alloc, lexer)? {
        Next::Token(token) => match kind_of(token.text.as_str()) {
            Some(kind) => read_kind(alloc, kind, lexer),
            None => Ok(Err(no_kind(token.text.as_str()))),
        },
        Next::End => Ok(Err(FaultCode::ExpectedToken)),
        Next::Refused(code) => Ok(Err(code)),
    }
}

/// The remaining stanzas, up to the first unreadable one, and its fault and line.
pub(crate) fn read_stanzas(
    alloc: Global,
    lexer: Lexer,
) -> Result<(Stanzas, Option<ConfFault>), AllocError>
    ensures { IfOk result (λ read. (read.0, option_map (λ fault. fault.line) read.1)
        ≡ stanzas_of lexer.entry) }
{
    let mut lexer = lexer;
    let mut stanzas: Vec<Stanza> = Vec::new(alloc);
    'stanzas: while !lexer.at_end() {
        let line = lexer.line();
        match read_stanza(alloc, &mut lexer)? {
            Ok(stanza) => stanzas.push(stanza)?,
            Err(code) => return Ok((Items::new(stanzas), Some(ConfFault { line, code }))),
        }
    }
    Ok((Items::new(stanzas), None))
}
