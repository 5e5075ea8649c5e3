//! Reads the command or script that a process runs.
ghost use Rattle.std.specs.Prelude.{◌≡◌, IfOk, OnErr, Some, is_some, true};
ghost use Rattle.up_text.specs.Places.{reading};
ghost use Rattle.up_text.specs.Scripts.{lines_of, script_in};
ghost use Rattle.up_stanza.specs.declared.stanza.Stanza.TheVariants.{Runs};
ghost use Rattle.up_stanza.specs.Reading.{IsFound};
ghost use Rattle.up_stanza.specs.Stanzas.{action_at, command_at, with_end, map_found, script_at, script_of};

use crate::action::Action;
use crate::command::read_command;
use crate::fault::FaultCode;
use crate::process::Process;
use crate::stanza::Stanza;
use crate::statement::{Next, next_token, read_command_text};
use std::alloc::{AllocError, Global};
use up_text::Lexer;

// Fails with `UnexpectedToken` if the stanza doesn't end here.
fn read_end(
    alloc: Global,
    action: Action,
    lexer: &mut Lexer,
) -> Result<Result<Action, FaultCode>, AllocError>
    ensures { IfOk result (λ read. IsFound (with_end (Some action) (reading lexer.old)) read lexer.new) }
{
    match next_token(alloc, lexer)? {
        Next::Token(_) => Ok(Err(FaultCode::UnexpectedToken)),
        Next::End => Ok(Ok(action)),
        Next::Refused(code) => Ok(Err(code)),
    }
}

/// The command that is the rest of the stanza; the lexer's position is then after the stanza's end.
pub(crate) fn read_exec(
    alloc: Global,
    lexer: &mut Lexer,
) -> Result<Result<Action, FaultCode>, AllocError>
    ensures { IfOk result (λ action. IsFound (command_at lexer.old) action lexer.new) }
{
    match read_command_text(alloc, lexer)? {
        Ok(text) => match read_command(alloc, text.as_str())? {
            Ok(action) => read_end(alloc, action, lexer),
            Err(code) => Ok(Err(code)),
        },
        Err(code) => Ok(Err(code)),
    }
}

// The script up to its end line; the lexer's position is then after that line.
fn read_lines(alloc: Global, lexer: &mut Lexer) -> Result<Result<Action, FaultCode>, AllocError>
    ensures script { IfOk result (λ action. IsFound
        (script_of lexer.old (script_in (lines_of lexer.old.rest))) action lexer.new) }
    ensures memory { OnErr result (is_some (script_in (lines_of lexer.old.rest)) ≡ true) }
{
    match lexer.script_lines(alloc) {
        Ok(Some(lines)) => Ok(Ok(Action::Shell(lines))),
        Ok(None) => Ok(Err(FaultCode::UnterminatedBlock)),
        Err(_) => Err(AllocError),
    }
}

/// The script on the next lines; the lexer's position is then after its end line.
pub(crate) fn read_script(
    alloc: Global,
    lexer: &mut Lexer,
) -> Result<Result<Action, FaultCode>, AllocError>
    ensures { IfOk result (λ action. IsFound (script_at lexer.old) action lexer.new) }
{
    match next_token(alloc, lexer)? {
        Next::Token(_) => Ok(Err(FaultCode::UnexpectedToken)),
        Next::End => read_lines(alloc, lexer),
        Next::Refused(code) => Ok(Err(code)),
    }
}

// Reads `exec` or `script`.
fn read_action(alloc: Global, lexer: &mut Lexer) -> Result<Result<Action, FaultCode>, AllocError>
    ensures { IfOk result (λ action. IsFound (action_at lexer.old) action lexer.new) }
{
    match next_token(alloc, lexer)? {
        Next::Token(token) => {
            if token.text.is("exec") {
                return read_exec(alloc, lexer);
            }
            if token.text.is("script") {
                return read_script(alloc, lexer);
            }
            Ok(Err(FaultCode::UnknownStanza))
        }
        Next::End => Ok(Err(FaultCode::ExpectedToken)),
        Next::Refused(code) => Ok(Err(code)),
    }
}

/// Reads `exec` or `script` after the name of the process.
pub(crate) fn read_runs(
    alloc: Global,
    process: Process,
    lexer: &mut Lexer,
) -> Result<Result<Stanza, FaultCode>, AllocError>
    ensures { IfOk result (λ stanza. IsFound
        (map_found (Runs process) (action_at lexer.old)) stanza lexer.new) }
{
    match read_action(alloc, lexer)? {
        Ok(action) => Ok(Ok(Stanza::Runs(process, action))),
        Err(code) => Ok(Err(code)),
    }
}
