//! Reads the tokens of a stanza.
ghost use Rattle.std.specs.Prelude.{◌≡◌, IfOk, OnErr, Some};
ghost use Rattle.up_text.specs.Commands.{command_marks_at};
ghost use Rattle.up_text.specs.Places.{fault_in, reading};
ghost use Rattle.up_value.specs.declared.fault.TextFault.{TextFault};
ghost use Rattle.up_value.specs.declared.fault.TextFault.TheVariants.{Memory};
ghost use Rattle.up_text.specs.Statements.{statement_of};
ghost use Rattle.up_stanza.specs.Stanzas.{texts_at};
ghost use Rattle.up_stanza.specs.Reading.{Continues, HasText, IsFound, LacksMemory};

use crate::fault::FaultCode;
use std::alloc::{AllocError, Global};
use up_text::{Items, Lexer, Text, TextFault, Token};

/// More tokens than most expressions have.
const MANY: usize = 16;

/// The next item of a stanza.
#[derive(Drop)]
pub(crate) enum Next {
    Token(Token),
    /// The stanza's end.
    End,
    /// A token with a fault.
    Refused(FaultCode),
}

fn code_of(fault: TextFault) -> FaultCode {
    match fault {
        TextFault::UnterminatedQuote => FaultCode::UnterminatedQuote,
        TextFault::TrailingBackslash => FaultCode::TrailingBackslash,
        TextFault::BadName => FaultCode::BadName,
        TextFault::BadExpansion => FaultCode::BadExpansion,
        TextFault::Memory => FaultCode::Memory,
    }
}

/// The next item; after a token or an end the lexer moves past it.
#[tactic(auto, using(up_text::proofs::Statements::got_by, up_text::proofs::Statements::ended_by, up_text::proofs::Statements::fails_by, crate::proofs::Telling::lacks_by))]
pub(crate) fn next_token(alloc: Global, lexer: &mut Lexer) -> Result<Next, AllocError>
    ensures next { IfOk result (Continues lexer.old lexer.new) }
    ensures memory { OnErr result (LacksMemory (reading lexer.old)) }
{
    match lexer.next(alloc) {
        Ok(Some(token)) => Ok(Next::Token(token)),
        Ok(None) => Ok(Next::End),
        Err(TextFault::Memory) => Err(AllocError),
        Err(fault) => Ok(Next::Refused(code_of(fault))),
    }
}

/// The tokens up to the stanza's end; the lexer's position is then after it.
pub(crate) fn read_statement(
    alloc: Global,
    lexer: &mut Lexer,
) -> Result<Result<Items<Token>, FaultCode>, AllocError>
    ensures { IfOk result (λ statement. IsFound (statement_of lexer.old) statement lexer.new) }
{
    let mut tokens: Vec<Token> = Vec::with_capacity(alloc, MANY)?;
    'tokens: loop {
        match next_token(alloc, lexer)? {
            Next::Token(token) => tokens.push(token)?,
            Next::End => break,
            Next::Refused(code) => return Ok(Err(code)),
        }
    }
    Ok(Ok(Items::new(tokens)))
}

/// The texts of the tokens up to the stanza's end; the lexer's position is then after it.
pub(crate) fn read_texts(
    alloc: Global,
    lexer: &mut Lexer,
) -> Result<Result<Items<Text>, FaultCode>, AllocError>
    ensures { IfOk result (λ texts. IsFound (texts_at lexer.old) texts lexer.new) }
{
    let mut texts: Vec<Text> = Vec::new(alloc);
    'texts: loop {
        match next_token(alloc, lexer)? {
            Next::Token(token) => texts.push(token.text)?,
            Next::End => break,
            Next::Refused(code) => return Ok(Err(code)),
        }
    }
    Ok(Ok(Items::new(texts)))
}

/// The text of a command; the lexer's position is then at the stanza's end.
#[tactic(auto, using(crate::proofs::Telling::text_read, crate::proofs::Telling::text_refused, crate::proofs::Telling::text_lacks))]
pub(crate) fn read_command_text(
    alloc: Global,
    lexer: &mut Lexer,
) -> Result<Result<Text, FaultCode>, AllocError>
    ensures text { IfOk result (λ text. HasText lexer.old text lexer.new) }
    ensures memory { OnErr result ((fault : TextFault) → fault_in (command_marks_at lexer.old) ≡ Some fault
        → fault ≡ Memory) }
{
    match lexer.command_text(alloc) {
        Ok(text) => Ok(Ok(text)),
        Err(TextFault::Memory) => Err(AllocError),
        Err(fault) => Ok(Err(code_of(fault))),
    }
}
