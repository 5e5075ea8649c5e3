//! Reads the expressions of `start on` and `stop on`.
ghost use Rattle.std.specs.Prelude.{◌≡◌, IfOk, MatchBool, OnErr, is_some, true};
ghost use Rattle.std.specs.Result.{result_ok};
ghost use Rattle.up_text.specs.Places.{reading, with_parens};
ghost use Rattle.up_text.specs.Statements.{statement_of};
ghost use Rattle.up_expr.specs.declared.fault.ExprFault.TheVariants.{Memory};
ghost use Rattle.up_stanza.specs.Reading.{IsFound, HasOn};
ghost use Rattle.up_stanza.specs.Stanzas.{expression_by, and_then_found, expression_in, without_parens};

use crate::fault::FaultCode;
use crate::statement::{Next, next_token, read_statement};
use std::alloc::{AllocError, Global};
use up_expr::{Condition, ExprFault, parse_expr};
use up_text::{Lexer, Token};

// Reads the token `on`; on success the lexer's position is after it.
fn read_on(alloc: Global, lexer: &mut Lexer) -> Result<Result<(), FaultCode>, AllocError>
    ensures { IfOk result (λ found. HasOn (reading lexer.old) found lexer.new) }
{
    match next_token(alloc, lexer)? {
        Next::Token(token) => {
            if token.text.is("on") {
                Ok(Ok(()))
            } else {
                Ok(Err(FaultCode::UnknownStanza))
            }
        }
        Next::End => Ok(Err(FaultCode::ExpectedToken)),
        Next::Refused(code) => Ok(Err(code)),
    }
}

fn code_of(fault: ExprFault) -> FaultCode {
    match fault {
        ExprFault::BadExpression => FaultCode::BadExpression,
        ExprFault::ValueBeforeKey => FaultCode::ValueBeforeKey,
        ExprFault::BadName => FaultCode::BadName,
        ExprFault::BadPattern => FaultCode::BadPattern,
        ExprFault::BadExpansion => FaultCode::BadExpansion,
        ExprFault::TooLarge => FaultCode::TooLarge,
        ExprFault::Memory => FaultCode::Memory,
    }
}

fn is_memory(fault: ExprFault) -> bool
    ensures { MatchBool result (fault ≡ Memory) (fault ≡ Memory → ⊥) }
{
    matches!(fault, ExprFault::Memory)
}

fn parse(alloc: Global, tokens: &[Token]) -> Result<Result<Condition, FaultCode>, AllocError>
    ensures tree { IfOk result (λ tree. result_ok tree ≡ expression_in tokens.now) }
    ensures memory { OnErr result (is_some (expression_in tokens.now) ≡ true) }
{
    match parse_expr(alloc, tokens) {
        Ok(tree) => Ok(Ok(tree)),
        Err(fault) => {
            if is_memory(fault) {
                return Err(AllocError);
            }
            Ok(Err(code_of(fault)))
        }
    }
}

// The expression up to the stanza's end, with parentheses as tokens.
fn read_tree(alloc: Global, lexer: &mut Lexer) -> Result<Result<Condition, FaultCode>, AllocError>
    ensures { IfOk result (λ tree. IsFound
        (without_parens (and_then_found expression_in
        (statement_of (with_parens true lexer.old)))) tree lexer.new) }
{
    lexer.parens(true);
    match read_statement(alloc, lexer)? {
        Ok(tokens) => {
            lexer.parens(false);
            parse(alloc, tokens.as_slice())
        }
        Err(code) => Ok(Err(code)),
    }
}

pub(crate) fn read_expression(
    alloc: Global,
    lexer: &mut Lexer,
) -> Result<Result<Condition, FaultCode>, AllocError>
    ensures { IfOk result (λ tree. IsFound (expression_by (reading lexer.old)) tree lexer.new) }
{
    match read_on(alloc, lexer)? {
        Ok(()) => read_tree(alloc, lexer),
        Err(code) => Ok(Err(code)),
    }
}
