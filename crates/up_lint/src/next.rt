//! Reads the words of a stanza.
ghost use Rattle.std.specs.Prelude.{◌≡◌, IfOk};
ghost use Rattle.up_lint.specs.Heads.{Continues, IsFound};
ghost use Rattle.up_stanza.specs.Stanzas.{texts_at};

use std::alloc::{AllocError, Global};
use up_text::{Items, Lexer, Text, TextFault, Token};

/// The next item of a stanza.
#[derive(Drop)]
pub(crate) enum Next {
    Token(Token),
    /// The stanza's end.
    End,
    /// A token with a fault.
    Refused,
}

/// The next item; after a token or an end the lexer moves past it.
#[tactic(auto, using(up_text::proofs::Statements::got_by, up_text::proofs::Statements::ended_by, up_text::proofs::Statements::fails_by))]
pub(crate) fn next_token(alloc: Global, lexer: &mut Lexer) -> Result<Next, AllocError>
    ensures { IfOk result (Continues lexer.old lexer.new) }
{
    match lexer.next(alloc) {
        Ok(Some(token)) => Ok(Next::Token(token)),
        Ok(None) => Ok(Next::End),
        Err(TextFault::Memory) => Err(AllocError),
        Err(_) => Ok(Next::Refused),
    }
}

/// The texts of the tokens up to the stanza's end, `None` if one has a fault; the lexer's position is then after it.
pub(crate) fn read_texts(
    alloc: Global,
    lexer: &mut Lexer,
) -> Result<Option<Items<Text>>, AllocError>
    ensures { IfOk result (λ texts. IsFound (texts_at lexer.old) texts lexer.new) }
{
    let mut texts: Vec<Text> = Vec::new(alloc);
    'texts: loop {
        match next_token(alloc, lexer)? {
            Next::Token(token) => texts.push(token.text)?,
            Next::End => break,
            Next::Refused => return Ok(None),
        }
    }
    Ok(Some(Items::new(texts)))
}
