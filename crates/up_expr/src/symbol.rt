//! Which tokens are operators and parentheses.
ghost use Rattle.std.specs.Prelude.{◌≡◌, not};
ghost use Rattle.std.specs.List.{prefix_len};
ghost use Rattle.up_expr.specs.Values as values;

use up_text::Token;

// Only a plain token, one without quotes and backslashes, is an operator or a parenthesis.
fn is_plainly(text: &str, token: &Token) -> bool
    ensures { result ≡ values.is_plainly text.now token.now }
{
    token.plain && token.text.as_str() == text
}

pub(crate) fn is_open(token: &Token) -> bool
    ensures { result ≡ values.is_open token.now }
{
    is_plainly("(", token)
}

pub(crate) fn is_close(token: &Token) -> bool
    ensures { result ≡ values.is_close token.now }
{
    is_plainly(")", token)
}

pub(crate) fn is_and(token: &Token) -> bool
    ensures { result ≡ values.is_and token.now }
{
    is_plainly("and", token)
}

pub(crate) fn is_operator(token: &Token) -> bool
    ensures { result ≡ values.is_operator token.now }
{
    is_and(token) || is_plainly("or", token)
}

fn is_symbol(token: &Token) -> bool
    ensures { result ≡ values.is_symbol token.now }
{
    is_open(token) || is_close(token) || is_operator(token)
}

/// The number of tokens of the leaf at the start: the longest run of tokens that are neither operators nor parentheses.
pub(crate) fn leaf_len(tokens: &[Token]) -> usize
    ensures { result ≡ prefix_len (λ token. not (values.is_symbol token)) tokens.now }
{
    tokens.iter().take_while(|token| !is_symbol(token)).count()
}
