//! What a token is to the items.

ghost use Rattle.std.specs.Prelude.{◌≡◌, ◌==◌, ◌&&◌};
ghost use Rattle.std.specs.List.{list_any};
ghost use Rattle.ofn_term.specs.Words.{bytes_of, is_open, is_close, is_run, is_word};

use ofn_lex::{Token, TokenKind};

pub fn is_open(token: Token) -> bool
    ensures { result ≡ is_open token }
{
    matches!(token.kind, TokenKind::Open)
}

pub fn is_close(token: Token) -> bool
    ensures { result ≡ is_close token }
{
    matches!(token.kind, TokenKind::Close)
}

fn is_run(token: Token) -> bool
    ensures { result ≡ is_run token }
{
    matches!(token.kind, TokenKind::Run)
}

/// The bytes of a token, or none if it does not lie within the text.
pub fn bytes_of(text: &[u8], token: Token) -> &[u8]
    ensures { result.now ≡ bytes_of text.now token }
{
    if token.start <= token.end && token.end <= text.len() {
        return &text[token.start..token.end];
    }
    &[]
}

fn has_colon(bytes: &[u8]) -> bool
    ensures { result ≡ list_any (λ b. b == 58) bytes.now }
{
    bytes.iter().any(|byte| *byte == b':')
}

pub fn is_word(text: &[u8], token: Token) -> bool
    ensures { result ≡ is_word text.now token }
{
    is_run(token) && !has_colon(bytes_of(text, token))
}
