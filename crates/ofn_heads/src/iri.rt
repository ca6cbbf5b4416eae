//! Pieces of a text, and the IRIs that tokens stand for.

ghost use Rattle.std.specs.Prelude.{◌≡◌, IfOk};
ghost use Rattle.ofn_heads.specs.Names.{text_of, piece, iri_between, spelling, expanded, name_of_token, is_iri};
ghost use Rattle.text_names.specs.Prefixes.{has_colon};

use ofn_lex::{Token, TokenKind};
use std::alloc::{AllocError, Global};
use text_names::{PrefixFault, PrefixMap, Text};

/// What a token stands for, where an IRI may stand.
#[derive(Debug, Drop)]
pub enum Named {
    /// The IRI, expanded if it is abbreviated.
    Iri(Text),
    /// An abbreviated IRI whose prefix is not declared.
    Unknown,
    /// Not an IRI.
    NoIri,
}

/// The text between two offsets, or an empty text if these don't cut the text at characters.
pub fn piece(text: &[u8], start: usize, end: usize) -> &str
    ensures { result.now ≡ piece text.now start end }
{
    if start <= end && end <= text.len() {
        return text_of(&text[start..end]);
    }
    ""
}

#[tactic(auto, using(crate::proofs::PieceLaws::text_kept, crate::proofs::PieceLaws::text_left_out))]
fn text_of(bytes: &[u8]) -> &str
    ensures { result.now ≡ text_of bytes.now }
{
    match str::from_utf8(bytes) {
        Ok(text) => text,
        Err(_) => "",
    }
}

/// What a full IRI has between `<` and `>`.
pub fn iri_between(text: &[u8], token: Token) -> &str
    ensures { result.now ≡ iri_between text.now token }
{
    if token.start < token.end {
        return piece(text, token.start + 1, token.end - 1);
    }
    ""
}

pub(crate) fn spelling(text: &[u8], token: Token) -> &str
    ensures { result.now ≡ spelling text.now token }
{
    piece(text, token.start, token.end)
}

fn has_colon(short: &[u8]) -> bool
    ensures { result ≡ has_colon short.now }
{
    short.iter().any(|byte| *byte == b':')
}

/// If a token is a full IRI or an abbreviated one.
pub fn is_iri(text: &[u8], token: Token) -> bool
    ensures { result ≡ is_iri text.now token }
{
    match token.kind {
        TokenKind::FullIri => true,
        TokenKind::Run => has_colon(spelling(text, token).as_bytes()),
        _ => false,
    }
}

/// The IRI that a token stands for. An abbreviated IRI is split at its first colon.
pub fn name_of(
    alloc: Global,
    text: &[u8],
    prefixes: &PrefixMap,
    token: Token,
) -> Result<Named, AllocError>
    ensures { IfOk result (λ named. named ≡ name_of_token text.now prefixes.now token) }
{
    match token.kind {
        TokenKind::FullIri => Ok(Named::Iri(text_copy(alloc, iri_between(text, token))?)),
        TokenKind::Run => expanded(prefixes, spelling(text, token)),
        _ => Ok(Named::NoIri),
    }
}

fn text_copy(alloc: Global, text: &str) -> Result<Text, AllocError>
    ensures { IfOk result (λ copy. copy ≡ text.now) }
{
    match Text::of(alloc, text.as_bytes()) {
        Ok(copy) => Ok(copy),
        Err(_) => Err(AllocError),
    }
}

fn expanded(prefixes: &PrefixMap, short: &str) -> Result<Named, AllocError>
    ensures { IfOk result (λ named. named ≡ expanded prefixes.now short.now) }
{
    match prefixes.expand(short.as_bytes()) {
        Ok(iri) => Ok(Named::Iri(iri)),
        Err(PrefixFault::Unknown) => Ok(Named::Unknown),
        Err(PrefixFault::NoColon) => Ok(Named::NoIri),
        Err(_) => Err(AllocError),
    }
}
