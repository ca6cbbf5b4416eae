//! The tokens of a text, one at a time.

ghost use Rattle.std.specs.Prelude.{◌≤◌, ◌<◌, List, length, IfErr, IfSome, OnOk, None, IsUtf8};
ghost use Rattle.ofn_lex.specs.Texts.{HasTokens};
ghost use Rattle.ofn_lex.specs.declared.token.Token.{Token};
ghost use Rattle.ofn_term.specs.Inside.TokenReading.{AreAllTokens, IsLexFault, Begins};
ghost use Rattle.ofn_term.specs.Texts.{IsAtCharacter};

use crate::TermFault;
use ofn_lex::{LexFault, Token, next_token, what_is_read_is_what_the_format_has};

// Whether the text has tokens to its end.
pub fn check_tokens(text: &[u8]) -> Result<(), TermFault>
    ensures ok { OnOk result (AreAllTokens text.now) }
    ensures err { IfErr result (IsLexFault text.now) }
    ensures characters { IsUtf8 text.now → IfErr result (IsAtCharacter text.now) }
{
    let mut at = 0;
    loop {
        let next = match next_token(text, at) {
            Ok(next) => next,
            Err(LexFault { offset }) => return Err(TermFault::Lex { offset }),
        };
        let Some(token) = next else {
            return Ok(());
        };
        at = token.end;
    }
}

// The first token from an offset on, in a text that has tokens to its end.
pub fn token_from(text: &[u8], at: usize) -> Option<Token>
    requires { at ≤ length text.now }
    ensures begins { (tokens : List Token) → HasTokens text.now at tokens None →
        Begins text.now result tokens }
    ensures past { IfSome result (λ token. at < token.end) }
    ensures within { IfSome result (λ token. token.end ≤ length text.now) }
{
    what_is_read_is_what_the_format_has();
    match next_token(text, at) {
        Ok(next) => next,
        Err(_) => None,
    }
}
