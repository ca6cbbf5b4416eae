//! The next token of a text.

ghost use Rattle.std.specs.Prelude.{◌≡◌, ◌≤◌, ◌<◌, ◌+◌, ◌^◌, length, ℕ, IsUtf8, IfSome, IfOk, IfErr};
ghost use Rattle.std.specs.Str.{IsCharBoundary};
ghost use Rattle.ofn_lex.specs.Texts.{IsAnswer, CutsAtCharacters};
ghost use Rattle.ofn_lex.specs.NextToken.{token_to, token_at, first_of, next_of};

use crate::bytes::is_run_byte;
use crate::ends::{carets_end, gap_end, iri_end, language_end, quoted_end, run_end};
use crate::{LexFault, Token, TokenKind};

/// The next token of a text from an offset on, or nothing if only white space and comments are
/// left. White space is space, tab, line feed and carriage return; a comment goes from `#` to the
/// end of its line. A token is the longest that its first byte allows.
pub fn next_token(text: &[u8], from: usize) -> Result<Option<Token>, LexFault>
    requires { from ≤ length text.now }
    ensures answer { result ≡ next_of text.now from }
    ensures format { IsAnswer text.now from result }
    ensures characters { IsUtf8 text.now → IsCharBoundary text.now from →
        CutsAtCharacters text.now result }
    ensures past { IfOk result (λ token. IfSome token (λ token.
        (from ≤ token.start) × (token.start < token.end))) }
    ensures within { IfOk result (λ token. IfSome token (λ token. token.end ≤ length text.now)) }
    ensures fault { IfErr result (λ fault.
        (from ≤ fault.offset) × (fault.offset < length text.now)) }
{
    let at = gap_end(from, &text[from..]);
    first_of(at, &text[at..])
}

fn first_of(at: usize, bytes: &[u8]) -> Result<Option<Token>, LexFault>
    requires { at + length bytes.now < 2 ^ 63 }
    ensures answer { result ≡ first_of at bytes.now }
    ensures past { IfOk result (λ token. IfSome token (λ token.
        (at ≤ token.start) × (token.start < token.end))) }
    ensures within { IfOk result (λ token. IfSome token (λ token.
        token.end ≤ at + length bytes.now)) }
    ensures fault { IfErr result (λ fault.
        (at ≤ fault.offset) × (fault.offset < at + length bytes.now)) }
{
    let [first, rest @ ..] = bytes else {
        return Ok(None);
    };
    match token_at(at, *first, rest) {
        None => Err(LexFault { offset: at }),
        Some(token) => Ok(Some(token)),
    }
}

// The token at `at`, with the byte `first` before `rest`.
fn token_at(at: usize, first: u8, rest: &[u8]) -> Option<Token>
    requires { at + length rest.now + 1 < 2 ^ 63 }
    ensures token { result ≡ token_at at first rest.now }
    ensures past { IfSome result (λ token. (at ≤ token.start) × (token.start < token.end)) }
    ensures within { IfSome result (λ token. token.end ≤ at + length rest.now + 1) }
{
    match first {
        b'(' => token_to(TokenKind::Open, at, Some(at + 1)),
        b')' => token_to(TokenKind::Close, at, Some(at + 1)),
        b'=' => token_to(TokenKind::Equals, at, Some(at + 1)),
        b'<' => token_to(TokenKind::FullIri, at, iri_end(at + 1, rest)),
        b'"' => token_to(TokenKind::Quoted, at, quoted_end(at + 1, rest)),
        b'@' => token_to(TokenKind::Lang, at, language_end(at + 1, rest)),
        b'^' => token_to(TokenKind::Carets, at, carets_end(at + 1, rest)),
        _ if is_run_byte(first) => token_to(TokenKind::Run, at, Some(run_end(at + 1, rest))),
        _ => None,
    }
}

fn token_to(kind: TokenKind, start: usize, end: Option<usize>) -> Option<Token>
    ensures token { result ≡ token_to kind start end }
    ensures past { IfSome end (λ e. start < e) →
        IfSome result (λ token. (start ≤ token.start) × (token.start < token.end)) }
    ensures within { (n : ℕ) → IfSome end (λ e. e ≤ n) → IfSome result (λ token. token.end ≤ n) }
{
    match end {
        None => None,
        Some(end) => Some(Token { kind, start, end }),
    }
}

#[cfg(test)]
mod tests {
    use super::*;
    use crate::TokenKind::{Carets, Close, Equals, FullIri, Lang, Open, Quoted, Run};
    use std::alloc::{AllocError, Global};
    use std::test::Fail;

    type Reading = (Vec<Token>, Option<LexFault>);

    fn read_all(alloc: Global, text: &[u8]) -> Result<Reading, AllocError> {
        let mut tokens = Vec::new(alloc);
        let mut from = 0;
        for _ in 0..text.len() {
            if from > text.len() {
                break;
            }
            match next_token(text, from) {
                Ok(Some(token)) => {
                    tokens.push(token)?;
                    from = token.end;
                }
                Ok(None) => break,
                Err(fault) => return Ok((tokens, Some(fault))),
            }
        }
        Ok((tokens, None))
    }

    // Two samples with a gap between them: two runs with an empty one are one run.
    fn tokens_of_pair(
        alloc: Global,
        (kind, sample): (TokenKind, &str),
        gap: &str,
        (other_kind, other): (TokenKind, &str),
    ) -> Result<Vec<Token>, AllocError> {
        let end = sample.len();
        let start = end.saturating_add(gap.len());
        let last = start.saturating_add(other.len());
        let mut tokens = Vec::new(alloc);
        if kind == Run && other_kind == Run && gap.is_empty() {
            tokens.push(Token {
                kind,
                start: 0,
                end: last,
            })?;
            return Ok(tokens);
        }
        tokens.push(Token {
            kind,
            start: 0,
            end,
        })?;
        tokens.push(Token {
            kind: other_kind,
            start,
            end: last,
        })?;
        Ok(tokens)
    }

    #[test]
    fn reads_each_kind_before_each(rt: HostRuntime) -> Result<(), Fail> {
        let alloc = rt.alloc();
        let samples = [
            (Open, "("),
            (Close, ")"),
            (Equals, "="),
            (FullIri, "<http://a/#b>"),
            (Quoted, r##""a \"#\" \\""##),
            (Lang, "@en-GB"),
            (Carets, "^^"),
            (Run, ":a"),
        ];
        for one in samples {
            for other in samples {
                for gap in ["", " ", "\r", "# (\t\r\n"] {
                    let text = format!(in alloc; "{}{gap}{}", one.1, other.1)?;
                    let (tokens, fault) = read_all(alloc, text.as_str().as_bytes())?;
                    assert_eq!(rt; tokens, tokens_of_pair(alloc, one, gap, other)?, "{text}");
                    assert_eq!(rt; fault, None, "{text}");
                }
            }
        }
        Ok(())
    }

    #[test]
    fn reads_rows(rt: HostRuntime) -> Result<(), Fail> {
        let alloc = rt.alloc();
        let rows: [(&str, &[(TokenKind, usize, usize)], Option<usize>); 53] = [
            ("", &[], None),
            (" \t\r\n", &[], None),
            ("# (", &[], None),
            ("#", &[], None),
            ("#(\n)", &[(Close, 3, 4)], None),
            ("#(\r)", &[(Close, 3, 4)], None),
            ("##\n#\n)", &[(Close, 5, 6)], None),
            ("a\rb", &[(Run, 0, 1), (Run, 2, 3)], None),
            ("a#b\nc", &[(Run, 0, 1), (Run, 4, 5)], None),
            ("a=b", &[(Run, 0, 1), (Equals, 1, 2), (Run, 2, 3)], None),
            ("<>", &[(FullIri, 0, 2)], None),
            ("<#a>", &[(FullIri, 0, 4)], None),
            ("<!\u{7f}>", &[(FullIri, 0, 4)], None),
            ("<a b>", &[], Some(0)),
            ("<a\n>", &[], Some(0)),
            ("<\u{1}>", &[], Some(0)),
            ("<a<b>", &[], Some(0)),
            ("(<a", &[(Open, 0, 1)], Some(1)),
            ("<", &[], Some(0)),
            (">", &[], Some(0)),
            ("a>", &[(Run, 0, 1)], Some(1)),
            (r"a\", &[(Run, 0, 1)], Some(1)),
            (r#""""#, &[(Quoted, 0, 2)], None),
            ("\"\n\"", &[(Quoted, 0, 3)], None),
            ("\"\u{0}<\"", &[(Quoted, 0, 4)], None),
            (r##""#)"##, &[], Some(0)),
            (r##"("#)"##, &[(Open, 0, 1)], Some(1)),
            (r#""\"\\"a"#, &[(Quoted, 0, 6), (Run, 6, 7)], None),
            (r#""\"#, &[], Some(0)),
            (r#""\""#, &[], Some(0)),
            (r#""\a""#, &[], Some(0)),
            (r#"""#, &[], Some(0)),
            (r"\", &[], Some(0)),
            ("^", &[], Some(0)),
            ("^ ^", &[], Some(0)),
            ("^^^", &[(Carets, 0, 2)], Some(2)),
            ("@", &[], Some(0)),
            ("@ en", &[], Some(0)),
            ("@en_GB", &[(Lang, 0, 3), (Run, 3, 6)], None),
            ("@a/[`{", &[(Lang, 0, 2), (Run, 2, 6)], None),
            ("@-Zz09(", &[(Lang, 0, 6), (Open, 6, 7)], None),
            ("a:b/c,d'e", &[(Run, 0, 9)], None),
            // A no-break space, a vertical tab and a form feed are no white space, and neither
            // these nor a next line and a line separator end a comment.
            ("\u{a0}\u{b}\u{c}", &[(Run, 0, 4)], None),
            ("#\u{b}\u{c}\u{85}\u{2028})\n(", &[(Open, 10, 11)], None),
            ("\u{0}\u{8}\u{e}\u{1f}", &[(Run, 0, 4)], None),
            // Characters of two, three and four bytes.
            ("<é€😀>", &[(FullIri, 0, 11)], None),
            ("\"é€😀\"", &[(Quoted, 0, 11)], None),
            ("é€😀:é)", &[(Run, 0, 12), (Close, 12, 13)], None),
            (
                "(é)€=😀",
                &[
                    (Open, 0, 1),
                    (Run, 1, 3),
                    (Close, 3, 4),
                    (Run, 4, 7),
                    (Equals, 7, 8),
                    (Run, 8, 12),
                ],
                None,
            ),
            ("#é€😀\n(", &[(Open, 11, 12)], None),
            ("@aé", &[(Lang, 0, 2), (Run, 2, 4)], None),
            ("@€", &[], Some(0)),
            ("^^😀^é", &[(Carets, 0, 2), (Run, 2, 6)], Some(6)),
        ];
        for (text, wanted, wanted_fault) in rows {
            let (tokens, fault) = read_all(alloc, text.as_bytes())?;
            assert_eq!(rt; tokens.len(), wanted.len(), "{text}");
            for (token, (kind, start, end)) in tokens.iter().zip(wanted) {
                let wanted = Token {
                    kind: *kind,
                    start: *start,
                    end: *end,
                };
                assert_eq!(rt; *token, wanted, "{text}");
            }
            assert_eq!(rt; fault.map(|fault| fault.offset), wanted_fault, "{text}");
        }
        Ok(())
    }
}
