//! Prefixes: those known from the start, and those that a document declares.

ghost use Rattle.std.specs.Prelude.{◌≡◌, [], IfOk, OnOk};
ghost use Rattle.std.specs.Option.{option_map};
ghost use Rattle.text_names.specs.Prefixes.{with_prefix};
ghost use Rattle.ofn_heads.specs.Names.{declared_prefix, before_last, known, spelling};
ghost use Rattle.text_names.specs.Prefixes.{rest_of};

use crate::iri::spelling;
use ofn_lex::{Token, TokenKind};
use std::alloc::{AllocError, Global};
use text_names::PrefixMap;

/// The prefixes that every document knows: `rdf`, `rdfs`, `xsd` and `owl`.
pub fn known_prefixes(alloc: Global) -> Result<PrefixMap, AllocError>
    ensures { IfOk result (λ prefixes. prefixes ≡ known) }
{
    let mut prefixes = PrefixMap::new(alloc);
    add(
        &mut prefixes,
        "rdf",
        "http://www.w3.org/1999/02/22-rdf-syntax-ns#",
    )?;
    add(
        &mut prefixes,
        "rdfs",
        "http://www.w3.org/2000/01/rdf-schema#",
    )?;
    add(&mut prefixes, "xsd", "http://www.w3.org/2001/XMLSchema#")?;
    add(&mut prefixes, "owl", "http://www.w3.org/2002/07/owl#")?;
    Ok(prefixes)
}

fn add(prefixes: &mut PrefixMap, prefix: &str, iri: &str) -> Result<(), AllocError>
    ensures { OnOk result (prefixes.new ≡ with_prefix prefixes.old prefix.now iri.now) }
{
    prefixes.declare_if_new(prefix.as_bytes(), iri.as_bytes())
}

/// The prefix that a token declares: an abbreviated IRI whose only colon is its last character.
pub fn declared_prefix(text: &[u8], token: Token) -> Option<&str>
    ensures { option_map (λ prefix. prefix.now) result ≡ declared_prefix text.now token }
{
    match token.kind {
        TokenKind::Run => before_last(spelling(text, token)),
        _ => None,
    }
}

#[tactic(auto, using(crate::proofs::PieceLaws::missing_colon))]
fn before_last(short: &str) -> Option<&str>
    ensures { option_map (λ prefix. prefix.now) result ≡ before_last short.now (rest_of short.now) }
{
    let Some((prefix, rest)) = short.split_once(':') else {
        return None;
    };
    if !rest.is_empty() {
        return None;
    }
    Some(prefix)
}

#[cfg(test)]
mod tests {
    use super::*;
    use crate::{Named, name_of};
    use std::test::Fail;

    #[test]
    fn names_tokens(rt: HostRuntime) -> Result<(), Fail> {
        let alloc = rt.alloc();
        let prefixes = known_prefixes(alloc)?;
        let rows = [
            ("<http://a/b>", TokenKind::FullIri, "http://a/b"),
            ("<>", TokenKind::FullIri, ""),
            (
                "owl:Thing",
                TokenKind::Run,
                "http://www.w3.org/2002/07/owl#Thing",
            ),
            (
                "xsd:a:b",
                TokenKind::Run,
                "http://www.w3.org/2001/XMLSchema#a:b",
            ),
            (":a", TokenKind::Run, "unknown"),
            ("a", TokenKind::Run, "no IRI"),
            ("\"owl:Thing\"", TokenKind::Quoted, "no IRI"),
        ];
        for (text, kind, wanted) in rows {
            let token = Token {
                kind,
                start: 0,
                end: text.len(),
            };
            match name_of(alloc, text.as_bytes(), &prefixes, token)? {
                Named::Iri(iri) => assert_eq!(rt; iri.as_str(), wanted),
                Named::Unknown => assert_eq!(rt; "unknown", wanted),
                Named::NoIri => assert_eq!(rt; "no IRI", wanted),
            }
        }
        Ok(())
    }
}
