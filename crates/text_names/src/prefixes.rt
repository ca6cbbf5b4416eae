//! Prefixes with their IRIs, and the short names that they expand.

ghost use Rattle.std.specs.Prelude.{◌≡◌, ◌++◌, ◌∷◌, [], None, Some, true, IsUtf8, IsOk, IfOk, IfErr, IfSome, IfNone, OnOk, OnErr, false};
ghost use Rattle.std.specs.Option.{option_copied};
ghost use Rattle.text_names.specs.Prefixes.{has_colon, prefix_of, rest_of};

use crate::Text;
use crate::text::utf8_str;
use indexmap::IndexMap;
use std::alloc::{AllocError, Global};
use std::marker::Model;
use thiserror::Error;

/// Why a prefix was not declared, or a short name not expanded.
#[derive(Clone, Copy, Debug, PartialEq, Eq, Error)]
pub enum PrefixFault {
    #[error("prefix declared with another IRI")]
    Again,
    #[error("no colon")]
    NoColon,
    #[error("unknown prefix")]
    Unknown,
    #[error("out of memory")]
    OutOfMemory,
}

/// Prefixes with their IRIs. Contracts see the pairs in the order of declaration.
#[derive(Debug, Drop)]
pub struct PrefixMap {
    alloc: Global,
    iris: IndexMap<String, Text>,
}

impl Model for PrefixMap {
    ghost use Rattle.std.specs.Prelude.{List, ℕ};
    ghost use Rattle.std.specs.String.{string_bytes};
    ghost use Rattle.text_names.specs.Inside.Entries.{by_bytes};

    ghost Value = { List (List ℕ × List ℕ) };

    ghost view = { λ m. by_bytes string_bytes m.iris.entries };
}

impl PrefixMap {
    ghost use Rattle.text_names.specs.Prefixes.{iri_of, is_declared, with_prefix, HasOtherIri, IsDeclareFault, IsExpansion, IsExpandFault};

    /// No prefixes.
    pub fn new(alloc: Global) -> Self
        ensures { result ≡ [] }
    {
        PrefixMap {
            alloc,
            iris: IndexMap::new(alloc),
        }
    }

    /// Declares a prefix, which may be declared again with the same IRI.
    pub fn declare(&mut self, prefix: &[u8], iri: &[u8]) -> Result<(), PrefixFault>
        requires prefix { IsUtf8 prefix.now }
        requires iri { IsUtf8 iri.now }
        ensures ok { OnOk result (self.new ≡ with_prefix self.old prefix.now iri.now) }
        ensures held { OnOk result (iri_of self.new prefix.now ≡ Some iri.now) }
        ensures again { HasOtherIri self.old prefix.now iri.now → result ≡ Err PrefixFault.Again }
        ensures fault { IfErr result (IsDeclareFault self.old prefix.now iri.now) }
        ensures err { OnErr result (self.new ≡ self.old) }
    {
        match self.get(prefix) {
            Some(held) => {
                return if held.bytes() == iri {
                    Ok(())
                } else {
                    Err(PrefixFault::Again)
                };
            }
            None => {}
        }
        self.add(prefix, iri).map_err(|_| PrefixFault::OutOfMemory)
    }

    /// Declares a prefix, unless it is declared with any IRI.
    pub fn declare_if_new(&mut self, prefix: &[u8], iri: &[u8]) -> Result<(), AllocError>
        requires prefix { IsUtf8 prefix.now }
        requires iri { IsUtf8 iri.now }
        ensures ok { OnOk result (self.new ≡ with_prefix self.old prefix.now iri.now) }
        ensures held { is_declared self.old prefix.now ≡ true → IsOk result }
        ensures err { OnErr result (self.new ≡ self.old) }
    {
        match self.get(prefix) {
            Some(_) => return Ok(()),
            None => {}
        }
        self.add(prefix, iri)
    }

    /// The IRI that a short name stands for: that of the prefix before its first colon, followed by
    /// what stands after this colon.
    pub fn expand(&self, short: &[u8]) -> Result<Text, PrefixFault>
        requires { IsUtf8 short.now }
        ensures ok { IfOk result (IsExpansion self.now short.now) }
        ensures fault { IfErr result (IsExpandFault self.now short.now) }
    {
        let Some((prefix, rest)) = split_at_colon(utf8_str(short)) else {
            return Err(PrefixFault::NoColon);
        };
        let Some(iri) = self.get(prefix.as_bytes()) else {
            return Err(PrefixFault::Unknown);
        };
        match Text::joined(self.alloc, iri.as_str(), rest) {
            Ok(iri) => Ok(iri),
            Err(_) => Err(PrefixFault::OutOfMemory),
        }
    }

    fn get(&self, prefix: &[u8]) -> Option<&Text>
        requires { IsUtf8 prefix.now }
        ensures { option_copied result ≡ iri_of self.now prefix.now }
    {
        self.iris.get(utf8_str(prefix))
    }

    fn add(&mut self, prefix: &[u8], iri: &[u8]) -> Result<(), AllocError>
        requires new { iri_of self.old prefix.now ≡ None }
        requires prefix { IsUtf8 prefix.now }
        requires iri { IsUtf8 iri.now }
        ensures ok { OnOk result (self.new ≡ self.old ++ (prefix.now, iri.now) ∷ []) }
        ensures held { OnOk result (iri_of self.new prefix.now ≡ Some iri.now) }
        ensures err { OnErr result (self.new ≡ self.old) }
    {
        let prefix = String::from_str(self.alloc, utf8_str(prefix))?;
        let iri = Text::from_str(self.alloc, utf8_str(iri))?;
        self.iris.insert(prefix, iri)?;
        Ok(())
    }
}

// What stands before the first colon and after it.
#[tactic(auto, using(crate::proofs::PrefixLaws::missing_at))]
fn split_at_colon(short: &str) -> Option<(&str, &str)>
    ensures found { IfSome result (λ parts. (has_colon short.now ≡ true) ×
        (parts.0.now ≡ prefix_of short.now) × (parts.1.now ≡ rest_of short.now)) }
    ensures missing { IfNone result (has_colon short.now ≡ false) }
{
    short.split_once(':')
}

#[cfg(test)]
mod tests {
    use super::*;
    use std::test::Fail;

    #[test]
    fn expands_what_is_declared(rt: HostRuntime) -> Result<(), Fail> {
        let alloc = rt.alloc();
        let mut prefixes = PrefixMap::new(alloc);
        prefixes.declare("a".as_bytes(), "http://a/".as_bytes())?;
        prefixes.declare("".as_bytes(), "http://e/".as_bytes())?;
        prefixes.declare("a".as_bytes(), "http://a/".as_bytes())?;
        let again = prefixes.declare("a".as_bytes(), "http://b/".as_bytes());
        assert_eq!(rt; again, Err(PrefixFault::Again));
        prefixes.declare_if_new("a".as_bytes(), "http://b/".as_bytes())?;
        prefixes.declare_if_new("ö".as_bytes(), "http://ö/".as_bytes())?;
        let expansions = [
            ("a:b:c", "http://a/b:c"),
            (":x", "http://e/x"),
            ("a:", "http://a/"),
            ("ö:ü", "http://ö/ü"),
        ];
        for (short, iri) in expansions {
            assert_eq!(rt; prefixes.expand(short.as_bytes())?.as_str(), iri);
        }
        let faults = [
            ("a", PrefixFault::NoColon),
            ("", PrefixFault::NoColon),
            ("b:x", PrefixFault::Unknown),
        ];
        for (short, fault) in faults {
            assert_eq!(rt; prefixes.expand(short.as_bytes()).err(), Some(fault));
        }
        Ok(())
    }
}
