//! Names with numbers.

ghost use Rattle.std.specs.Prelude.{◌≡◌, ◌++◌, ◌∷◌, ◌<◌, ◌≤◌, [], None, Some, length, slice_get, IsUtf8, IfOk, IfErr, OnOk, OnErr};
ghost use Rattle.text_names.specs.Names.{number_of, number_or_next, with_name};
ghost use Rattle.text_names.specs.Inside.NameKeys.{hash_of, key_behind};

use crate::Text;
use crate::text::utf8_str;
use indexmap::IndexMap;
use std::alloc::{AllocError, Global};
use std::hash::{FoldHasher, Hasher};
use std::marker::Model;
use thiserror::Error;

/// Why a name was not given a number.
#[derive(Clone, Copy, Debug, PartialEq, Eq, Error)]
pub enum NameFault {
    #[error("too many names")]
    Full,
    #[error("out of memory")]
    OutOfMemory,
}

/// Names with numbers from 0, in the order of their first use.
#[derive(Debug, Drop)]
pub struct NameTable {
    alloc: Global,
    most: u32,
    // A name stands under its hash and the number of names before it that have the same hash. So
    // it is found by one look-up, unless hashes clash, and its bytes are kept once.
    names: IndexMap<(u64, u32), Text>,
}

impl Model for NameTable {
    ghost use Rattle.indexmap.specs.IndexMap.{keys, values};
    ghost use Rattle.text_names.specs.Names.{Numbering};
    ghost use Rattle.text_names.specs.Inside.NameKeys.{IsKept};

    ghost Value = { Numbering };

    ghost view = { λ t. record { names = values t.names; most = t.most } };

    ghost invariant = { λ t. IsKept (keys t.names) (values t.names) t.most };
}

impl NameTable {
    ghost use Rattle.text_names.specs.Names.{IsFullFor, IsNameFault};

    /// A table without names, which may hold as many as `most`.
    pub fn new(alloc: Global, most: u32) -> Self
        ensures names { result.names ≡ [] }
        ensures most { result.most ≡ most }
    {
        NameTable {
            alloc,
            most,
            names: IndexMap::new(alloc),
        }
    }

    /// How many names are held.
    pub fn len(&self) -> u32
        ensures len { result ≡ length self.now.names }
        ensures most { result ≤ self.now.most }
    {
        self.names.len() as u32
    }

    /// The number of a name that is held.
    pub fn find(&self, name: &[u8]) -> Option<u32>
        ensures { result ≡ number_of self.now.names name.now }
    {
        self.search(name).ok()
    }

    /// The name with a number.
    pub fn at(&self, number: u32) -> &Text
        requires { number < length self.now.names }
        ensures name { slice_get self.now.names number ≡ Some result.now }
        ensures number { number_of self.now.names result.now ≡ Some number }
    {
        let Some((_, name)) = self.names.get_index(number as usize) else {
            unreachable!()
        };
        name
    }

    /// The number of a name, which is held from then on.
    pub fn number(&mut self, name: &[u8]) -> Result<u32, NameFault>
        requires { IsUtf8 name.now }
        ensures number { IfOk result (λ number. number ≡ number_or_next self.old.names name.now) }
        ensures names { OnOk result (self.new.names ≡ with_name self.old.names name.now) }
        ensures within { IfOk result (λ number. number < length self.new.names) }
        ensures most { self.new.most ≡ self.old.most }
        ensures full { IsFullFor self.old name.now → result ≡ Err NameFault.Full }
        ensures fault { IfErr result (IsNameFault self.old name.now) }
        ensures err { OnErr result (self.new ≡ self.old) }
    {
        let key = match self.search(name) {
            Ok(number) => return Ok(number),
            Err(key) => key,
        };
        let number = self.len();
        if number >= self.most {
            return Err(NameFault::Full);
        }
        match self.add(key, name) {
            Ok(()) => Ok(number),
            Err(_) => Err(NameFault::OutOfMemory),
        }
    }

    // The number of a name, or the key under which it would stand.
    fn search(&self, name: &[u8]) -> Result<u32, (u64, u32)>
        ensures found { IfOk result (λ number. number_of self.now.names name.now ≡ Some number) }
        ensures missing { OnErr result (number_of self.now.names name.now ≡ None) }
        ensures key { IfErr result (λ key. key ≡ key_behind self.now.names name.now) }
    {
        let hash = hash_of(name);
        let mut clashes = 0;
        while let Some((number, _, held)) = self.names.get_full(&(hash, clashes)) {
            if name == held.bytes() {
                return Ok(number as u32);
            }
            clashes += 1;
        }
        Err((hash, clashes))
    }

    // Puts a new name after the others.
    fn add(&mut self, key: (u64, u32), name: &[u8]) -> Result<(), AllocError>
        requires text { IsUtf8 name.now }
        requires new { number_of self.old.names name.now ≡ None }
        requires room { length self.old.names < self.old.most }
        requires key { key ≡ key_behind self.old.names name.now }
        ensures ok { OnOk result (self.new.names ≡ self.old.names ++ name.now ∷ []) }
        ensures most { self.new.most ≡ self.old.most }
        ensures err { OnErr result (self.new ≡ self.old) }
    {
        let text = Text::from_str(self.alloc, utf8_str(name))?;
        self.names.insert(key, text)?;
        Ok(())
    }
}

fn hash_of(name: &[u8]) -> u64
    ensures { result ≡ hash_of name.now }
{
    let mut hasher = FoldHasher::default();
    hasher.write(name);
    hasher.finish()
}

#[cfg(test)]
mod tests {
    use super::*;
    use std::test::Fail;

    #[test]
    fn numbers_in_order(rt: HostRuntime) -> Result<(), Fail> {
        let mut table = NameTable::new(rt.alloc(), 2);
        assert_eq!(rt; table.number("b".as_bytes())?, 0);
        assert_eq!(rt; table.number("ä".as_bytes())?, 1);
        assert_eq!(rt; table.number("c".as_bytes()).err(), Some(NameFault::Full));
        assert_eq!(rt; table.number("b".as_bytes())?, 0);
        assert_eq!(rt; table.find("ä".as_bytes()), Some(1));
        assert_eq!(rt; table.find(b"c"), None);
        assert_eq!(rt; table.len(), 2);
        assert!(rt; 1 < table.len());
        assert_eq!(rt; table.at(1).as_str(), "ä");
        Ok(())
    }
}
