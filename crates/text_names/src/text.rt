//! Texts in UTF-8.

ghost use Rattle.std.specs.Prelude.{◌≡◌, ◌++◌, IfOk, IsUtf8};

use std::alloc::{AllocError, Global};
use std::marker::Model;
use thiserror::Error;

/// Why bytes were not made a text.
#[derive(Clone, Copy, Debug, PartialEq, Eq, Error)]
pub enum TextFault {
    /// The bytes are not UTF-8. The offset counts the bytes of their longest front that is.
    #[error("not UTF-8 after byte {offset}")]
    NotUtf8 { offset: u64 },
    #[error("out of memory")]
    OutOfMemory,
}

/// A text in UTF-8, as a name or a word of a command line. Contracts see its bytes.
#[derive(Debug, Drop)]
pub struct Text {
    text: String,
}

impl Model for Text {
    ghost use Rattle.std.specs.Prelude.{List, ℕ, string_bytes};

    ghost Value = { List ℕ };

    ghost view = { λ t. string_bytes t.text };
}

impl Text {
    ghost use Rattle.text_names.specs.Text.{IsTextOf};

    /// The text of these bytes. No memory is asked for before they are known to be UTF-8.
    pub fn of(alloc: Global, bytes: &[u8]) -> Result<Text, TextFault>
        ensures { IsTextOf bytes.now result }
    {
        match str::from_utf8(bytes) {
            Ok(text) => match String::from_str(alloc, text) {
                Ok(text) => Ok(Text { text }),
                Err(_) => Err(TextFault::OutOfMemory),
            },
            Err(fault) => Err(TextFault::NotUtf8 {
                offset: fault.valid_up_to() as u64,
            }),
        }
    }

    pub fn bytes(&self) -> &[u8]
        ensures value { result.now ≡ self.now }
        ensures utf8 { IsUtf8 result.now }
    {
        self.text.as_str().as_bytes()
    }

    pub fn as_str(&self) -> &str
        ensures value { result.now ≡ self.now }
        ensures utf8 { IsUtf8 result.now }
    {
        self.text.as_str()
    }

    /// A text of the same bytes.
    pub fn copy(&self, alloc: Global) -> Result<Text, AllocError>
        ensures { IfOk result (λ copy. copy ≡ self.now) }
    {
        Ok(Text {
            text: String::from_str(alloc, self.text.as_str())?,
        })
    }

    pub(crate) fn from_str(alloc: Global, text: &str) -> Result<Text, AllocError>
        ensures { IfOk result (λ copy. copy ≡ text.now) }
    {
        Ok(Text {
            text: String::from_str(alloc, text)?,
        })
    }

    pub(crate) fn joined(alloc: Global, front: &str, back: &str) -> Result<Text, AllocError>
        ensures { IfOk result (λ whole. whole ≡ front.now ++ back.now) }
    {
        let mut text = String::with_capacity(alloc, front.len().saturating_add(back.len()))?;
        text.push_str(front)?;
        text.push_str(back)?;
        Ok(Text { text })
    }
}

// Bytes that are known to be UTF-8.
pub(crate) fn utf8_str(bytes: &[u8]) -> &str
    requires { IsUtf8 bytes.now }
    ensures { result.now ≡ bytes.now }
{
    match str::from_utf8(bytes) {
        Ok(text) => text,
        Err(_) => unreachable!(),
    }
}

#[cfg(test)]
mod tests {
    use super::*;
    use crate::Bytes;
    use std::test::Fail;

    #[test]
    fn reads_utf8_alone(rt: HostRuntime) -> Result<(), Fail> {
        let alloc = rt.alloc();
        let text = Text::of(alloc, "Füße".as_bytes())?;
        assert_eq!(rt; text.copy(alloc)?.as_str(), "Füße");
        assert_eq!(rt; text.bytes().len(), 6);
        for (bytes, offset) in [(b"\xffab", 0), (b"ab\xc3", 2), (b"a\xed\xa0", 1)] {
            let fault = Text::of(alloc, bytes).err();
            assert_eq!(rt; fault, Some(TextFault::NotUtf8 { offset }));
        }
        Ok(())
    }

    #[test]
    fn keeps_bytes(rt: HostRuntime) -> Result<(), Fail> {
        let alloc = rt.alloc();
        let mut bytes = Bytes::copy_of(alloc, b"ab")?;
        bytes.append(b"\xff")?;
        assert_eq!(rt; bytes.as_slice(), b"ab\xff".as_slice());
        assert_eq!(rt; bytes.len(), 3);
        Ok(())
    }
}
