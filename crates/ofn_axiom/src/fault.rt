//! Why a document is not read.

ghost use Rattle.std.specs.Prelude.{◌≡◌};
ghost use Rattle.ofn_axiom.specs.declared.fault.Stop.TheVariants.{Memory};

use ofn_heads::HeadId;
use std::alloc::{AllocError, AllocFailed};
use text_names::Place;
use thiserror::Error;

/// What is wrong with the text of a document.
#[derive(Clone, Copy, Debug, PartialEq, Eq, Error)]
pub enum DocKind {
    /// The place is after the longest front that is UTF-8.
    #[error("not UTF-8")]
    NotUtf8,
    /// The place is a byte at which no token begins.
    #[error("no token begins here")]
    NoToken,
    /// The place is a closing bracket.
    #[error("closing bracket without partner")]
    Unopened,
    /// The place is the first opening bracket that is never closed.
    #[error("opening bracket without partner")]
    Unclosed,
    /// The place is the end of the text.
    #[error("no Ontology term")]
    NoOntology,
    /// The place is the first byte of an item that may not stand there.
    #[error("unexpected item")]
    Head,
    /// The place is a head that has too few or too many items, or items of another form.
    #[error("wrong items for this head")]
    Shape,
    /// The place is an abbreviated IRI.
    #[error("unknown prefix")]
    PrefixUnknown,
    /// The place is the head `Prefix` of the later declaration.
    #[error("prefix declared with another IRI")]
    PrefixClash,
}

/// The first fault of a document. Places don't count a byte order mark.
#[derive(Clone, Copy, Debug, PartialEq, Eq, Error)]
pub enum DocFault {
    /// The bytes are no document.
    #[error("{kind}")]
    Syntax { place: Place, kind: DocKind },
    /// The document has a head, or a property, that is outside the fragment, at this place. Only
    /// a strict reading answers so.
    #[error("not in the profile")]
    Profile { place: Place, head: HeadId },
    #[error("too many open brackets")]
    TooDeep,
    #[error("too many class names")]
    TooManyClasses,
    #[error("too many property names")]
    TooManyProperties,
    #[error("out of memory")]
    OutOfMemory,
}

// A fault of what items say, at an offset in bytes.
#[derive(Clone, Copy, Debug, PartialEq, Eq)]
pub enum OffsetFault {
    Head { at: usize },
    Shape { at: usize },
    PrefixUnknown { at: usize },
    PrefixClash { at: usize },
    NoOntology { at: usize },
    Profile { at: usize, head: HeadId },
    TooManyClasses,
    TooManyProperties,
}

// Why reading stopped.
#[derive(Clone, Copy, Debug, Drop)]
pub enum Stop {
    Memory,
    Fault(OffsetFault),
}

impl From<AllocError> for Stop {
    ghost from_gives = { λ _ stop. stop ≡ Memory };

    fn from(_error: AllocError) -> Stop {
        Stop::Memory
    }
}

impl<T: Drop> From<AllocFailed<T>> for Stop {
    ghost from_gives = { λ _ stop. stop ≡ Memory };

    fn from(_error: AllocFailed<T>) -> Stop {
        Stop::Memory
    }
}
