//! Why a text has no items.

ghost use Rattle.std.specs.Prelude.{◌≡◌};
ghost use Rattle.ofn_term.specs.declared.fault.TermFault.TheVariants.{OutOfMemory};

use std::alloc::{AllocError, AllocFailed};
use thiserror::Error;

/// Why a text has no items. Offsets count bytes from the start of the text.
#[derive(Clone, Copy, Debug, PartialEq, Eq, Error)]
pub enum TermFault {
    /// At this byte, outside of tokens, white space and comments, no token begins.
    #[error("no token begins at byte {offset}")]
    Lex { offset: usize },
    /// At this closing bracket no bracket is open.
    #[error("closing bracket without partner at byte {offset}")]
    Unopened { offset: usize },
    /// This opening bracket is never closed, and each one before it is.
    #[error("opening bracket without partner at byte {offset}")]
    Unclosed { offset: usize },
    /// This opening bracket makes more brackets open than the caller allows.
    #[error("too many open brackets at byte {offset}")]
    TooDeep { offset: usize },
    #[error("out of memory")]
    OutOfMemory,
}

impl From<AllocError> for TermFault {
    ghost from_gives = { λ _ fault. fault ≡ OutOfMemory };

    fn from(_error: AllocError) -> TermFault {
        TermFault::OutOfMemory
    }
}

impl<T: Drop> From<AllocFailed<T>> for TermFault {
    ghost from_gives = { λ _ fault. fault ≡ OutOfMemory };

    fn from(_error: AllocFailed<T>) -> TermFault {
        TermFault::OutOfMemory
    }
}
