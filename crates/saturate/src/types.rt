//! What is answered.

ghost use Rattle.std.specs.Prelude.{◌≡◌};
ghost use Rattle.saturate.specs.declared.types.StartFault.TheVariants.{OutOfMemory};

use closed_model::ClosedTable;
use derivation::Derivation;
use el_logic::Part;
use std::alloc::{AllocError, AllocFailed};
use thiserror::Error;

/// Whether rows can be added.
#[derive(Drop)]
pub enum Verdict {
    /// They leave a class empty, as the derivation shows.
    No(Derivation),
    /// They don't. The table has them.
    Yes(ClosedTable),
}

/// Why there is no table to begin with.
#[derive(Debug, Drop, Error)]
pub enum StartFault {
    /// The documents leave a class empty without any rows: the first part of them that does, its
    /// first empty class, as a node, and a derivation that ends in the class's emptiness.
    #[error("a class of the ontologies has no possible member")]
    Incoherent {
        part: Part,
        class: u32,
        derivation: Derivation,
    },
    #[error("out of memory")]
    OutOfMemory,
}

impl From<AllocError> for StartFault {
    ghost from_gives = { λ _ fault. fault ≡ OutOfMemory };

    fn from(_error: AllocError) -> StartFault {
        StartFault::OutOfMemory
    }
}

impl<T: Drop> From<AllocFailed<T>> for StartFault {
    ghost from_gives = { λ _ fault. fault ≡ OutOfMemory };

    fn from(_error: AllocFailed<T>) -> StartFault {
        StartFault::OutOfMemory
    }
}
