//! Evidence, and why a text is none.

ghost use Rattle.std.specs.Prelude.{◌≡◌};
ghost use Rattle.evidence_text.specs.declared.types.EvidenceFault.TheVariants.{OutOfMemory};

use accuse_core::Entries;
use derivation::Derivation;
use el_logic::{Interp, ListOf};
use evidence_lines::{Kind, NodeLines, RoleLines};
use ofn_axiom::SideOmitted;
use std::alloc::{AllocError, AllocFailed};
use thiserror::Error;

/// A row that is removed, by its number from 1, and why it leaves a class empty.
#[derive(Debug, Drop)]
pub struct Removed {
    pub row: u32,
    pub steps: Derivation,
}

/// Removed rows in ascending order.
pub type RemovedList = ListOf<Removed>;

/// What evidence of each kind shows.
#[derive(Debug, Drop)]
pub enum Body {
    Diagnosis {
        removed: RemovedList,
        model: Interp,
        journal: Entries,
    },
    Refusal {
        steps: Derivation,
    },
}

/// What lets a second program check a run. The rank of a source is the number of its row, from 1.
#[derive(Debug, Drop)]
pub struct Evidence {
    pub kind: Kind,
    pub omitted: SideOmitted,
    pub nodes: NodeLines,
    pub roles: RoleLines,
    pub body: Body,
}

/// Why a text is no evidence. Lines are counted from 1.
#[derive(Clone, Copy, Debug, PartialEq, Eq, Error)]
pub enum EvidenceFault {
    /// The text is of another version.
    #[error("another version")]
    Version,
    /// The line has not the form that its place asks, or is not ended, or follows the end.
    #[error("line {number}: form")]
    Line { number: u64 },
    /// The text ends before the section that begins at this line is full, or after this line, where
    /// another section has to follow.
    #[error("line {number}: the text ends in this section")]
    Length { number: u64 },
    #[error("out of memory")]
    OutOfMemory,
}

impl From<AllocError> for EvidenceFault {
    ghost from_gives = { λ _ fault. fault ≡ OutOfMemory };

    fn from(_error: AllocError) -> EvidenceFault {
        EvidenceFault::OutOfMemory
    }
}

impl<T: Drop> From<AllocFailed<T>> for EvidenceFault {
    ghost from_gives = { λ _ fault. fault ≡ OutOfMemory };

    fn from(_error: AllocFailed<T>) -> EvidenceFault {
        EvidenceFault::OutOfMemory
    }
}
