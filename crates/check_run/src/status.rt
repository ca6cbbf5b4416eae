//! What a check answers.

ghost use Rattle.std.specs.Prelude.{◌≡◌};
ghost use Rattle.check_run.specs.Lines.{check_number, check_status_of, verdict_status};

use case_load::{LimitKind, LoadFault};
use check_items::BadItem;
use el_logic::Side;
use io_edge::{Role, Target};
use ofn_axiom::{DocKind, HeadId};
use sssom_rows::TableFault;
use text_names::Place;

/// What a check answers, each with the exit status of the program.
#[derive(Clone, Copy, Debug, PartialEq, Eq)]
pub enum CheckStatus {
    /// Every item of the evidence holds.
    Yes,
    /// This is the first item that fails.
    No {
        item: BadItem,
    },
    /// The words are no command of the program.
    Words,
    /// The ontology is no document.
    Syntax {
        side: Side,
        place: Place,
        kind: DocKind,
    },
    /// The mapping table is no table. Too many rows and memory are told by `Limit` and
    /// `OutOfMemory`.
    Table {
        fault: TableFault,
    },
    /// The ontology has a head, or a property, that is outside the fragment.
    Profile {
        side: Side,
        place: Place,
        head: HeadId,
    },
    /// The input is larger than a limit.
    Limit {
        kind: LimitKind,
    },
    /// The system reported an error while this file was read, or there is no such file.
    ReadFault {
        file: Role,
    },
    /// The system reported an error while the verdict was put.
    WriteFault {
        target: Target,
    },
    OutOfMemory,
}

impl CheckStatus {
    /// The exit status of the program.
    pub fn number(&self) -> u8
        ensures { result ≡ check_number self.now }
    {
        match self {
            CheckStatus::Yes => 0,
            CheckStatus::No { .. } => 1,
            CheckStatus::Words => 2,
            CheckStatus::Syntax { .. } => 3,
            CheckStatus::Table { .. } => 3,
            CheckStatus::Profile { .. } => 4,
            CheckStatus::Limit { .. } => 6,
            CheckStatus::ReadFault { .. } => 7,
            CheckStatus::WriteFault { .. } => 8,
            CheckStatus::OutOfMemory => 9,
        }
    }
}

/// The answer of a check whose files have this fault.
pub fn check_status_of(fault: LoadFault) -> CheckStatus
    ensures { result ≡ check_status_of fault }
{
    match fault {
        LoadFault::Syntax { side, place, kind } => CheckStatus::Syntax { side, place, kind },
        LoadFault::Table { fault } => CheckStatus::Table { fault },
        LoadFault::Profile { side, place, head } => CheckStatus::Profile { side, place, head },
        LoadFault::Limit { kind } => CheckStatus::Limit { kind },
        LoadFault::ReadFault { file } => CheckStatus::ReadFault { file },
        LoadFault::OutOfMemory => CheckStatus::OutOfMemory,
    }
}

/// The answer of a check with this verdict.
pub fn verdict_status(verdict: Option<BadItem>) -> CheckStatus
    ensures { result ≡ verdict_status verdict }
{
    match verdict {
        None => CheckStatus::Yes,
        Some(item) => CheckStatus::No { item },
    }
}
