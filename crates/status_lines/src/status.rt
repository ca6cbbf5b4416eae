//! What a run answers.

ghost use Rattle.std.specs.Prelude.{◌≡◌};
ghost use Rattle.status_lines.specs.Lines.{status_of};

use case_load::{LimitKind, LoadFault};
use el_logic::{Part, Side};
use io_edge::{Role, Target};
use ofn_axiom::{DocKind, HeadId};
use sssom_rows::TableFault;
use std::alloc::AllocError;
use text_names::{Place, Text};

/// What a run answers, each with the exit status of the program.
#[derive(Debug, Drop)]
pub enum Status {
    /// EVIDENCE holds the evidence, OUT the repaired table, and the summary is printed.
    Done,
    /// The arguments are no command.
    Words,
    /// The ontology is no document.
    Syntax {
        side: Side,
        place: Place,
        kind: DocKind,
    },
    /// The mapping table is no table. Too many rows and memory are told by `Limit` and
    /// `OutOfMemory`.
    Table {
        fault: TableFault,
    },
    /// The ontology has a head, or a property, that is outside the fragment.
    Profile {
        side: Side,
        place: Place,
        head: HeadId,
    },
    /// The ontologies leave a class without a member even without the table: the first such part,
    /// and in it the IRI of the first such class in order of appearance. There is nothing to repair
    /// in the table; EVIDENCE holds the evidence of this.
    Incoherent {
        part: Part,
        class: Text,
    },
    /// The input is larger than a limit.
    Limit {
        kind: LimitKind,
    },
    /// The system reported an error while this file was read, or there is no such file.
    ReadFault {
        file: Role,
    },
    /// The system reported an error while this file or the summary was written.
    WriteFault {
        target: Target,
    },
    OutOfMemory,
}

impl Status {
    ghost use Rattle.status_lines.specs.Lines.{status_number};

    /// The exit status of the program.
    pub fn number(&self) -> u8
        ensures { result ≡ status_number self.now }
    {
        match self {
            Status::Done => 0,
            Status::Words => 2,
            Status::Syntax { .. } => 3,
            Status::Table { .. } => 3,
            Status::Profile { .. } => 4,
            Status::Incoherent { .. } => 5,
            Status::Limit { .. } => 6,
            Status::ReadFault { .. } => 7,
            Status::WriteFault { .. } => 8,
            Status::OutOfMemory => 9,
        }
    }
}

impl From<AllocError> for Status {
    ghost use Rattle.status_lines.specs.declared.status.Status.TheVariants.{OutOfMemory};

    ghost from_gives = { λ _ status. status ≡ OutOfMemory };

    fn from(_: AllocError) -> Self {
        Status::OutOfMemory
    }
}

/// The answer of a run whose files have this fault.
pub fn status_of(fault: LoadFault) -> Status
    ensures { result ≡ status_of fault }
{
    match fault {
        LoadFault::Syntax { side, place, kind } => Status::Syntax { side, place, kind },
        LoadFault::Table { fault } => Status::Table { fault },
        LoadFault::Profile { side, place, head } => Status::Profile { side, place, head },
        LoadFault::Limit { kind } => Status::Limit { kind },
        LoadFault::ReadFault { file } => Status::ReadFault { file },
        LoadFault::OutOfMemory => Status::OutOfMemory,
    }
}
