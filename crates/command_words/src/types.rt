//! Commands, their options, and why words are none.

use text_names::Text;
use thiserror::Error;

/// Which of the two programs is called.
#[derive(Clone, Copy, Debug, PartialEq, Eq)]
pub enum Program {
    /// `alod`, which repairs a table.
    Repair,
    /// `alodcheck`, which checks a run of the other.
    Check,
}

/// An option without a value.
#[derive(Clone, Copy, Debug, PartialEq, Eq)]
pub enum Flag {
    ElPart,
    Refused,
}

/// An option with a number as its value.
#[derive(Clone, Copy, Debug, PartialEq, Eq)]
pub enum Setting {
    Workers,
    Made,
}

/// The options that were read, each at most once.
#[derive(Clone, Copy, Debug, PartialEq, Eq)]
pub struct Options {
    pub el_part: bool,
    pub refused: bool,
    pub workers: Option<u32>,
    pub made: Option<u32>,
}

/// The names of a run's files, none of them empty.
#[derive(Debug, Drop)]
pub struct FileNames {
    pub left: Text,
    pub right: Text,
    pub map: Text,
    pub out: Text,
    pub evidence: Text,
}

/// What the words of `alod` ask for.
#[derive(Debug, Drop)]
pub enum RepairWords {
    /// To repair the table of these files. OUT and EVIDENCE have names of their own.
    Files {
        el_part: bool,
        workers: u32,
        names: FileNames,
    },
    /// To repair a made case of this size, without files.
    Made {
        size: u32,
        workers: u32,
    },
}

/// What the words of `alodcheck` ask for.
#[derive(Debug, Drop)]
pub enum CheckWords {
    /// To check the evidence of a repair.
    Repair {
        el_part: bool,
        names: FileNames,
    },
    /// To check the evidence that two ontologies are incoherent.
    Refusal {
        el_part: bool,
        left: Text,
        right: Text,
        evidence: Text,
    },
}

/// Why words are not read.
#[derive(Clone, Copy, Debug, PartialEq, Eq, Error)]
pub enum WordsFault {
    /// The words are no command of the program.
    #[error("the arguments are not those of the program")]
    Usage,
    #[error("out of memory")]
    OutOfMemory,
}
