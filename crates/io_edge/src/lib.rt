//! The outside as two traits, files and output, which count their faults: in memory and for real.
#![tactic(auto)]

mod gate;
mod memory;
mod outside;
mod real;
mod schedule;

pub use gate::{Gate, OpenGate};
pub use memory::{MemFolder, MemSink};
pub use outside::{
    Folder, PutAnswer, ReadAnswer, Role, Sink, Target, WriteAnswer, rose_is_greater_or_at_the_end,
};
pub use real::{RealFolder, StdSink};
