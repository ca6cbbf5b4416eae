//! Refusals that are put.

ghost use Rattle.std.specs.Prelude.{◌≡◌, ◌≤◌, ℕ, List, IfOk, string_bytes};
ghost use Rattle.io_edge.specs.Outside.{PutAnswers};
ghost use Rattle.status_lines.specs.Lines.{load_line, refusal_line};

use crate::lines::{
    cannot_read, cannot_write, incoherent_line, limit_line, out_of_memory, profile_line,
    syntax_line, table_line, usage_line,
};
use crate::{Speaker, Status};
use case_load::LoadFault;
use io_edge::{PutAnswer, Sink};
use std::alloc::{AllocError, Global};

// Puts a line that was made, if memory sufficed.
fn put_made<S: Sink>(alloc: Global, out: &mut S, line: Result<Vec<u8>, AllocError>) -> PutAnswer
    ensures answer { (bytes : List ℕ) → IfOk line (λ line. line.items ≡ bytes)
        → PutAnswers (S.seen out.old) (S.seen out.new) bytes result }
    ensures later { (S.seen out.old).faults ≤ (S.seen out.new).faults }
{
    match line {
        Ok(line) => out.put(alloc, line.as_slice()),
        Err(_) => PutAnswer::OutOfMemory,
    }
}

// The same of a line that is a string.
fn put_written<S: Sink>(alloc: Global, out: &mut S, line: Result<String, AllocError>) -> PutAnswer
    ensures answer { (bytes : List ℕ) → IfOk line (λ line. string_bytes line ≡ bytes)
        → PutAnswers (S.seen out.old) (S.seen out.new) bytes result }
    ensures later { (S.seen out.old).faults ≤ (S.seen out.new).faults }
{
    match line {
        Ok(line) => out.put(alloc, line.as_bytes()),
        Err(_) => PutAnswer::OutOfMemory,
    }
}

/// Puts what a program says of files with a fault, as one piece. That a file can't be read, and that
/// memory ran out, asks for no memory.
pub fn put_load_fault<S: Sink>(
    alloc: Global,
    out: &mut S,
    speaker: Speaker,
    fault: LoadFault,
) -> PutAnswer
    ensures answer { PutAnswers (S.seen out.old) (S.seen out.new) (load_line speaker fault) result }
    ensures later { (S.seen out.old).faults ≤ (S.seen out.new).faults }
{
    match fault {
        LoadFault::Syntax { side, place, kind } => {
            put_written(alloc, out, syntax_line(alloc, speaker, side, place, kind))
        }
        LoadFault::Table { fault } => put_written(alloc, out, table_line(alloc, speaker, fault)),
        LoadFault::Profile { side, place, head } => {
            put_made(alloc, out, profile_line(alloc, speaker, side, place, head))
        }
        LoadFault::Limit { kind } => put_written(alloc, out, limit_line(alloc, speaker, kind)),
        LoadFault::ReadFault { file } => out.put(alloc, cannot_read(speaker, file)),
        LoadFault::OutOfMemory => out.put(alloc, out_of_memory(speaker)),
    }
}

/// Puts the line of a refusal, as one piece. That of `Words`, of a fault of the system, and that
/// memory ran out, ask for no memory.
pub fn put_refusal<S: Sink>(alloc: Global, out: &mut S, status: &Status) -> PutAnswer
    ensures answer { PutAnswers (S.seen out.old) (S.seen out.new) (refusal_line status.now) result }
    ensures later { (S.seen out.old).faults ≤ (S.seen out.new).faults }
{
    let speaker = Speaker::Alod;
    match status {
        Status::Done => out.put(alloc, b""),
        Status::Words => out.put(alloc, usage_line()),
        Status::Syntax { side, place, kind } => {
            let (side, place, kind) = (*side, *place, *kind);
            put_load_fault(alloc, out, speaker, LoadFault::Syntax { side, place, kind })
        }
        Status::Table { fault } => {
            let fault = *fault;
            put_load_fault(alloc, out, speaker, LoadFault::Table { fault })
        }
        Status::Profile { side, place, head } => {
            let (side, place, head) = (*side, *place, *head);
            put_load_fault(
                alloc,
                out,
                speaker,
                LoadFault::Profile { side, place, head },
            )
        }
        Status::Incoherent { part, class } => {
            put_made(alloc, out, incoherent_line(alloc, *part, class))
        }
        Status::Limit { kind } => {
            let kind = *kind;
            put_load_fault(alloc, out, speaker, LoadFault::Limit { kind })
        }
        Status::ReadFault { file } => {
            let file = *file;
            put_load_fault(alloc, out, speaker, LoadFault::ReadFault { file })
        }
        Status::WriteFault { target } => out.put(alloc, cannot_write(*target)),
        Status::OutOfMemory => put_load_fault(alloc, out, speaker, LoadFault::OutOfMemory),
    }
}
