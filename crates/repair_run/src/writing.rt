//! What a run writes, and what it puts.

ghost use Rattle.std.specs.Prelude.{◌≡◌, ◌++◌, Some, IfErr, IfSome, OnOk, string_bytes};
ghost use Rattle.io_edge.specs.Outside.{FaultsNeverFall, with_file};
ghost use Rattle.status_lines.specs.Runs.{run_over, HasGot};
ghost use Rattle.repair_run.specs.Run.{IsOrMemory, OutputStands};
ghost use Rattle.repair_run.specs.Inside.Choices.{IsChoiceStop};
ghost use Rattle.repair_run.specs.Inside.Stops.{written_of, AreWritten, IsEvidenceStop, IsPutStop, IsRefused, IsResultStop, IsWriteStop};

use crate::choosing::{ChoiceStop, Results};
use case_load::Loaded;
use command_words::FileNames;
use io_edge::{Folder, PutAnswer, Sink, Target, WriteAnswer};
use status_lines::{Status, put_refusal};
use std::alloc::Global;
use text_names::Text;

// Writes EVIDENCE.
fn put_evidence<F: Folder>(
    alloc: Global,
    folder: &mut F,
    name: &Text,
    evidence: &[u8],
) -> Result<(), Status>
    ensures later { FaultsNeverFall (F.seen folder.old) (F.seen folder.new) }
    ensures files { OnOk result (IfSome (F.seen folder.old).files
        (λ files. (F.seen folder.new).files ≡ Some (with_file files name.now evidence.now))) }
    ensures err { IfErr result
        (IsEvidenceStop (F.seen folder.old) (F.seen folder.new) name.now evidence.now) }
{
    match folder.write(alloc, name, evidence) {
        WriteAnswer::Done => Ok(()),
        WriteAnswer::Failed => {
            let target = Target::Evidence;
            Err(Status::WriteFault { target })
        }
        WriteAnswer::OutOfMemory => Err(Status::OutOfMemory),
    }
}

/// Puts the summary.
pub fn put_summary<S: Sink>(alloc: Global, out: &mut S, line: &[u8]) -> Result<(), Status>
    ensures got { OnOk result (IfSome (S.seen out.old).got
        (λ got. (S.seen out.new).got ≡ Some (got ++ line.now))) }
    ensures err { IfErr result (IsPutStop (S.seen out.old) (S.seen out.new) line.now) }
{
    match out.put(alloc, line) {
        PutAnswer::Done => Ok(()),
        PutAnswer::Failed => {
            let target = Target::Output;
            Err(Status::WriteFault { target })
        }
        PutAnswer::OutOfMemory => Err(Status::OutOfMemory),
    }
}

// Writes OUT, and then puts the summary.
fn write_out<F: Folder, S: Sink>(
    alloc: Global,
    folder: &mut F,
    out: &mut S,
    name: &Text,
    text: &[u8],
    line: &[u8],
) -> Result<(), Status>
    ensures later { FaultsNeverFall (F.seen folder.old) (F.seen folder.new) }
    ensures files { OnOk result (IfSome (F.seen folder.old).files
        (λ files. (F.seen folder.new).files ≡ Some (with_file files name.now text.now))) }
    ensures got { let run = run_over (F.seen folder.old) (F.seen folder.new)
        (S.seen out.old) (S.seen out.new) in
        OnOk result (HasGot run line.now) }
    ensures err { let run = run_over (F.seen folder.old) (F.seen folder.new)
        (S.seen out.old) (S.seen out.new) in
        IfErr result (IsWriteStop run name.now text.now line.now) }
{
    match folder.write(alloc, name, text) {
        WriteAnswer::Done => {}
        WriteAnswer::Failed => {
            let target = Target::Out;
            return Err(Status::WriteFault { target });
        }
        WriteAnswer::OutOfMemory => return Err(Status::OutOfMemory),
    }
    match put_summary(alloc, out, line) {
        Ok(()) => Ok(()),
        Err(status) => Err(status),
    }
}

/// Writes EVIDENCE, then OUT, and then puts the summary.
pub fn write_results<F: Folder, S: Sink>(
    alloc: Global,
    folder: &mut F,
    out: &mut S,
    names: &FileNames,
    results: &Results,
) -> Result<(), Status>
    ensures files { let run = run_over (F.seen folder.old) (F.seen folder.new)
        (S.seen out.old) (S.seen out.new) in
        OnOk result (AreWritten run names.now (written_of results.now)) }
    ensures got { let run = run_over (F.seen folder.old) (F.seen folder.new)
        (S.seen out.old) (S.seen out.new) in
        OnOk result (HasGot run (string_bytes results.now.line)) }
    ensures err { let run = run_over (F.seen folder.old) (F.seen folder.new)
        (S.seen out.old) (S.seen out.new) in
        IfErr result (IsResultStop run names.now (written_of results.now)) }
{
    match put_evidence(alloc, folder, &names.evidence, results.evidence.as_slice()) {
        Ok(()) => {}
        Err(status) => return Err(status),
    }
    let text = results.text.as_slice();
    let line = results.line.as_bytes();
    match write_out(alloc, folder, out, &names.out, text, line) {
        Ok(()) => Ok(()),
        Err(status) => Err(status),
    }
}

/// Writes the evidence of a refusal.
pub fn refused<F: Folder>(
    alloc: Global,
    loaded: &Loaded,
    folder: &mut F,
    name: &Text,
    stop: ChoiceStop,
) -> Status
    requires { IsChoiceStop loaded.now stop }
    ensures { IsRefused (F.seen folder.old) (F.seen folder.new) loaded.now name.now result }
{
    let _ = loaded;
    let ChoiceStop::Incoherent {
        part,
        class,
        evidence,
    } = stop
    else {
        return Status::OutOfMemory;
    };
    match put_evidence(alloc, folder, name, evidence.as_slice()) {
        Ok(()) => Status::Incoherent { part, class },
        Err(status) => status,
    }
}

/// Puts the line of a refusal, but for a fault of the output itself.
pub fn refuse<S: Sink>(alloc: Global, out: &mut S, status: Status) -> Status
    ensures status { IsOrMemory status result }
    ensures output { OutputStands (S.seen out.old) (S.seen out.new) result }
    ensures same { status ≡ Status.WriteFault Target.Output → result ≡ status }
    ensures untouched { status ≡ Status.WriteFault Target.Output → S.seen out.new ≡ S.seen out.old }
{
    match status {
        Status::WriteFault {
            target: Target::Output,
        } => return status,
        _ => {}
    }
    match put_refusal(alloc, out, &status) {
        PutAnswer::Done => status,
        PutAnswer::Failed => status,
        PutAnswer::OutOfMemory => Status::OutOfMemory,
    }
}
