//! One run over a made case.

ghost use Rattle.std.specs.Prelude.{◌≡◌, ◌≤◌, IfErr, OnOk};
ghost use Rattle.io_edge.specs.Outside.{FolderSeen};
ghost use Rattle.status_lines.specs.Runs.{run_over};
ghost use Rattle.command_words.specs.Commands.{IsFromOneTo};
ghost use Rattle.repair_run.specs.Run.{OutputStands};
ghost use Rattle.repair_run.specs.Made.{IsMadeDone, IsMadeRun};
ghost use Rattle.repair_run.specs.Inside.Stops.{IsMadeStop, IsQuiet};

use crate::choosing::{ChoiceStop, repaired};
use crate::loading::made_case;
use crate::writing::{put_summary, refuse};
use case_load::texts_have_one_case_or_first_fault;
use el_logic::more_axioms_stay_incoherent;
use io_edge::{Gate, Sink};
use status_lines::Status;
use std::alloc::Global;
use std::sync::Wait;
use std::thread::Threads;
use text_names::Limits;

// The run before the line of a refusal.
fn run<R: Threads + Wait + Sync, S: Sink, G: Gate>(
    rt: &R,
    alloc: Global,
    size: u32,
    workers: u32,
    limits: &Limits,
    out: &mut S,
    gate: &G,
) -> Result<(), Status>
    requires size { IsFromOneTo 10000 size }
    requires workers { IsFromOneTo 16 workers }
    requires depth { limits.now.depth ≤ 256 }
    ensures done { (folder : FolderSeen) →
        let run = run_over folder folder (S.seen out.old) (S.seen out.new) in
        OnOk result (IsMadeDone run size limits.now) }
    ensures stop { (folder : FolderSeen) →
        let run = run_over folder folder (S.seen out.old) (S.seen out.new) in
        IfErr result (IsMadeStop run size limits.now) }
    ensures quiet { IfErr result (IsQuiet (S.seen out.old) (S.seen out.new)) }
{
    let loaded = match made_case(alloc, size, limits) {
        Ok(loaded) => loaded,
        Err(status) => return Err(status),
    };
    let results = match repaired(rt, alloc, &loaded, workers, gate) {
        Ok(results) => results,
        Err(ChoiceStop::Incoherent { part, class, .. }) => {
            return Err(Status::Incoherent { part, class });
        }
        Err(ChoiceStop::OutOfMemory) => return Err(Status::OutOfMemory),
    };
    match put_summary(alloc, out, results.line.as_bytes()) {
        Ok(()) => Ok(()),
        Err(status) => Err(status),
    }
}

/// The run over a made case.
pub fn run_over_made<R: Threads + Wait + Sync, S: Sink, G: Gate>(
    rt: &R,
    alloc: Global,
    size: u32,
    workers: u32,
    limits: &Limits,
    out: &mut S,
    gate: &G,
) -> Status
    requires size { IsFromOneTo 10000 size }
    requires workers { IsFromOneTo 16 workers }
    requires depth { limits.now.depth ≤ 256 }
    ensures run { (folder : FolderSeen) →
        let run = run_over folder folder (S.seen out.old) (S.seen out.new) in
        IsMadeRun run size limits.now result }
    ensures output { OutputStands (S.seen out.old) (S.seen out.new) result }
{
    texts_have_one_case_or_first_fault();
    more_axioms_stay_incoherent();
    match run(rt, alloc, size, workers, limits, out, gate) {
        Ok(()) => Status::Done,
        Err(status) => refuse(alloc, out, status),
    }
}
