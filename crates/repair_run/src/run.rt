//! One run over files.

ghost use Rattle.std.specs.Prelude.{◌≡◌, ◌≤◌, ◌<◌, ◌^◌, IfErr, OnOk};
ghost use Rattle.status_lines.specs.Runs.{run_over};
ghost use Rattle.command_words.specs.Commands.{IsFromOneTo};
ghost use Rattle.repair_run.specs.Run.{FilesStand, IsDone, IsRun, OutputStands};
ghost use Rattle.repair_run.specs.Inside.Stops.{IsQuiet, IsStop};

use crate::choosing::repaired;
use crate::loading::loaded;
use crate::request::Request;
use crate::writing::{refuse, refused, write_results};
use case_load::texts_have_one_case_or_first_fault;
use el_logic::more_axioms_stay_incoherent;
use io_edge::{Folder, Gate, Sink};
use status_lines::Status;
use std::alloc::Global;
use std::sync::Wait;
use std::thread::Threads;
use text_names::Limits;

// The run before the line of a refusal.
fn run<R: Threads + Wait + Sync, F: Folder, S: Sink, G: Gate>(
    rt: &R,
    alloc: Global,
    asked: &Request,
    workers: u32,
    limits: &Limits,
    folder: &mut F,
    out: &mut S,
    gate: &G,
) -> Result<(), Status>
    requires workers { IsFromOneTo 16 workers }
    requires bytes { limits.now.file_bytes < 2 ^ 31 }
    requires depth { limits.now.depth ≤ 256 }
    ensures done { let run = run_over (F.seen folder.old) (F.seen folder.new)
        (S.seen out.old) (S.seen out.new) in
        OnOk result (IsDone run asked.now limits.now) }
    ensures stop { let run = run_over (F.seen folder.old) (F.seen folder.new)
        (S.seen out.old) (S.seen out.new) in
        IfErr result (IsStop run asked.now limits.now) }
    ensures files { let run = run_over (F.seen folder.old) (F.seen folder.new)
        (S.seen out.old) (S.seen out.new) in
        IfErr result (FilesStand run asked.now limits.now) }
    ensures quiet { IfErr result (IsQuiet (S.seen out.old) (S.seen out.new)) }
{
    let loaded = match loaded(alloc, asked, limits, folder) {
        Ok(loaded) => loaded,
        Err(status) => return Err(status),
    };
    let results = match repaired(rt, alloc, &loaded, workers, gate) {
        Ok(results) => results,
        Err(stop) => return Err(refused(alloc, &loaded, folder, &asked.names.evidence, stop)),
    };
    match write_results(alloc, folder, out, &asked.names, &results) {
        Ok(()) => Ok(()),
        Err(status) => Err(status),
    }
}

/// The run over files.
pub fn run_over_files<R: Threads + Wait + Sync, F: Folder, S: Sink, G: Gate>(
    rt: &R,
    alloc: Global,
    asked: &Request,
    workers: u32,
    limits: &Limits,
    folder: &mut F,
    out: &mut S,
    gate: &G,
) -> Status
    requires workers { IsFromOneTo 16 workers }
    requires bytes { limits.now.file_bytes < 2 ^ 31 }
    requires depth { limits.now.depth ≤ 256 }
    ensures run { let run = run_over (F.seen folder.old) (F.seen folder.new)
        (S.seen out.old) (S.seen out.new) in IsRun run asked.now limits.now result }
    ensures output { OutputStands (S.seen out.old) (S.seen out.new) result }
{
    texts_have_one_case_or_first_fault();
    more_axioms_stay_incoherent();
    match run(rt, alloc, asked, workers, limits, folder, out, gate) {
        Ok(()) => Status::Done,
        Err(status) => refuse(alloc, out, status),
    }
}
