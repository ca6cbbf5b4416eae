//! The run that the arguments ask for.

ghost use Rattle.std.specs.Prelude.{◌≡◌, ◌≤◌, ◌<◌, ◌^◌};
ghost use Rattle.command_words.specs.Commands.{HasNumbersInRange, IsRepair};
ghost use Rattle.command_words.specs.declared.types.RepairWords.{RepairWords};
ghost use Rattle.status_lines.specs.Runs.{run_over, IsUntouched};
ghost use Rattle.repair_run.specs.Run.{IsOrMemory, OutputStands};
ghost use Rattle.repair_run.specs.Commands.{IsRunOf};
ghost use Rattle.repair_run.specs.Inside.Stops.{answer_to};

use crate::made::run_over_made;
use crate::request::{Request, mode_if};
use crate::run::run_over_files;
use crate::writing::refuse;
use case_load::texts_have_one_case_or_first_fault;
use command_words::{
    RepairWords, WordsFault, commands_have_numbers_in_range, read_repair_words,
    words_have_one_reading,
};
use el_logic::more_axioms_stay_incoherent;
use io_edge::{Folder, Gate, Sink};
use status_lines::Status;
use std::alloc::Global;
use std::sync::Wait;
use std::thread::Threads;
use text_names::{Limits, Text};

// The run of a command.
fn run_of<R: Threads + Wait + Sync, F: Folder, S: Sink, G: Gate>(
    rt: &R,
    alloc: Global,
    command: RepairWords,
    limits: &Limits,
    folder: &mut F,
    out: &mut S,
    gate: &G,
) -> Status
    requires range { HasNumbersInRange command }
    requires bytes { limits.now.file_bytes < 2 ^ 31 }
    requires depth { limits.now.depth ≤ 256 }
    ensures run { let run = run_over (F.seen folder.old) (F.seen folder.new)
        (S.seen out.old) (S.seen out.new) in IsRunOf run command limits.now result }
    ensures output { OutputStands (S.seen out.old) (S.seen out.new) result }
{
    match command {
        RepairWords::Files {
            el_part,
            workers,
            names,
        } => {
            let mode = mode_if(el_part);
            let asked = Request { names, mode };
            run_over_files(rt, alloc, &asked, workers, limits, folder, out, gate)
        }
        RepairWords::Made { size, workers } => {
            run_over_made(rt, alloc, size, workers, limits, out, gate)
        }
    }
}

// The answer to words that are not read.
fn answer_to(fault: WordsFault) -> Status
    ensures { result ≡ answer_to fault }
{
    match fault {
        WordsFault::Usage => Status::Words,
        WordsFault::OutOfMemory => Status::OutOfMemory,
    }
}

/// Repairs a mapping table between two ontologies. The words are those of `alod`. They name LEFT,
/// RIGHT, MAP, OUT and EVIDENCE: the run reads the first three, and writes to OUT the table without
/// the rows that are accused of leaving a class without any possible member, after EVIDENCE, by
/// which another program can check this. If the ontologies are incoherent without the table,
/// EVIDENCE shows it, and OUT isn't written. Or they ask for a made case: then no file is read or
/// written.
///
/// Each refusal has a line of its own on the output, which is put as one piece; a run that is done
/// puts its summary. A fault of the output while the line of a refusal is put changes neither the
/// answer nor the files. The gate is passed before each test of a worker. The call waits for its
/// workers.
pub fn repair<R: Threads + Wait + Sync, F: Folder, S: Sink, G: Gate>(
    rt: &R,
    alloc: Global,
    words: &[Text],
    limits: &Limits,
    folder: &mut F,
    out: &mut S,
    gate: &G,
) -> Status
    requires bytes { limits.now.file_bytes < 2 ^ 31 }
    requires depth { limits.now.depth ≤ 256 }
    // The arguments are no command.
    ensures words { result ≡ Status.Words
        → (command : RepairWords) → ¬ (IsRepair words.now command) }
    ensures words_answer { ((command : RepairWords) → ¬ (IsRepair words.now command))
        → IsOrMemory Status.Words result }

    // All else that is known of a run is one record: with the headline in `done`, `IsRun` of
    // `specs/Run.antt` for a run over files, and `IsMadeRun` of `specs/Made.antt` for a made case.
    ensures run { let run = run_over (F.seen folder.old) (F.seen folder.new)
        (S.seen out.old) (S.seen out.new) in
        (command : RepairWords) → IsRepair words.now command
        → IsRunOf run command limits.now result }

    ensures no_command { let run = run_over (F.seen folder.old) (F.seen folder.new)
        (S.seen out.old) (S.seen out.new) in
        ((command : RepairWords) → ¬ (IsRepair words.now command)) → IsUntouched run }
    ensures output { OutputStands (S.seen out.old) (S.seen out.new) result }
{
    texts_have_one_case_or_first_fault();
    more_axioms_stay_incoherent();
    words_have_one_reading();
    commands_have_numbers_in_range();
    match read_repair_words(alloc, words) {
        Ok(command) => run_of(rt, alloc, command, limits, folder, out, gate),
        Err(fault) => refuse(alloc, out, answer_to(fault)),
    }
}
