//! One check.

ghost use Rattle.std.specs.Prelude.{◌≡◌, ◌≤◌, ◌<◌, ◌^◌, string_bytes};
ghost use Rattle.command_words.specs.Commands.{IsCheck};
ghost use Rattle.command_words.specs.declared.types.CheckWords.{CheckWords};
ghost use Rattle.status_lines.specs.Runs.{run_over, IsUntouched};
ghost use Rattle.check_run.specs.Check.{AnswerStands, IsChecked, IsOrMemory};
ghost use Rattle.check_run.specs.Inside.Stages.{IsTold};
ghost use Rattle.check_run.specs.Lines.{check_status_of};

use crate::CheckStatus;
use crate::lines::usage_line;
use crate::status::{check_status_of, verdict_status};
use crate::verdict::{Verdict, judged};
use case_load::{LoadFault, texts_have_one_case_or_first_fault};
use check_items::evidence_has_one_answer;
use command_words::{CheckWords, WordsFault, read_check_words, words_have_one_reading};
use derivation::derivations_have_one_answer;
use io_edge::{Folder, PutAnswer, Sink, Target};
use status_lines::{Speaker, put_load_fault};
use std::alloc::Global;
use text_names::{Limits, Text};

// Puts the line of files with a fault.
fn refuse<S: Sink>(alloc: Global, out: &mut S, fault: LoadFault) -> CheckStatus
    ensures status { IsOrMemory (check_status_of fault) result }
    ensures output { AnswerStands (S.seen out.old) (S.seen out.new) result }
    ensures later { (S.seen out.old).faults ≤ (S.seen out.new).faults }
{
    match put_load_fault(alloc, out, Speaker::Alodcheck, fault) {
        PutAnswer::Done => check_status_of(fault),
        PutAnswer::Failed => check_status_of(fault),
        PutAnswer::OutOfMemory => CheckStatus::OutOfMemory,
    }
}

// Puts the line of words that are no command.
fn refuse_words<S: Sink>(alloc: Global, out: &mut S, fault: WordsFault) -> CheckStatus
    ensures usage { fault ≡ WordsFault.Usage → IsOrMemory CheckStatus.Words result }
    ensures memory { fault ≡ WordsFault.OutOfMemory → result ≡ CheckStatus.OutOfMemory }
    ensures output { AnswerStands (S.seen out.old) (S.seen out.new) result }
{
    let WordsFault::Usage = fault else {
        return refuse(alloc, out, LoadFault::OutOfMemory);
    };
    match out.put(alloc, usage_line()) {
        PutAnswer::Done => CheckStatus::Words,
        PutAnswer::Failed => CheckStatus::Words,
        PutAnswer::OutOfMemory => CheckStatus::OutOfMemory,
    }
}

// Puts the line of a verdict.
fn tell<S: Sink>(alloc: Global, out: &mut S, verdict: &Verdict) -> CheckStatus
    ensures { IsTold (S.seen out.old) (S.seen out.new) verdict.now.item
        (string_bytes verdict.now.line) result }
{
    match out.put(alloc, verdict.line.as_bytes()) {
        PutAnswer::Done => verdict_status(verdict.item),
        PutAnswer::Failed => CheckStatus::WriteFault {
            target: Target::Output,
        },
        PutAnswer::OutOfMemory => refuse(alloc, out, LoadFault::OutOfMemory),
    }
}

// The check of a command.
fn check<F: Folder, S: Sink>(
    alloc: Global,
    command: &CheckWords,
    limits: &Limits,
    folder: &mut F,
    out: &mut S,
) -> CheckStatus
    requires bytes { limits.now.file_bytes < 2 ^ 31 }
    requires depth { limits.now.depth ≤ 256 }
    ensures check { let run = run_over (F.seen folder.old) (F.seen folder.new)
        (S.seen out.old) (S.seen out.new) in IsChecked run command.now limits.now result }
    ensures files { IsUntouched (run_over (F.seen folder.old) (F.seen folder.new)
        (S.seen out.old) (S.seen out.new)) }
    ensures output { AnswerStands (S.seen out.old) (S.seen out.new) result }
{
    texts_have_one_case_or_first_fault();
    evidence_has_one_answer();
    derivations_have_one_answer();
    match judged(alloc, command, limits, folder) {
        Ok(verdict) => tell(alloc, out, &verdict),
        Err(fault) => refuse(alloc, out, fault),
    }
}

/// Checks a run of the program that repairs tables, without trusting it. The words are those of
/// `alodcheck`. They name LEFT, RIGHT and MAP, and OUT and EVIDENCE as the run left them: the answer
/// is yes if EVIDENCE shows that OUT is the table without exactly the rows that are accused of
/// leaving a class without any possible member. Or they name LEFT, RIGHT and EVIDENCE of a run that
/// refused them: the answer is yes if EVIDENCE shows that a part of them leaves a class empty. If
/// not, the answer is the first item of the evidence that fails.
///
/// It writes no file. Each answer has a line of its own on the output, which is put as one piece. A
/// fault of the output while a line is put that is no verdict doesn't change the answer.
pub fn check_files<F: Folder, S: Sink>(
    alloc: Global,
    words: &[Text],
    limits: &Limits,
    folder: &mut F,
    out: &mut S,
) -> CheckStatus
    requires bytes { limits.now.file_bytes < 2 ^ 31 }
    requires depth { limits.now.depth ≤ 256 }
    // The arguments are no command.
    ensures words { result ≡ CheckStatus.Words
        → (command : CheckWords) → ¬ (IsCheck words.now command) }
    ensures words_answer { ((command : CheckWords) → ¬ (IsCheck words.now command))
        → IsOrMemory CheckStatus.Words result }

    // All else that is known of a check, with yes and no first, is the record `IsChecked` of
    // `specs/Check.antt`.
    ensures check { let run = run_over (F.seen folder.old) (F.seen folder.new)
        (S.seen out.old) (S.seen out.new) in
        (command : CheckWords) → IsCheck words.now command
        → IsChecked run command limits.now result }

    ensures files { IsUntouched (run_over (F.seen folder.old) (F.seen folder.new)
        (S.seen out.old) (S.seen out.new)) }
    ensures output { AnswerStands (S.seen out.old) (S.seen out.new) result }
{
    words_have_one_reading();
    match read_check_words(alloc, words) {
        Ok(command) => check(alloc, &command, limits, folder, out),
        Err(fault) => refuse_words(alloc, out, fault),
    }
}
