//! Laws on runs and checks of them: functions that do nothing and whose contracts are the laws.

ghost use Rattle.std.specs.Prelude.{ℕ, Bool, List};
ghost use Rattle.text_names.specs.declared.limits.Limits.{Limits};
ghost use Rattle.el_logic.specs.declared.types.Part.{Part};
ghost use Rattle.case_load.specs.declared.texts.Loaded.{Loaded};
ghost use Rattle.status_lines.specs.declared.status.Status.TheVariants.{Done, Incoherent};
ghost use Rattle.status_lines.specs.Runs.{Run};
ghost use Rattle.repair_run.specs.Commands.{request_of};
ghost use Rattle.repair_run.specs.Outcomes.{IsEvidence, IsRefusalEvidence};
ghost use Rattle.repair_run.specs.Run.{IsRun};
ghost use Rattle.command_words.specs.Commands.{IsCheck, IsRepair};
ghost use Rattle.command_words.specs.declared.types.FileNames.{FileNames};
ghost use Rattle.command_words.specs.declared.types.RepairWords.TheVariants.{Files};
ghost use Rattle.check_run.specs.declared.reading.CheckTexts.{CheckTexts};
ghost use Rattle.check_run.specs.declared.status.CheckStatus.{CheckStatus};
ghost use Rattle.check_run.specs.declared.status.CheckStatus.TheVariants.{Yes};
ghost use Rattle.check_run.specs.Check.{IsOrMemory};
ghost use Rattle.check_run.specs.Verdicts.{IsValidRun, IsValidRefused};
ghost use Rattle.whole_run.specs.Checks.{check_of, check_words, refusal_check_of, refusal_words, IsCheckedAfter};

use case_load::texts_have_one_case_or_first_fault;
use evidence_text::texts_are_what_is_read;
use ofn_axiom::each_document_has_one_answer;
use sssom_rows::bytes_have_one_table_or_first_fault;

/// The evidence that a run writes is valid as a check reads it.
pub fn evidence_of_runs_is_valid()
    ensures repair { (loaded : Loaded) (texts : CheckTexts) →
        IsEvidence loaded texts.out texts.evidence → IsValidRun loaded texts }
    ensures refusal { (loaded : Loaded) (part : Part) (texts : CheckTexts) →
        IsRefusalEvidence loaded part texts.evidence → IsValidRefused loaded texts }
{
    texts_are_what_is_read();
}

/// The five names of a run, with its mode, are a command of the check. What a run leaves that is done
/// is answered yes by it, or memory ran out in the check.
pub fn done_runs_are_answered_yes()
    ensures words { (words : List (List ℕ)) (el_part : Bool) (workers : ℕ) (names : FileNames) →
        IsRepair words (Files el_part workers names) →
        IsCheck (check_words el_part names) (check_of el_part names) }
    ensures yes { (words : List (List ℕ)) (el_part : Bool) (workers : ℕ) (names : FileNames)
        (limits : Limits) (run check : Run) (answer : CheckStatus) →
        IsRepair words (Files el_part workers names) →
        IsRun run (request_of el_part names) limits Done →
        IsCheckedAfter run check (check_of el_part names) limits answer → IsOrMemory Yes answer }
{
    texts_are_what_is_read();
}

/// Three names of a run, with its mode, are a command of the check of a refusal. What a run leaves
/// that refuses ontologies as incoherent is answered yes by it, or memory ran out in the check.
pub fn refusals_are_answered_yes()
    ensures words { (words : List (List ℕ)) (el_part : Bool) (workers : ℕ) (names : FileNames) →
        IsRepair words (Files el_part workers names) →
        IsCheck (refusal_words el_part names) (refusal_check_of el_part names) }
    ensures yes { (words : List (List ℕ)) (el_part : Bool) (workers : ℕ) (names : FileNames)
        (limits : Limits) (run check : Run) (part : Part) (class : List ℕ)
        (answer : CheckStatus) → IsRepair words (Files el_part workers names) →
        IsRun run (request_of el_part names) limits (Incoherent part class) →
        IsCheckedAfter run check (refusal_check_of el_part names) limits answer →
        IsOrMemory Yes answer }
{
    texts_are_what_is_read();
    each_document_has_one_answer();
    bytes_have_one_table_or_first_fault();
    texts_have_one_case_or_first_fault();
}
