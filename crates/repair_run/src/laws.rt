//! What a run leaves is determined by its files.

ghost use Rattle.std.specs.Prelude.{◌≡◌, Some};
ghost use Rattle.text_names.specs.declared.limits.Limits.{Limits};
ghost use Rattle.io_edge.specs.Outside.{Files, FolderSeen};
ghost use Rattle.repair_run.specs.declared.request.Request.{Request};
ghost use Rattle.repair_run.specs.Outcomes.{Outcome, out_text, summary_of, AreLoaded};

use case_load::texts_have_one_case_or_first_fault;

/// The files of a folder have one outcome at most, so one text of OUT and one summary.
pub fn files_have_one_outcome()
    ensures out { (folder : FolderSeen) (files : Files) (asked : Request) (limits : Limits)
        (one other : Outcome (AreLoaded folder asked limits)) → folder.files ≡ Some files
        → out_text one ≡ out_text other }
    ensures summary { (folder : FolderSeen) (files : Files) (asked : Request) (limits : Limits)
        (one other : Outcome (AreLoaded folder asked limits)) → folder.files ≡ Some files
        → summary_of one ≡ summary_of other }
{
    texts_have_one_case_or_first_fault();
}
