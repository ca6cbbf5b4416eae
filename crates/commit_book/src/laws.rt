//! What the crates below say of a book.

ghost use Rattle.std.specs.Prelude.{◌≡◌, ◌≤◌, ◌++◌, ℕ, List, [], take};
ghost use Rattle.conflict_logic.specs.Sets.{IsClosedUnderAdding};
ghost use Rattle.el_logic.specs.declared.types.Part.{Part};
ghost use Rattle.case_file.specs.Incoherence.{IsIncoherentFor};
ghost use Rattle.conflict_logic.specs.Repair.{IsRepair};
ghost use Rattle.accuse_core.specs.declared.journal.Entry.{Entry};
ghost use Rattle.accuse_core.specs.Journal.{replayed};
ghost use Rattle.accuse_core.specs.Marks.{front_of, kept_of, number_kept};
ghost use Rattle.accuse_core.specs.Sound.{AreKeptBeforeFront, AreSound};
ghost use Rattle.commit_book.specs.Books.{IsBook, ranks_of};
ghost use Rattle.commit_book.specs.Inside.Laws.{KeptLaws, BlockLaws, JournalLaws, VerdictLaws, Laws};

use crate::book::Book;
use accuse_core::{
    allowed_events_leave_sound_marks, asking_leaves_the_marks, blocks_keep_what_is_not_removed,
    events_leave_the_ranks, journals_grow_by_an_event, kept_ranks_are_the_repair,
    kept_ranks_have_the_mark, kept_ranks_only_grow,
};
use case_file::more_rows_stay_incoherent;
use closed_model::a_closed_table_shows_coherence;
use derivation::{good_derivations_show_incoherence, good_derivations_stay_good_for_more_ranks};

fn kept_laws()
    ensures { KeptLaws }
{
    asking_leaves_the_marks();
    kept_ranks_only_grow();
    kept_ranks_have_the_mark();
}

fn block_laws()
    ensures { BlockLaws }
{
    blocks_keep_what_is_not_removed();
}

fn journal_laws(book: &Book)
    ensures { JournalLaws book.now.case }
{
    journals_grow_by_an_event(book);
    events_leave_the_ranks();
}

fn verdict_laws(book: &Book)
    ensures { VerdictLaws book.now.case }
{
    let _ = book.journal();
    good_derivations_show_incoherence();
    a_closed_table_shows_coherence();
    good_derivations_stay_good_for_more_ranks();
}

// More rows never make the case coherent, and the documents alone are coherent.
fn family_laws(book: &Book)
    ensures closed { IsClosedUnderAdding (IsIncoherentFor book.now.case Part.Both) }
    ensures none { ¬ (IsIncoherentFor book.now.case Part.Both []) }
{
    let _ = book.journal();
    more_rows_stay_incoherent();
    a_closed_table_shows_coherence();
}

/// What the marks of a book say: a kept rank is spared, a removed one is not, and kept ranks before
/// it refute it; the ranks before the front are decided, and the kept ranks are coherent.
pub fn books_are_sound(book: &Book)
    ensures { AreSound (IsIncoherentFor book.now.case Part.Both) book.now.marks }
{
    let _ = book.journal();
    family_laws(book);
    allowed_events_leave_sound_marks(book);
}

/// The kept ranks are the repair of the ranks before the front. So once every rank is decided, they
/// are the repair of all.
pub fn books_hold_a_repair(book: &Book)
    ensures { IsRepair (IsIncoherentFor book.now.case Part.Both) (front_of book.now.marks)
        (kept_of book.now.marks) }
{
    let _ = book.journal();
    family_laws(book);
    kept_ranks_are_the_repair(book);
}

/// What the calls rest on: the laws, and that the kept ranks are before the front.
pub fn laws(book: &Book)
    ensures laws { Laws book.now.case }
    ensures ahead { AreKeptBeforeFront book.now.marks }
{
    kept_laws();
    block_laws();
    journal_laws(book);
    verdict_laws(book);
    books_are_sound(book);
}

/// What a book kept after a beginning of its journal stays first among what it keeps. So whoever
/// was given a snapshot may tell what it found to the same book later.
pub fn kept_ranks_stay_first(book: &Book)
    ensures { (earlier more : List Entry) (seen : ℕ) → book.now.entries ≡ earlier ++ more
        → let then = replayed (ranks_of book.now.case) earlier in seen ≤ number_kept then
        → (seen ≤ number_kept book.now.marks)
        × (take seen (kept_of book.now.marks) ≡ take seen (kept_of then)) }
{
    let _ = book.journal();
    kept_laws();
    block_laws();
}
