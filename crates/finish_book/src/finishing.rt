//! Rounds of block tests, until every rank is decided.

ghost use Rattle.std.specs.Prelude.{◌≡◌, ◌+◌, ◌-◌, ◌≤◌, ◌<◌, ◌^◌, ◌++◌, ◌∷◌, [], false, take, length, IfOk, OnOk, MatchOption};
ghost use Rattle.std.specs.Arc.{arc_value};
ghost use Rattle.el_logic.specs.declared.types.Part.{Part};
ghost use Rattle.case_file.specs.Incoherence.{IsIncoherentFor};
ghost use Rattle.conflict_logic.specs.Repair.{IsRepair};
ghost use Rattle.derivation.specs.Steps.{IsGoodDerivation};
ghost use Rattle.accuse_core.specs.Marks.{front_of, kept_of, number_kept, is_decided, mark_at};
ghost use Rattle.commit_book.specs.Books.{IsTableFor, ranks_of};
ghost use Rattle.finish_book.specs.Finishing.{IsFinishedBy, AreFewEntries, AreFewTests};
ghost use Rattle.finish_book.specs.Inside.Runs.{IsRun, IsTooLong, with_run};
ghost use Rattle.finish_book.specs.Inside.Rounds.{IsAtFront, GoesOn, KeepsRun, RemovesRank, IsRound, IsTurn};

use crate::runs::{Run, begun, levels_of, longest_run};
use accuse_core::{
    asking_leaves_the_marks, blocks_keep_what_is_not_removed, decided_ranks_keep_their_marks,
    events_leave_the_ranks, front_is_the_least_undecided_rank, kept_ranks_have_the_mark,
    kept_ranks_only_grow,
};
use case_file::more_rows_stay_incoherent;
use closed_model::ClosedTable;
use commit_book::{Book, FrontAnswer, Taken, books_are_sound, books_hold_a_repair};
use derivation::Derivation;
use std::alloc::{AllocError, Global};
use std::sync::ledger::Ledger;
use step_count::Steps;

/// The number of the one worker.
const WORKER: u32 = 0;

// Asks for the rank at the front, if there is one.
fn take_front(alloc: Global, book: &mut Book) -> Result<Option<Taken>, AllocError>
    ensures asked { OnOk result (GoesOn 1 book.old book.new) }
    ensures marks { OnOk result (book.new.marks ≡ book.old.marks) }
    ensures front { IfOk result (λ found. MatchOption found
        (front_of book.old.marks ≡ ranks_of book.old.case) (IsAtFront book.new)) }
{
    asking_leaves_the_marks();
    decided_ranks_keep_their_marks();
    events_leave_the_ranks();
    front_is_the_least_undecided_rank();
    let _ = book.journal();
    book.reserve_turn(alloc)?;
    match book.take_front(WORKER) {
        FrontAnswer::Done => Ok(None),
        FrontAnswer::Front(taken) => Ok(Some(taken)),
    }
}

// Keeps the ranks of a run, if there are any.
fn keep_run(
    alloc: Global,
    book: &mut Book,
    count: u32,
    table: ClosedTable,
) -> Result<(), AllocError>
    requires inside { front_of book.old.marks + count ≤ ranks_of book.old.case }
    requires table { IsTableFor book.old.case (with_run book.old count) table }
    ensures { OnOk result (KeepsRun count book.old book.new) }
{
    books_are_sound(book);
    blocks_keep_what_is_not_removed();
    decided_ranks_keep_their_marks();
    events_leave_the_ranks();
    kept_ranks_only_grow();
    let _ = book.journal();
    if count == 0 {
        return Ok(());
    }
    book.reserve_turn(alloc)?;
    book.tell_block(WORKER, count, table);
    Ok(())
}

// Removes a rank that is not decided.
fn remove_rank(
    alloc: Global,
    book: &mut Book,
    rank: u32,
    seen: u32,
    why: Derivation,
) -> Result<(), AllocError>
    requires inside { rank < ranks_of book.old.case }
    requires undecided { is_decided (mark_at book.old.marks rank) ≡ false }
    requires seen { seen ≤ number_kept book.old.marks }
    requires good { let ranks = take seen (kept_of book.old.marks) ++ rank ∷ [] in
        IsGoodDerivation book.old.case Part.Both ranks why }
    ensures { OnOk result (RemovesRank rank book.old book.new) }
{
    decided_ranks_keep_their_marks();
    events_leave_the_ranks();
    let _ = book.journal();
    book.reserve_turn(alloc)?;
    book.tell_no(WORKER, rank, seen, why);
    Ok(())
}

// Keeps the longest run, and removes the rank after it.
fn decide_run(alloc: Global, book: &mut Book, run: Run) -> Result<(), AllocError>
    requires front { front_of book.old.marks < ranks_of book.old.case }
    requires run { IsRun book.old run }
    requires longest { run.further ≡ 0 }
    ensures { OnOk result (IsRound 1 book.old book.new) }
{
    front_is_the_least_undecided_rank();
    kept_ranks_have_the_mark();
    more_rows_stay_incoherent();
    let Run {
        known,
        further: _,
        table,
        why,
    } = run;
    let _ = table.case();
    let _ = book.journal();
    let _ranks = book.case().ranks();
    let next = book.core().front() + known;
    let seen = table.ranks().len() as u32;
    keep_run(alloc, book, known, table)?;
    books_are_sound(book);
    match why {
        None => Ok(()),
        Some(why) => {
            remove_rank(alloc, book, next, seen, why)?;
            Ok(())
        }
    }
}

// A round, if a rank is left.
fn round<L: Ledger>(
    alloc: Global,
    book: &mut Book,
    levels: u32,
    steps: &mut Steps<L>,
) -> Result<(), AllocError>
    requires levels { ranks_of book.old.case ≤ 2 ^ levels }
    requires small { levels ≤ 32 }
    ensures turn { OnOk result (IsTurn (levels + 1) (steps.new - steps.old) book.old book.new) }
    ensures counted { OnOk result (steps.old ≤ steps.new) }
{
    let ranks = book.case().ranks();
    if book.core().front() == ranks {
        return Ok(());
    }
    let Some(taken) = take_front(alloc, book)? else {
        return Ok(());
    };
    let run = begun(book, taken.snapshot);
    let run = longest_run(alloc, book, run, levels, steps)?;
    decide_run(alloc, book, run)?;
    Ok(())
}

/// Decides what is left of a book, as worker 0 alone. Each round keeps the longest run of ranks
/// from the front on that is coherent with the kept ranks, by one entry, and removes the rank after
/// it. The runs are found by halving, with tests of whole blocks; each test is counted.
pub fn finish<L: Ledger>(
    alloc: Global,
    book: Book,
    steps: &mut Steps<L>,
) -> Result<Book, AllocError>
    ensures case { IfOk result (λ after. after.case ≡ book.case) }
    ensures decided { IfOk result (λ after. front_of after.marks ≡ ranks_of book.case) }
    ensures repair { IfOk result (λ after. IsRepair (IsIncoherentFor book.case Part.Both)
        (ranks_of book.case) (kept_of after.marks)) }
    ensures entries { IfOk result (λ after. IsFinishedBy book.entries after.entries) }
    ensures few { IfOk result (AreFewEntries book) }
    ensures tests { IfOk result (AreFewTests (steps.new - steps.old) book) }
{
    front_is_the_least_undecided_rank();
    let _ = book.journal();
    let ranks = book.case().ranks();
    let levels = levels_of(ranks);
    let mut book = book;
    for _ in 0..ranks {
        round(alloc, &mut book, levels, steps)?;
    }
    take_front(alloc, &mut book)?;
    books_hold_a_repair(&book);
    Ok(book)
}
