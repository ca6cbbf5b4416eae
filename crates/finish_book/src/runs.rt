//! The longest run of ranks from the front on that is coherent with the kept ranks.

ghost use Rattle.std.specs.Prelude.{◌≡◌, ℕ, ◌+◌, ◌*◌, ◌^◌, ◌<◌, ◌≤◌, ◌++◌, IfOk, OnOk, length};
ghost use Rattle.accuse_core.specs.Marks.{front_of, kept_of, block_of};
ghost use Rattle.saturate.specs.Decisions.{IsVerdict};
ghost use Rattle.commit_book.specs.Books.{IsTableFor, ranks_of};
ghost use Rattle.finish_book.specs.Inside.Runs.{IsRun, open_at, with_run};

use accuse_core::{Core, Mark, front_is_the_least_undecided_rank};
use closed_model::ClosedTable;
use commit_book::{Book, books_are_sound};
use derivation::Derivation;
use saturate::{Verdict, test_block};
use std::alloc::{AllocError, Global};
use std::sync::ledger::Ledger;
use step_count::Steps;

/// How far the run is known.
#[derive(Drop)]
pub struct Run {
    /// How many ranks from the front on are coherent with the kept ranks.
    pub known: u32,
    /// How many more may be.
    pub further: u32,
    /// The closed table of the kept ranks and the known ones.
    pub table: ClosedTable,
    /// Why one more than all of these is too many. `None` if they end with the last rank.
    pub why: Option<Derivation>,
}

// Puts a rank at the end, unless it is removed.
fn push_open(core: &Core, ranks: &mut Vec<u32>, rank: u32) -> Result<(), AllocError>
    requires { rank < length core.now }
    ensures { OnOk result (ranks.new.items ≡ ranks.old.items ++ open_at core.now rank) }
{
    match core.mark(rank) {
        Mark::Removed => Ok(()),
        Mark::Open | Mark::Yes(_) | Mark::Kept => {
            ranks.push(rank)?;
            Ok(())
        }
    }
}

// The ranks of a block that are not removed.
fn block(alloc: Global, book: &Book, first: u32, count: u32) -> Result<Vec<u32>, AllocError>
    requires { first + count ≤ ranks_of book.now.case }
    ensures { IfOk result (λ ranks. ranks.items ≡ block_of book.now.marks first count) }
{
    let _ = book.journal();
    let _ranks = book.case().ranks();
    let core = book.core();
    let mut ranks = Vec::new(alloc);
    for rank in first..first + count {
        push_open(core, &mut ranks, rank)?;
    }
    Ok(ranks)
}

/// The least number of halvings that lead from this number of ranks to one.
pub fn levels_of(ranks: u32) -> u32
    ensures enough { ranks ≤ 2 ^ result }
    ensures least { (levels : ℕ) → ranks ≤ 2 ^ levels → result ≤ levels }
    ensures small { result ≤ 32 }
{
    if ranks <= 1 {
        0
    } else {
        (ranks - 1).ilog2() + 1
    }
}

// How many ranks to test while there is time: few at first, twice as many after each yes, and half
// of what is left once a test said no.
fn short_length(known: u32, further: u32, ends: bool) -> u32
    requires { 0 < further }
    ensures some { 0 < result }
    ensures within { result ≤ further }
{
    if ends {
        further - further / 2
    } else {
        known.saturating_add(1).min(further)
    }
}

// How many ranks to test next. Either answer leaves fewer than `reach` of them.
fn next_length(known: u32, further: u32, ends: bool, reach: u64) -> u32
    requires further { 0 < further }
    requires reach { further + 1 ≤ 2 * reach }
    ensures some { 0 < result }
    ensures within { result ≤ further }
    ensures if_no { result ≤ reach }
    ensures if_yes { further + 1 ≤ result + reach }
{
    let all = u64::from(further);
    if all > reach {
        return (all + 1 - reach) as u32;
    }
    short_length(known, further, ends)
}

// A test of the next ranks of the run, from the table of the known ones on.
fn test_more<L: Ledger>(
    alloc: Global,
    book: &Book,
    run: &Run,
    count: u32,
    steps: &mut Steps<L>,
) -> Result<Verdict, AllocError>
    requires run { IsRun book.now run.now }
    requires count { count ≤ run.now.further }
    ensures verdict { let ranks = with_run book.now (run.now.known + count) in
        IfOk result (IsVerdict book.now.case ranks) }
    ensures counted { OnOk result (steps.new ≡ steps.old + 1) }
{
    books_are_sound(book);
    let _ = book.journal();
    let first = book.core().front() + run.known;
    let ranks = block(alloc, book, first, count)?;
    steps.tick();
    test_block(alloc, &run.table, ranks.as_slice())
}

// Narrows the run by one test, if something is left to test.
fn narrow<L: Ledger>(
    alloc: Global,
    book: &Book,
    run: &mut Run,
    reach: u64,
    steps: &mut Steps<L>,
) -> Result<(), AllocError>
    requires run { IsRun book.now run.old }
    requires reach { run.old.further + 1 ≤ 2 * reach }
    ensures run { OnOk result (IsRun book.now run.new) }
    ensures further { OnOk result (run.new.further + 1 ≤ reach) }
    ensures counted { OnOk result (steps.new ≤ steps.old + 1) }
    ensures later { OnOk result (steps.old ≤ steps.new) }
{
    let _ranks = book.case().ranks();
    if run.further == 0 {
        return Ok(());
    }
    let count = next_length(run.known, run.further, run.why.is_some(), reach);
    match test_more(alloc, book, run, count, steps)? {
        Verdict::Yes(table) => {
            run.known += count;
            run.further -= count;
            run.table = table;
            Ok(())
        }
        Verdict::No(why) => {
            run.further = count - 1;
            run.why = Some(why);
            Ok(())
        }
    }
}

/// The run before any test, from the table of the kept ranks on.
pub fn begun(book: &Book, table: ClosedTable) -> Run
    requires { IsTableFor book.now.case (kept_of book.now.marks) table }
    ensures { IsRun book.now result }
{
    front_is_the_least_undecided_rank();
    let _ = book.journal();
    let further = book.case().ranks() - book.core().front();
    Run {
        known: 0,
        further,
        table,
        why: None,
    }
}

// How many ranks may be left when so many tests may still be made.
fn reach_of(left: u32) -> u64
    requires { left ≤ 32 }
    ensures { result ≡ 2 ^ left }
{
    1 << left
}

/// The longest run, found by halving. A table that a test accepts is the base of the next test, so
/// nothing is derived twice. `levels` is the number of halvings for the ranks of the case.
pub fn longest_run<L: Ledger>(
    alloc: Global,
    book: &Book,
    begun: Run,
    levels: u32,
    steps: &mut Steps<L>,
) -> Result<Run, AllocError>
    requires run { IsRun book.now begun }
    requires levels { ranks_of book.now.case ≤ 2 ^ levels }
    requires small { levels ≤ 32 }
    ensures run { IfOk result (IsRun book.now) }
    ensures longest { IfOk result (λ run. run.further ≡ 0) }
    ensures few { OnOk result (steps.new ≤ steps.old + (levels + 1)) }
    ensures later { OnOk result (steps.old ≤ steps.new) }
{
    let mut run = begun;
    for made in 0..levels + 1 {
        narrow(alloc, book, &mut run, reach_of(levels - made), steps)?;
    }
    Ok(run)
}
