//! Events that are told to a book, each verdict as the case has it.

ghost use Rattle.std.specs.Prelude.{◌≡◌, ◌<◌, ◌++◌, ◌∷◌, [], All, IfOk, IsTrue, OnOk, take};
ghost use Rattle.std.specs.List.Sorted.{IsStrictlyIncreasing};
ghost use Rattle.saturate.specs.Decisions.{IsVerdict};

use accuse_core::{Event, Reply};
use closed_model::ClosedTable;
use commit_book::{Book, FrontAnswer, TakeAnswer};
use saturate::{Verdict, test_block};
use std::alloc::Global;
use std::test::Fail;

fn are_ascending(ranks: &[u32]) -> bool
    ensures { IsTrue result → IsStrictlyIncreasing ranks.now }
{
    for next in 1..ranks.len() {
        if ranks[next - 1] >= ranks[next] {
            return false;
        }
    }
    true
}

fn are_below(ranks: &[u32], count: u32) -> bool
    ensures { IsTrue result → All (λ rank. rank < count) ranks.now }
{
    ranks.iter().all(|rank| *rank < count)
}

// The verdict on ranks, over the table of none.
fn verdict(alloc: Global, base: &ClosedTable, ranks: &[u32]) -> Result<Verdict, Fail>
    requires { base.now.ranks ≡ [] }
    ensures { IfOk result (IsVerdict base.now.case ranks.now) }
{
    if !are_ascending(ranks) || !are_below(ranks, base.case().ranks()) {
        return Err("no ascending ranks of the case".into());
    }
    Ok(test_block(alloc, base, ranks)?)
}

// The first kept ranks, followed by a rank.
fn with_rank(alloc: Global, kept: &[u32], seen: u32, rank: u32) -> Result<Vec<u32>, Fail>
    ensures { IfOk result (λ ranks. ranks.items ≡ take seen kept.now ++ rank ∷ []) }
{
    let Some(first) = kept.get(..seen as usize) else {
        return Err("not so many are kept".into());
    };
    let mut ranks = Vec::from_slice(alloc, first)?;
    ranks.push(rank)?;
    Ok(ranks)
}

fn ask(alloc: Global, book: &mut Book, worker: u32, rank: u32) -> Result<Reply, Fail>
    ensures { OnOk result (book.new.case ≡ book.old.case) }
{
    let _ = book.journal();
    if rank >= book.case().ranks() {
        return Err("no rank of the case".into());
    }
    book.reserve_turn(alloc)?;
    match book.take(worker, rank) {
        TakeAnswer::Over => Ok(Reply::Over),
        TakeAnswer::Seen(taken) => Ok(Reply::Seen(taken.seen)),
    }
}

fn ask_front(alloc: Global, book: &mut Book, worker: u32) -> Result<Reply, Fail>
    ensures { OnOk result (book.new.case ≡ book.old.case) }
{
    book.reserve_turn(alloc)?;
    match book.take_front(worker) {
        FrontAnswer::Done => Ok(Reply::Done),
        FrontAnswer::Front(taken) => Ok(Reply::Front(taken.rank, taken.seen)),
    }
}

fn say_no(
    alloc: Global,
    base: &ClosedTable,
    book: &mut Book,
    worker: u32,
    rank: u32,
    seen: u32,
) -> Result<Reply, Fail>
    requires none { base.now.ranks ≡ [] }
    requires case { base.now.case ≡ book.old.case }
    ensures { OnOk result (book.new.case ≡ book.old.case) }
{
    if !book.core().fits(&Event::No { worker, rank, seen }) {
        return Err("it doesn't fit".into());
    }
    let ranks = with_rank(alloc, book.core().kept(), seen, rank)?;
    let Verdict::No(why) = verdict(alloc, base, ranks.as_slice())? else {
        return Err("it is coherent".into());
    };
    book.reserve_turn(alloc)?;
    Ok(book.tell_no(worker, rank, seen, why))
}

fn say_yes(
    alloc: Global,
    base: &ClosedTable,
    book: &mut Book,
    worker: u32,
    rank: u32,
    seen: u32,
) -> Result<Reply, Fail>
    requires none { base.now.ranks ≡ [] }
    requires case { base.now.case ≡ book.old.case }
    ensures { OnOk result (book.new.case ≡ book.old.case) }
{
    if !book.core().fits(&Event::Yes { worker, rank, seen }) {
        return Err("it doesn't fit".into());
    }
    let ranks = with_rank(alloc, book.core().kept(), seen, rank)?;
    let Verdict::Yes(table) = verdict(alloc, base, ranks.as_slice())? else {
        return Err("it is incoherent".into());
    };
    book.reserve_turn(alloc)?;
    Ok(book.tell_yes(worker, rank, seen, table))
}

/// Tells an event, where it fits and its verdict is true.
pub(crate) fn tell(
    alloc: Global,
    base: &ClosedTable,
    book: &mut Book,
    event: Event,
) -> Result<Reply, Fail>
    requires none { base.now.ranks ≡ [] }
    requires case { base.now.case ≡ book.old.case }
    ensures { OnOk result (book.new.case ≡ book.old.case) }
{
    match event {
        Event::Take { worker, rank } => ask(alloc, book, worker, rank),
        Event::TakeFront { worker } => ask_front(alloc, book, worker),
        Event::No { worker, rank, seen } => say_no(alloc, base, book, worker, rank, seen),
        Event::Yes { worker, rank, seen } => say_yes(alloc, base, book, worker, rank, seen),
        Event::Block { .. } => Err("no block".into()),
    }
}
