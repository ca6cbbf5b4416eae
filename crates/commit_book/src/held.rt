//! What a book holds for each rank: a table while the rank waits, a derivation once it is removed.

ghost use Rattle.std.specs.Prelude.{◌≡◌, ◌<◌, ◌≤◌, ◌+◌, ℕ, length, replicate, slice_set, IfOk, if◌then◌else◌, nat_lt, nat_le};
ghost use Rattle.commit_book.specs.declared.held.Held.TheVariants.{Nothing};
ghost use Rattle.commit_book.specs.Inside.Holdings.{held_at, without_note, IsSettled, IsNearlySettled};

use accuse_core::Core;
use closed_model::ClosedTable;
use derivation::Derivation;
use std::alloc::{AllocError, Global};
use std::mem;

/// What the mark of a rank rests on.
#[derive(Drop)]
pub enum Held {
    Nothing,
    /// The closed table of a yes: for the kept ranks that it has seen, followed by the rank.
    Note(ClosedTable),
    /// The derivation of a no.
    Why(Derivation),
}

/// Nothing for each of this number of ranks.
pub fn nothing_held(alloc: Global, ranks: u32) -> Result<Vec<Held>, AllocError>
    ensures { IfOk result (λ held. held.items ≡ replicate ranks Nothing) }
{
    let mut held = Vec::with_capacity(alloc, ranks as usize)?;
    for _ in 0..ranks {
        held.push(Held::Nothing)?;
    }
    Ok(held)
}

/// Puts what is held for a rank.
pub fn hold(held: &mut Vec<Held>, rank: u32, item: Held)
    requires { rank < length held.old.items }
    ensures { held.new.items ≡ slice_set held.old.items rank item }
{
    held[rank as usize] = item;
}

/// Takes what is held for a rank.
pub fn release(held: &mut Vec<Held>, rank: u32) -> Held
    requires { rank < length held.old.items }
    ensures item { result ≡ held_at held.old.items rank }
    ensures rest { held.new.items ≡ slice_set held.old.items rank Nothing }
{
    mem::replace(&mut held[rank as usize], Held::Nothing)
}

/// Takes away the tables that are held for this number of ranks from the first one on.
pub fn drop_notes(held: &mut Vec<Held>, first: u32, count: u32)
    requires { first + count ≤ length held.old.items }
    ensures count { length held.new.items ≡ length held.old.items }
    ensures within { (rank : ℕ) → first ≤ rank → rank < first + count
        → held_at held.new.items rank ≡ without_note (held_at held.old.items rank) }
    ensures before { (rank : ℕ) → rank < first
        → held_at held.new.items rank ≡ held_at held.old.items rank }
    ensures past { (rank : ℕ) → first + count ≤ rank
        → held_at held.new.items rank ≡ held_at held.old.items rank }
{
    for ahead in 0..count {
        drop_note(held, first as usize + ahead as usize);
    }
}

fn drop_note(held: &mut Vec<Held>, rank: usize)
    requires { rank < length held.old.items }
    ensures { held.new.items
        ≡ slice_set held.old.items rank (without_note (held_at held.old.items rank)) }
{
    if let Held::Note(_) = held[rank] {
        held[rank] = Held::Nothing;
    }
}

/// After an event: the core may have kept a rank that waited at the front. The table that is held
/// for it is then the one of all kept ranks.
pub fn settle(core: &Core, held: &mut Vec<Held>, table: &mut ClosedTable)
    requires { IsNearlySettled table.old.case core.now held.old.items table.old }
    ensures settled { IsSettled table.old.case core.now held.new.items table.new }
    ensures count { length held.new.items ≡ length held.old.items }
{
    let kept = core.kept();
    let count = kept.len();
    if table.ranks().len() == count {
        return;
    }
    match release(held, kept[count - 1]) {
        Held::Note(note) => *table = note,
        _ => unreachable!(),
    }
}

/// After an event: puts what is held for the rank that it changed, and then settles.
pub fn put(core: &Core, held: &mut Vec<Held>, table: &mut ClosedTable, rank: u32, item: Held)
    requires inside { rank < length held.old.items }
    requires put { let later = slice_set held.old.items rank item in
        IsNearlySettled table.old.case core.now later table.old }
    ensures settled { IsSettled table.old.case core.now held.new.items table.new }
    ensures count { length held.new.items ≡ length held.old.items }
{
    hold(held, rank, item);
    settle(core, held, table);
}
