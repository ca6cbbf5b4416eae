//! The marks of all ranks, beside a list of the kept ones.

ghost use Rattle.std.specs.Prelude.{◌≡◌, ◌<◌, ◌≤◌, ◌+◌, [], ◌∷◌, ◌++◌, true, false, length, slice_set, IfOk, vec_len, vec_capacity};
ghost use Rattle.accuse_core.specs.Marks.{is_decided, is_removed, is_yes_over, kept_unless_removed, opening, mark_at, kept_of, number_kept, front_of, with_kept, with_removed, with_note, with_block, settled};
ghost use Rattle.accuse_core.specs.Inside.Tracking.{AreTracked};

use crate::mark::Mark;
use std::alloc::{AllocError, Global};
use std::marker::Model;

/// A mark for each rank. Contracts see the marks. The room for every kept rank is taken when it is
/// made, so that nothing takes memory later.
#[derive(Debug, Drop)]
pub struct Marks {
    by_rank: Vec<Mark>,
    kept: Vec<u32>,
}

impl Model for Marks {
    ghost use Rattle.std.specs.Prelude.{List, vec_capacity};
    ghost use Rattle.accuse_core.specs.declared.mark.Mark.{Mark};
    ghost use Rattle.accuse_core.specs.Marks.{front_of};
    ghost use Rattle.accuse_core.specs.Inside.Tracking.{AreTracked};

    ghost Value = { List Mark };

    ghost view = { λ m. m.by_rank.items };

    ghost invariant = { λ m.
        AreTracked m.by_rank.items (front_of m.by_rank.items) m.kept.items (vec_capacity m.kept) };
}

fn is_decided(mark: Mark) -> bool
    ensures { result ≡ is_decided mark }
{
    matches!(mark, Mark::Kept | Mark::Removed)
}

fn is_removed(mark: Mark) -> bool
    ensures { result ≡ is_removed mark }
{
    matches!(mark, Mark::Removed)
}

fn is_yes_over(count: u32, mark: Mark) -> bool
    ensures { result ≡ is_yes_over count mark }
{
    match mark {
        Mark::Yes(seen) => seen == count,
        _ => false,
    }
}

fn open_marks(alloc: Global, ranks: u32) -> Result<Vec<Mark>, AllocError>
    ensures { IfOk result (λ marks. marks.items ≡ opening ranks) }
{
    let mut marks = Vec::new(alloc);
    marks.resize(ranks as usize, Mark::Open)?;
    Ok(marks)
}

// How many decided marks come first.
fn decided_len(marks: &[Mark]) -> usize
    ensures { result ≡ front_of marks.now }
{
    marks.iter().take_while(|mark| is_decided(**mark)).count()
}

// The front, sought from a rank on before which all are decided.
#[tactic(auto, using(crate::proofs::FrontLaws::front_within))]
fn front_after(marks: &[Mark], rank: usize) -> usize
    requires { rank ≤ front_of marks.now }
    ensures { result ≡ front_of marks.now }
{
    rank + decided_len(&marks[rank..])
}

// Lists one more rank, for which there is room.
fn list(kept: &mut Vec<u32>, rank: u32)
    requires { vec_len kept.old < vec_capacity kept.old }
    ensures items { kept.new.items ≡ kept.old.items ++ rank ∷ [] }
    ensures room { vec_capacity kept.old ≤ vec_capacity kept.new }
{
    match kept.push(rank) {
        Ok(()) => {}
        Err(_) => unreachable!(),
    }
}

// Keeps a rank past all that are kept.
fn keep(marks: &mut Vec<Mark>, kept: &mut Vec<u32>, rank: u32)
    requires inside { rank < length marks.old.items }
    requires tracked { AreTracked marks.old.items rank kept.old.items (vec_capacity kept.old) }
    ensures marked { marks.new.items ≡ with_kept marks.old.items rank }
    ensures tracked { AreTracked marks.new.items (rank + 1) kept.new.items (vec_capacity kept.new) }
{
    marks[rank as usize] = Mark::Kept;
    list(kept, rank);
}

fn keep_unless_removed(marks: &mut Vec<Mark>, kept: &mut Vec<u32>, rank: u32)
    requires inside { rank < length marks.old.items }
    requires tracked { AreTracked marks.old.items rank kept.old.items (vec_capacity kept.old) }
    ensures marked { marks.new.items
        ≡ slice_set marks.old.items rank (kept_unless_removed (mark_at marks.old.items rank)) }
    ensures tracked { AreTracked marks.new.items (rank + 1) kept.new.items (vec_capacity kept.new) }
{
    if is_removed(marks[rank as usize]) {
        return;
    }
    keep(marks, kept, rank);
}

impl Marks {
    pub fn new(alloc: Global, ranks: u32) -> Result<Marks, AllocError>
        ensures { IfOk result (λ marks. marks ≡ opening ranks) }
    {
        let by_rank = open_marks(alloc, ranks)?;
        let kept = Vec::with_capacity(alloc, ranks as usize)?;
        Ok(Marks { by_rank, kept })
    }

    pub fn len(&self) -> u32
        ensures { result ≡ length self.now }
    {
        self.by_rank.len() as u32
    }

    pub fn at(&self, rank: u32) -> Mark
        requires { rank < length self.now }
        ensures { result ≡ mark_at self.now rank }
    {
        self.by_rank[rank as usize]
    }

    pub fn kept(&self) -> &[u32]
        ensures { result.now ≡ kept_of self.now }
    {
        self.kept.as_slice()
    }

    pub fn kept_count(&self) -> u32
        ensures { result ≡ number_kept self.now }
    {
        self.kept.len() as u32
    }

    pub fn is_decided(&self, rank: u32) -> bool
        requires { rank < length self.now }
        ensures { result ≡ is_decided (mark_at self.now rank) }
    {
        is_decided(self.at(rank))
    }

    // Whether the mark of a rank is a yes over just the kept ranks.
    fn waits(&self, rank: u32) -> bool
        ensures waits { result ≡ is_yes_over (number_kept self.now) (mark_at self.now rank) }
        ensures inside { result ≡ true → rank < length self.now }
    {
        if rank >= self.len() {
            return false;
        }
        is_yes_over(self.kept_count(), self.at(rank))
    }

    /// The front, sought from a rank on before which all are decided.
    pub fn front_from(&self, rank: u32) -> u32
        requires { rank ≤ front_of self.now }
        ensures { result ≡ front_of self.now }
    {
        front_after(self.by_rank.as_slice(), rank as usize) as u32
    }

    /// Removes a rank that isn't decided.
    pub fn remove(&mut self, rank: u32)
        requires inside { rank < length self.old }
        requires open { is_decided (mark_at self.old rank) ≡ false }
        ensures { self.new ≡ with_removed self.old rank }
    {
        self.by_rank[rank as usize] = Mark::Removed;
    }

    /// Notes a yes at a rank that isn't decided.
    pub fn note(&mut self, rank: u32, seen: u32)
        requires inside { rank < length self.old }
        requires open { is_decided (mark_at self.old rank) ≡ false }
        ensures { self.new ≡ with_note self.old rank seen }
    {
        self.by_rank[rank as usize] = Mark::Yes(seen);
    }

    /// Keeps the rank at the front.
    pub fn keep_front(&mut self, front: u32)
        requires front { front ≡ front_of self.old }
        requires inside { front < length self.old }
        ensures { self.new ≡ with_kept self.old front }
    {
        keep(&mut self.by_rank, &mut self.kept, front);
    }

    /// Keeps this number of ranks from the front on, unless they are removed.
    pub fn keep_block(&mut self, front: u32, count: u32)
        requires front { front ≡ front_of self.old }
        requires inside { front + count ≤ length self.old }
        ensures { self.new ≡ with_block self.old front count }
    {
        for ahead in 0..count {
            keep_unless_removed(&mut self.by_rank, &mut self.kept, front + ahead);
        }
    }

    /// After a change: keeps the rank at the front if it waits for that, and gives the front. It is
    /// sought from a rank on before which all are decided.
    pub fn settle(&mut self, rank: u32) -> u32
        requires { rank ≤ front_of self.old }
        ensures marks { self.new ≡ settled self.old }
        ensures front { result ≡ front_of self.new }
    {
        let front = self.front_from(rank);
        if !self.waits(front) {
            return front;
        }
        self.keep_front(front);
        self.front_from(front)
    }
}
