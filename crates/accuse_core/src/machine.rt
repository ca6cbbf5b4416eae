//! The core: the state that verdicts change, one event at a time.

ghost use Rattle.std.specs.Prelude.{◌≡◌, ◌↔◌, ◌<◌, ◌≤◌, ◌+◌, IsTrue, length, IfOk};
ghost use Rattle.accuse_core.specs.Marks.{opening, mark_at, kept_of, front_of};
ghost use Rattle.accuse_core.specs.Events.{IsFitting, IsFittingVerdict, IsFittingBlock, outcome, on_take, on_take_front, on_no, on_yes, on_block};

use crate::event::{Event, Reply};
use crate::mark::Mark;
use crate::marks::Marks;
use std::alloc::{AllocError, Global};
use std::marker::Model;

/// How many ranks, from the front on, a yes may be noted for.
const WINDOW: u64 = 64;

/// A mark for each rank, the kept ranks in ascending order, and the front: the least rank that is
/// neither kept nor removed, or the number of ranks. Contracts see the marks.
#[derive(Debug, Drop)]
pub struct Core {
    marks: Marks,
    front: u32,
}

impl Model for Core {
    ghost use Rattle.std.specs.Prelude.{◌≡◌, List};
    ghost use Rattle.accuse_core.specs.declared.mark.Mark.{Mark};
    ghost use Rattle.accuse_core.specs.Marks.{front_of};

    ghost Value = { List Mark };

    ghost view = { λ c. c.marks };

    ghost invariant = { λ c. c.front ≡ front_of c.marks };
}

impl Core {
    /// The opening state over this number of ranks: nothing is known of any rank. It takes all the
    /// memory that the core needs, with room for every rank among the kept ones.
    pub fn new(alloc: Global, ranks: u32) -> Result<Core, AllocError>
        ensures { IfOk result (λ core. core ≡ opening ranks) }
    {
        let marks = Marks::new(alloc, ranks)?;
        let front = marks.front_from(0);
        Ok(Core { marks, front })
    }

    /// The mark of a rank.
    pub fn mark(&self, rank: u32) -> Mark
        requires { rank < length self.now }
        ensures { result ≡ mark_at self.now rank }
    {
        self.marks.at(rank)
    }

    /// The kept ranks, in ascending order.
    pub fn kept(&self) -> &[u32]
        ensures { result.now ≡ kept_of self.now }
    {
        self.marks.kept()
    }

    /// The least rank that is neither kept nor removed, or the number of ranks if there is none.
    pub fn front(&self) -> u32
        ensures { result ≡ front_of self.now }
    {
        self.front
    }

    /// Whether the core takes an event: its ranks are ranks of the core, and what it has seen is
    /// kept; a block begins at the front, has seen all kept ranks and is not empty.
    pub fn fits(&self, event: &Event) -> bool
        ensures { IsTrue result ↔ IsFitting self.now event.now }
    {
        match *event {
            Event::Take { rank, .. } => rank < self.marks.len(),
            Event::TakeFront { .. } => true,
            Event::No { rank, seen, .. } => self.has_seen(rank, seen),
            Event::Yes { rank, seen, .. } => self.has_seen(rank, seen),
            Event::Block {
                rank,
                count,
                seen,
                ..
            } => self.fits_block(rank, count, seen),
        }
    }

    fn has_seen(&self, rank: u32, seen: u32) -> bool
        ensures { IsTrue result ↔ IsFittingVerdict self.now rank seen }
    {
        rank < self.marks.len() && seen <= self.marks.kept_count()
    }

    fn fits_block(&self, rank: u32, count: u32, seen: u32) -> bool
        ensures { IsTrue result ↔ IsFittingBlock self.now rank count seen }
    {
        let ahead = self.marks.len() - self.front;
        rank == self.front && seen == self.marks.kept_count() && 1 <= count && count <= ahead
    }

    /// Changes the state by an event, and replies. It takes no memory: the room for all kept ranks
    /// is there from the start. It looks at no more ranks than it decides, and one more: the search
    /// for the front goes on from the old one, and a kept rank is put at the end of the list.
    pub fn step(&mut self, event: Event) -> Reply
        requires { IsFitting self.old event }
        ensures marks { self.new ≡ (outcome self.old event).marks }
        ensures reply { result ≡ (outcome self.old event).reply }
    {
        match event {
            Event::Take { rank, .. } => self.take(rank),
            Event::TakeFront { .. } => self.take_front(),
            Event::No { rank, .. } => self.no(rank),
            Event::Yes { rank, seen, .. } => self.yes(rank, seen),
            Event::Block { rank, count, .. } => self.block(rank, count),
        }
    }

    fn take(&self, rank: u32) -> Reply
        requires { rank < length self.now }
        ensures marks { self.now ≡ (on_take self.now rank).marks }
        ensures reply { result ≡ (on_take self.now rank).reply }
    {
        if self.marks.is_decided(rank) {
            Reply::Over
        } else {
            Reply::Seen(self.marks.kept_count())
        }
    }

    fn take_front(&self) -> Reply
        ensures marks { self.now ≡ (on_take_front self.now).marks }
        ensures reply { result ≡ (on_take_front self.now).reply }
    {
        if self.front == self.marks.len() {
            Reply::Done
        } else {
            Reply::Front(self.front, self.marks.kept_count())
        }
    }

    fn no(&mut self, rank: u32) -> Reply
        requires { rank < length self.old }
        ensures marks { self.new ≡ (on_no self.old rank).marks }
        ensures reply { result ≡ (on_no self.old rank).reply }
    {
        if self.marks.is_decided(rank) {
            return Reply::Late;
        }
        self.marks.remove(rank);
        self.front = self.marks.settle(self.front);
        Reply::Marked
    }

    fn yes(&mut self, rank: u32, seen: u32) -> Reply
        requires { rank < length self.old }
        ensures marks { self.new ≡ (on_yes self.old rank seen).marks }
        ensures reply { result ≡ (on_yes self.old rank seen).reply }
    {
        let decided = self.marks.is_decided(rank);
        if decided {
            return Reply::Late;
        }
        let count = self.marks.kept_count();
        if seen < count {
            return Reply::Stale(count);
        }
        if rank == self.front {
            self.marks.keep_front(rank);
            self.front = self.marks.settle(rank);
            return Reply::Kept;
        }
        if u64::from(rank) >= u64::from(self.front) + WINDOW {
            return Reply::Far;
        }
        self.marks.note(rank, seen);
        self.front = self.marks.settle(self.front);
        Reply::Noted
    }

    fn block(&mut self, rank: u32, count: u32) -> Reply
        requires front { rank ≡ front_of self.old }
        requires inside { rank + count ≤ length self.old }
        ensures marks { self.new ≡ (on_block self.old rank count).marks }
        ensures reply { result ≡ (on_block self.old rank count).reply }
    {
        self.marks.keep_block(rank, count);
        self.front = self.marks.settle(rank);
        Reply::Kept
    }
}
