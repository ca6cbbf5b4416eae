//! What workers ask and tell.

ghost use Rattle.std.specs.Prelude.{◌≡◌, ◌<◌, ◌≤◌, ◌+◌, [], ◌∷◌, ◌++◌, take, length};
ghost use Rattle.el_logic.specs.declared.types.Part.{Part};
ghost use Rattle.derivation.specs.Steps.{IsGoodDerivation};
ghost use Rattle.accuse_core.specs.declared.event.Event.TheVariants as E;
ghost use Rattle.accuse_core.specs.Marks.{kept_of, number_kept, front_of, block_of};
ghost use Rattle.accuse_core.specs.Events.{IsFitting, outcome};
ghost use Rattle.commit_book.specs.Books.{IsTableFor, entry_of, EntersEvent};
ghost use Rattle.commit_book.specs.Answers.{take_reply, front_reply, GivesRank, GivesFront};

use crate::answers::{FrontAnswer, TakeAnswer, Taken};
use crate::book::Book;
use crate::held::{Held, drop_notes, put, settle};
use crate::laws::laws;
use accuse_core::{Core, Entries, Entry, Event, Reply};
use closed_model::ClosedTable;
use derivation::Derivation;

// Changes the core by an event, and enters the event with its reply.
fn enter(core: &mut Core, journal: &mut Entries, event: Event) -> Reply
    requires fits { IsFitting core.old event }
    requires room { 0 < journal.old.room }
    ensures marks { core.new ≡ (outcome core.old event).marks }
    ensures entries { journal.new.entries
        ≡ journal.old.entries ++ entry_of core.old event ∷ [] }
    ensures reply { result ≡ (outcome core.old event).reply }
{
    let reply = core.step(event);
    journal.push(Entry { event, reply });
    reply
}

// How many ranks are kept.
fn kept_count(core: &Core, ranks: u32) -> u32
    requires { length core.now ≡ ranks }
    ensures { result ≡ number_kept core.now }
{
    let _ranks = ranks;
    core.kept().len() as u32
}

impl Book {
    /// A worker asks for a rank to test.
    pub fn take(&mut self, worker: u32, rank: u32) -> TakeAnswer
        requires spare { self.old.spare ≡ 1 }
        requires rank { rank < length self.old.marks }
        ensures told { EntersEvent (E.Take worker rank) self.old self.new }
        ensures reply { take_reply result ≡ (outcome self.old.marks (E.Take worker rank)).reply }
        ensures given { GivesRank self.old rank result }
    {
        laws(self);
        let Some(snapshot) = self.next.take() else {
            unreachable!()
        };
        let event = Event::Take { worker, rank };
        let Reply::Seen(seen) = enter(&mut self.core, &mut self.journal, event) else {
            return TakeAnswer::Over;
        };
        TakeAnswer::Seen(Taken {
            rank,
            seen,
            snapshot,
        })
    }

    /// A worker asks for the rank at the front, to test it.
    pub fn take_front(&mut self, worker: u32) -> FrontAnswer
        requires { self.old.spare ≡ 1 }
        ensures told { EntersEvent (E.TakeFront worker) self.old self.new }
        ensures reply { front_reply result ≡ (outcome self.old.marks (E.TakeFront worker)).reply }
        ensures given { GivesFront self.old result }
    {
        laws(self);
        let Some(snapshot) = self.next.take() else {
            unreachable!()
        };
        let event = Event::TakeFront { worker };
        let Reply::Front(rank, seen) = enter(&mut self.core, &mut self.journal, event) else {
            return FrontAnswer::Done;
        };
        FrontAnswer::Front(Taken {
            rank,
            seen,
            snapshot,
        })
    }

    /// A worker tells that a rank is incoherent together with the first kept ranks, and why.
    pub fn tell_no(&mut self, worker: u32, rank: u32, seen: u32, why: Derivation) -> Reply
        requires spare { self.old.spare ≡ 1 }
        requires fits { IsFitting self.old.marks (E.No worker rank seen) }
        requires good { let ranks = take seen (kept_of self.old.marks) ++ rank ∷ [] in
            IsGoodDerivation self.old.case Part.Both ranks why }
        ensures told { EntersEvent (E.No worker rank seen) self.old self.new }
        ensures reply { result ≡ (outcome self.old.marks (E.No worker rank seen)).reply }
    {
        laws(self);
        self.next = None;
        let event = Event::No { worker, rank, seen };
        let reply = enter(&mut self.core, &mut self.journal, event);
        match reply {
            Reply::Marked => {
                let item = Held::Why(why);
                put(&self.core, &mut self.held, &mut self.table, rank, item);
            }
            _ => {}
        }
        reply
    }

    /// A worker tells that a rank is coherent together with the first kept ranks, by their closed
    /// table.
    pub fn tell_yes(&mut self, worker: u32, rank: u32, seen: u32, table: ClosedTable) -> Reply
        requires spare { self.old.spare ≡ 1 }
        requires fits { IsFitting self.old.marks (E.Yes worker rank seen) }
        requires table { let ranks = take seen (kept_of self.old.marks) ++ rank ∷ [] in
            IsTableFor self.old.case ranks table }
        ensures told { EntersEvent (E.Yes worker rank seen) self.old self.new }
        ensures reply { result ≡ (outcome self.old.marks (E.Yes worker rank seen)).reply }
    {
        laws(self);
        // that the table is closed is known from its type
        let _ = table.case();
        self.next = None;
        let event = Event::Yes { worker, rank, seen };
        let reply = enter(&mut self.core, &mut self.journal, event);
        match reply {
            Reply::Kept => {
                self.table = table;
                let item = Held::Nothing;
                put(&self.core, &mut self.held, &mut self.table, rank, item);
            }
            Reply::Noted => {
                let item = Held::Note(table);
                put(&self.core, &mut self.held, &mut self.table, rank, item);
            }
            _ => {}
        }
        reply
    }

    /// A worker tells that all kept ranks are coherent together with the ranks of a block at the
    /// front that are not removed, by their closed table.
    pub fn tell_block(&mut self, worker: u32, count: u32, table: ClosedTable) -> Reply
        requires spare { self.old.spare ≡ 1 }
        requires some { 1 ≤ count }
        requires inside { front_of self.old.marks + count ≤ length self.old.marks }
        requires table { let block = block_of self.old.marks (front_of self.old.marks) count in
            IsTableFor self.old.case (kept_of self.old.marks ++ block) table }
        ensures told { let marks = self.old.marks in
            let event = E.Block worker (front_of marks) count (number_kept marks) in
            EntersEvent event self.old self.new }
        ensures reply { let marks = self.old.marks in
            let event = E.Block worker (front_of marks) count (number_kept marks) in
            result ≡ (outcome marks event).reply }
    {
        laws(self);
        let _ = table.case();
        self.next = None;
        let rank = self.core.front();
        let seen = kept_count(&self.core, self.case.ranks());
        let event = Event::Block {
            worker,
            rank,
            count,
            seen,
        };
        let reply = enter(&mut self.core, &mut self.journal, event);
        drop_notes(&mut self.held, rank, count);
        self.table = table;
        settle(&self.core, &mut self.held, &mut self.table);
        reply
    }
}
