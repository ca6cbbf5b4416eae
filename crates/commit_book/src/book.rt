//! The book, its opening, and what can be read in it.

ghost use Rattle.std.specs.Prelude.{◌≡◌, ℕ, [], length, IfOk, OnOk, OnErr};
ghost use Rattle.std.specs.Option.{option_copied};
ghost use Rattle.std.specs.Arc.{arc_value};
ghost use Rattle.el_logic.specs.declared.types.Part.{Part};
ghost use Rattle.case_file.specs.Incoherence.{IsIncoherentFor};
ghost use Rattle.commit_book.specs.Books.{IsBook, opening_book, why_at, worker_of};

use crate::held::{Held, nothing_held};
use accuse_core::{Core, Entries, Entry};
use case_file::Case;
use closed_model::ClosedTable;
use commit_lock::Grows;
use conflict_logic::Family;
use derivation::Derivation;
use std::alloc::{AllocError, Global};
use std::marker::Model;
use std::sync::Arc;

/// A case, the core over its ranks, the journal of all that was told, and what each decision rests
/// on: the closed table of the kept ranks, one for each rank that waits with a yes, and a
/// derivation for each removed rank.
#[derive(Drop)]
pub struct Book {
    pub(crate) case: Arc<Case>,
    pub(crate) core: Core,
    pub(crate) journal: Entries,
    pub(crate) table: ClosedTable,
    // for each rank
    pub(crate) held: Vec<Held>,
    // a share of the table, for the next call to hand out
    pub(crate) next: Option<ClosedTable>,
}

impl Model for Book {
    ghost use Rattle.std.specs.Prelude.{map};
    ghost use Rattle.std.specs.Arc.{arc_value};
    ghost use Rattle.commit_book.specs.Books.{BookView};
    ghost use Rattle.commit_book.specs.Inside.Codes.{book_code};
    ghost use Rattle.commit_book.specs.Inside.Holdings.{why_of, IsKept, IsReady, spare_of};

    ghost Value = { BookView };

    ghost coded = { book_code };

    ghost view = { λ b. record {
      case = arc_value b.case;
      marks = b.core;
      entries = b.journal.entries;
      table = b.table;
      whys = map why_of b.held.items;
      spare = spare_of b.next;
    } };

    ghost invariant = { λ b.
        IsKept (arc_value b.case) b.core b.journal.entries b.held.items b.table
        × IsReady b.table b.journal.room b.next };
}

impl Family for Book {
    ghost incoherent = { λ book. IsIncoherentFor book.case Part.Both };
}

impl Grows for Book {
    type Case = Case;

    type Entry = Entry;

    ghost case = { λ book. book.case };

    ghost entries = { λ book. book.entries };

    ghost worker = { λ entry. worker_of entry.event };
}

impl Book {
    /// The book in which nothing was told yet, with the table of the documents alone. It takes what
    /// memory the book needs for its ranks.
    pub fn new(alloc: Global, case: Arc<Case>, base: ClosedTable) -> Result<Book, AllocError>
        requires case { base.case ≡ arc_value case }
        requires none { base.ranks ≡ [] }
        ensures { IfOk result (λ book. book ≡ opening_book base) }
    {
        let _ = base.case();
        let _ = case.store();
        let ranks = case.ranks();
        let core = Core::new(alloc, ranks)?;
        let held = nothing_held(alloc, ranks)?;
        Ok(Book {
            case,
            core,
            journal: Entries::new(alloc),
            table: base,
            held,
            next: None,
        })
    }

    /// Takes the memory that the next call needs: room for an entry, and a share of the table. If
    /// memory runs out, nothing changes.
    pub fn reserve_turn(&mut self, alloc: Global) -> Result<(), AllocError>
        ensures ok { OnOk result (self.new ≡ record self.old { spare = 1 }) }
        ensures err { OnErr result (self.new ≡ self.old) }
    {
        if self.next.is_some() {
            return Ok(());
        }
        let share = self.table.share(alloc)?;
        self.journal.reserve(1)?;
        self.next = Some(share);
        Ok(())
    }

    /// The case.
    pub fn case(&self) -> &Arc<Case>
        ensures { arc_value result.now ≡ self.now.case }
    {
        &self.case
    }

    /// The core.
    pub fn core(&self) -> &Core
        ensures { result.now ≡ self.now.marks }
    {
        &self.core
    }

    /// All that was told, with the replies. What a book keeps is known from its type; this call
    /// says so.
    pub fn journal(&self) -> &Entries
        ensures entries { result.now.entries ≡ self.now.entries }
        ensures book { IsBook self.now }
    {
        &self.journal
    }

    /// Why a rank is removed, if it is.
    pub fn why(&self, rank: u32) -> Option<&Derivation>
        ensures { option_copied result ≡ why_at self.now.whys rank }
    {
        match self.held.get(rank as usize) {
            Some(Held::Why(steps)) => Some(steps),
            _ => None,
        }
    }

    /// The closed table of the kept ranks.
    pub fn table(&self) -> &ClosedTable
        ensures { result.now ≡ self.now.table }
    {
        &self.table
    }
}
