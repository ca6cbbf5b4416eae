//! The journal.

ghost use Rattle.std.specs.Prelude.{◌≡◌, ◌↔◌, IsTrue, length, if◌then◌else◌, IfOk, MatchOption, MatchResult};
ghost use Rattle.accuse_core.specs.declared.mark.Mark.{Mark};
ghost use Rattle.accuse_core.specs.Marks.{opening};
ghost use Rattle.accuse_core.specs.Events.{outcome};
ghost use Rattle.accuse_core.specs.Journal.{AreReplied, replayed};
ghost use Rattle.valid_evidence.specs.Items.{IsRepliedJournal};
ghost use Rattle.check_items.specs.Firsts.{IsReplied, IsFirstUnreplied};
ghost use Rattle.check_items.specs.Inside.Tables.{marks_by};
ghost use Rattle.check_items.specs.Inside.Stages.{IsJournalFault};

use crate::BadItem;
use accuse_core::{Core, Entry, Mark, Reply, events_leave_the_ranks};
use case_file::Case;
use std::alloc::{AllocError, Global};

// Whether an entry fits and has the core's reply. The core then has changed by its event.
fn is_replied(core: &mut Core, entry: &Entry) -> bool
    ensures answer { IsTrue result ↔ IsReplied core.old entry.now }
    ensures marks { IsTrue result → core.new ≡ (outcome core.old entry.now.event).marks }
{
    if !core.fits(&entry.event) {
        return false;
    }
    let reply = core.step(entry.event);
    reply == entry.reply
}

// The core after the entries, or the number of the first that doesn't fit or has another reply.
fn replayed(alloc: Global, ranks: u32, entries: &[Entry]) -> Result<Result<Core, u64>, AllocError>
    ensures { IfOk result (λ answer. MatchResult answer
        (λ core. AreReplied (opening ranks) entries.now × (core ≡ replayed ranks entries.now))
        (IsFirstUnreplied ranks entries.now)) }
{
    let mut core = Core::new(alloc, ranks)?;
    let mut number = 0u64;
    for entry in entries {
        number += 1;
        if !is_replied(&mut core, entry) {
            return Ok(Err(number));
        }
    }
    Ok(Ok(core))
}

// The mark is that of a row that is left, or of one that is removed.
fn is_mark(mark: Mark, left: bool) -> bool
    ensures { IsTrue result ↔ (mark ≡ (if left then Mark.Kept else Mark.Removed)) }
{
    match (mark, left) {
        (Mark::Kept, true) => true,
        (Mark::Removed, false) => true,
        _ => false,
    }
}

// Whether all ranks are decided, and just the rows that are not left are removed.
fn is_decided(case: &Case, core: &Core, keep: &[bool]) -> bool
    requires ranks { length core.now ≡ length case.now.order }
    requires rows { length keep.now ≡ length case.now.order }
    ensures { IsTrue result ↔ (core.now ≡ marks_by keep.now case.now.order) }
{
    let _case = case.store();
    for rank in 0..case.ranks() {
        if !is_mark(core.mark(rank), keep[case.row_of(rank) as usize]) {
            return false;
        }
    }
    true
}

/// What is wrong with the journal, where these rows are left.
pub fn bad_journal(
    alloc: Global,
    case: &Case,
    keep: &[bool],
    entries: &[Entry],
) -> Result<Option<BadItem>, AllocError>
    requires { length keep.now ≡ length case.now.order }
    ensures { IfOk result (λ found. MatchOption found
        (IsRepliedJournal case.now entries.now
        × (replayed (length case.now.order) entries.now ≡ marks_by keep.now case.now.order))
        (IsJournalFault case.now keep.now entries.now)) }
{
    events_leave_the_ranks();
    let replay = replayed(alloc, case.ranks(), entries)?;
    match replay {
        Err(number) => Ok(Some(BadItem::Journal(number))),
        Ok(core) => {
            if is_decided(case, &core, keep) {
                Ok(None)
            } else {
                Ok(Some(BadItem::End))
            }
        }
    }
}
