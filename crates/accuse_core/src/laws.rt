//! Laws on events: functions that do nothing and whose contracts are the laws.

ghost use Rattle.std.specs.Prelude.{◌≡◌, ◌↔◌, ◌<◌, ◌≤◌, ◌++◌, ℕ, Bool, List, [], ◌∷◌, true, false, ◌+◌, length, Contains};
ghost use Rattle.conflict_logic.specs.Sets.{IsClosedUnderAdding};
ghost use Rattle.conflict_logic.specs.Accused.{IsAccused};
ghost use Rattle.conflict_logic.specs.Repair.{IsRepair};
ghost use Rattle.conflict_logic.specs.Greedy.{family_of};
ghost use Rattle.accuse_core.specs.declared.event.Event.{Event};
ghost use Rattle.accuse_core.specs.declared.journal.Entry.{Entry};
ghost use Rattle.accuse_core.specs.declared.mark.Mark.{Mark};
ghost use Rattle.accuse_core.specs.Marks.{is_decided, is_yes_over, kept_unless_removed, with_kept, with_removed, with_note, with_block, block_of, settled, opening, mark_at, kept_of, number_kept, front_of};
ghost use Rattle.accuse_core.specs.Events.{outcome, on_take, on_take_front, IsAllowed};
ghost use Rattle.accuse_core.specs.Journal.{after, AreAllowed, replayed, IsJournal};
ghost use Rattle.accuse_core.specs.Sound.{AreKeptBeforeFront, AreSound};

use conflict_logic::Family;
use conflict_logic::certificate::{
    certified_ranks_are_a_repair, certified_ranks_are_an_exact_repair,
    refuted_by_spared_is_accused, refuted_by_spared_is_not_spared,
};

/// Whatever allowed events come, and in whatever order: a kept rank is spared, a removed one is
/// not, all ranks before the front are decided, and the kept ranks ascend. It holds of any family
/// where more ranks never make an incoherent set coherent and no ranks at all are coherent.
pub fn allowed_events_leave_sound_marks<F: Family>(family: &F)
    ensures { let incoherent = F.incoherent family.now in (ranks : ℕ) (events : List Event)
        → IsClosedUnderAdding incoherent → ¬ (incoherent [])
        → AreAllowed incoherent (opening ranks) events
        → AreSound incoherent (after (opening ranks) events) }
{
    certified_ranks_are_a_repair(family);
    refuted_by_spared_is_not_spared(family);
}

/// The kept ranks are the repair of the ranks before the front; so once all ranks are decided they
/// are the repair of all.
pub fn kept_ranks_are_the_repair<F: Family>(family: &F)
    ensures before_front { let incoherent = F.incoherent family.now in
        (ranks : ℕ) (events : List Event) → IsClosedUnderAdding incoherent → ¬ (incoherent [])
        → AreAllowed incoherent (opening ranks) events
        → let marks = after (opening ranks) events in
        IsRepair incoherent (front_of marks) (kept_of marks) }
    ensures all_decided { let incoherent = F.incoherent family.now in
        (ranks : ℕ) (events : List Event) → IsClosedUnderAdding incoherent → ¬ (incoherent [])
        → AreAllowed incoherent (opening ranks) events
        → let marks = after (opening ranks) events in
        front_of marks ≡ ranks → IsRepair incoherent ranks (kept_of marks) }
{
    certified_ranks_are_a_repair(family);
}

/// If a test tells which sets are incoherent, each removed rank is known to be accused.
pub fn removed_ranks_are_accused()
    ensures { (test : List ℕ → Bool) (ranks : ℕ) (events : List Event)
        → IsClosedUnderAdding (family_of test) → ¬ (family_of test [])
        → AreAllowed (family_of test) (opening ranks) events
        → (rank : ℕ) → mark_at (after (opening ranks) events) rank ≡ Mark.Removed
        → IsAccused (family_of test) rank }
{
    certified_ranks_are_an_exact_repair();
    refuted_by_spared_is_accused();
}

/// After allowed events the rank at the front never waits with a yes over all kept ranks: an event
/// keeps one noted rank at most.
pub fn no_rank_waits_at_the_front<F: Family>(family: &F)
    ensures { let incoherent = F.incoherent family.now in (ranks : ℕ) (events : List Event)
        → ¬ (incoherent []) → AreAllowed incoherent (opening ranks) events
        → let marks = after (opening ranks) events in
        is_yes_over (number_kept marks) (mark_at marks (front_of marks)) ≡ false }
{
    let _ = family;
}

/// One more allowed event with the core's reply makes a longer journal, which leads to the marks
/// after that event.
pub fn journals_grow_by_an_event<F: Family>(family: &F)
    ensures journal { let incoherent = F.incoherent family.now in
        (ranks : ℕ) (entries : List Entry) (entry : Entry) → IsJournal incoherent ranks entries
        → IsAllowed incoherent (replayed ranks entries) entry.event
        → entry.reply ≡ (outcome (replayed ranks entries) entry.event).reply
        → IsJournal incoherent ranks (entries ++ entry ∷ []) }
    ensures marks { (ranks : ℕ) (entries : List Entry) (entry : Entry)
        → replayed ranks (entries ++ entry ∷ [])
        ≡ (outcome (replayed ranks entries) entry.event).marks }
{
    let _ = family;
}

/// What each change puts at the end of the kept ranks, where none is kept from the front on.
pub fn kept_ranks_only_grow()
    ensures front { (marks : List Mark) → AreKeptBeforeFront marks
        → front_of marks < length marks
        → kept_of (with_kept marks (front_of marks)) ≡ kept_of marks ++ front_of marks ∷ [] }
    ensures block { (marks : List Mark) (count : ℕ) → AreKeptBeforeFront marks
        → kept_of (with_block marks (front_of marks) count)
        ≡ kept_of marks ++ block_of marks (front_of marks) count }
    ensures removed { (marks : List Mark) (rank : ℕ) → is_decided (mark_at marks rank) ≡ false
        → kept_of (with_removed marks rank) ≡ kept_of marks }
    ensures noted { (marks : List Mark) (rank seen : ℕ) → is_decided (mark_at marks rank) ≡ false
        → kept_of (with_note marks rank seen) ≡ kept_of marks }
    ensures waiting { (marks : List Mark) → AreKeptBeforeFront marks
        → is_yes_over (number_kept marks) (mark_at marks (front_of marks)) ≡ true
        → kept_of (settled marks) ≡ kept_of marks ++ front_of marks ∷ [] }
{}

/// Whatever event comes, a kept rank stays kept, and a removed one stays removed.
pub fn decided_ranks_keep_their_marks()
    ensures { (marks : List Mark) (event : Event) (rank : ℕ)
        → is_decided (mark_at marks rank) ≡ true
        → mark_at (outcome marks event).marks rank ≡ mark_at marks rank }
{}

/// Asking for a rank, or for the front, leaves the marks.
pub fn asking_leaves_the_marks()
    ensures rank { (marks : List Mark) (rank : ℕ) → (on_take marks rank).marks ≡ marks }
    ensures front { (marks : List Mark) → (on_take_front marks).marks ≡ marks }
{}

/// No event adds or takes away a rank.
pub fn events_leave_the_ranks()
    ensures step { (marks : List Mark) (event : Event)
        → length (outcome marks event).marks ≡ length marks }
    ensures journal { (ranks : ℕ) (entries : List Entry)
        → length (replayed ranks entries) ≡ ranks }
{}

/// The kept ranks are those whose mark is `Kept`.
pub fn kept_ranks_have_the_mark()
    ensures { (marks : List Mark) (rank : ℕ)
        → Contains (kept_of marks) rank ↔ (mark_at marks rank ≡ Mark.Kept) }
{}

/// The front is the least rank that is not decided, or the number of ranks.
pub fn front_is_the_least_undecided_rank()
    ensures within { (marks : List Mark) → front_of marks ≤ length marks }
    ensures before { (marks : List Mark) (rank : ℕ) → rank < front_of marks
        → is_decided (mark_at marks rank) ≡ true }
    ensures there { (marks : List Mark) → front_of marks < length marks
        → is_decided (mark_at marks (front_of marks)) ≡ false }
{}

/// A verdict on the rank at the front decides it: a no, or a yes over all kept ranks.
pub fn verdicts_at_the_front_move_it()
    ensures no { (marks : List Mark) (worker seen : ℕ) → front_of marks < length marks
        → let told = Event.No worker (front_of marks) seen in
        front_of marks < front_of (outcome marks told).marks }
    ensures yes { (marks : List Mark) (worker : ℕ) → front_of marks < length marks
        → let told = Event.Yes worker (front_of marks) (number_kept marks) in
        front_of marks < front_of (outcome marks told).marks }
{}

/// A block keeps its ranks unless they are removed, and leaves all others.
pub fn blocks_keep_what_is_not_removed()
    ensures within { (marks : List Mark) (rank count other : ℕ)
        → rank ≤ other → other < rank + count → other < length marks
        → mark_at (with_block marks rank count) other ≡ kept_unless_removed (mark_at marks other) }
    ensures before { (marks : List Mark) (rank count other : ℕ) → other < rank
        → mark_at (with_block marks rank count) other ≡ mark_at marks other }
    ensures past { (marks : List Mark) (rank count other : ℕ) → rank + count ≤ other
        → mark_at (with_block marks rank count) other ≡ mark_at marks other }
{}
