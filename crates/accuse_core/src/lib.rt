//! The event core: what verdicts do to the marks of ranks, in whatever order they come.
#![tactic(auto)]

mod event;
mod journal;
mod laws;
mod machine;
mod mark;
mod marks;
#[cfg(test)]
mod tests;

pub use event::{Event, Reply};
pub use journal::{Entries, Entry};
pub use laws::{
    allowed_events_leave_sound_marks, asking_leaves_the_marks, blocks_keep_what_is_not_removed,
    decided_ranks_keep_their_marks, events_leave_the_ranks, front_is_the_least_undecided_rank,
    journals_grow_by_an_event, kept_ranks_are_the_repair, kept_ranks_have_the_mark,
    kept_ranks_only_grow, no_rank_waits_at_the_front, removed_ranks_are_accused,
    verdicts_at_the_front_move_it,
};
pub use machine::Core;
pub use mark::Mark;
