//! The word from which numbers are drawn, its passes, and what the proofs know of each pass.
ghost use Rattle.std.specs.Prelude.{◌≡◌, ◌≤◌, []};

use atomic_table::{Join, Play, Split, Table, TableRule};
use std::alloc::Global;
use std::collections::LinkedList;

/// What the proofs know of a pass. No value of it is ever made.
pub(crate) struct PassView {
    pub(crate) drawn: LinkedList<u64>,
    pub(crate) room: u64,
    pub(crate) stands_for: u64,
}

/// The rule that every step of the table keeps.
pub(crate) struct Draws;

impl TableRule<u8, PassView, u32> for Draws {
    ghost use Rattle.commit_lock.specs.Inside.DrawRule.{DrawRule, first_pass};

    ghost holds = { λ ranks. DrawRule ranks };

    ghost first = { λ _. first_pass };
}

/// Adds 1 to the word. The old word is the number drawn.
pub(crate) struct DrawNext;

impl Play<u8, PassView> for DrawNext {
    ghost use Rattle.commit_lock.specs.Inside.DrawRule.{DrawsNext};

    ghost then = { DrawsNext };
}

/// Reads the word after a join, and tells what the pass has drawn.
pub(crate) struct ReadWord;

impl Play<u8, PassView> for ReadWord {
    ghost use Rattle.commit_lock.specs.Inside.DrawRule.{ReadsWord};

    ghost then = { ReadsWord };
}

/// Splits a new pass from one that has room for it.
pub(crate) struct SplitPass;

impl Split<PassView> for SplitPass {
    ghost use Rattle.commit_lock.specs.Inside.DrawRule.{one_pass_less, split_pass};

    ghost left = { one_pass_less };

    ghost right = { split_pass };
}

/// Joins a pass into another one, which stays.
pub(crate) struct JoinPasses;

impl Join<PassView> for JoinPasses {
    ghost use Rattle.commit_lock.specs.Inside.DrawRule.{joined_pass, spent_pass};

    ghost both = { joined_pass };

    ghost spent = { spent_pass };
}

/// A word from which numbers are drawn in ascending order, each by one pass.
#[derive(Drop)]
pub struct DrawWord {
    pub(crate) table: Table<u8, PassView, u32, Draws, Global>,
    pub(crate) ranks: u32,
    ghost size: { table.shared.table_id.words ≡ 1 },
    ghost key_is: { table.shared.key ≡ ranks },
}

/// A drawer's part in a draw word. It moves from thread to thread, and is never copied.
#[derive(Drop)]
pub struct DrawPass {
    pub(crate) token: atomic_table::Seat<u8, PassView>,
    pub(crate) room: u32,
    pub(crate) stands_for: u32,
    ghost room_is: { room ≡ token.me.0.room },
    ghost stands_for_is: { stands_for ≡ token.me.0.stands_for },
    ghost live: { 1 ≤ token.me.0.stands_for },
    ghost no_slot: { token.me.1 ≡ [] },
}
