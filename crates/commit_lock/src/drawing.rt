//! What a pass does at its draw word.
ghost use Rattle.std.specs.Prelude.{◌≡◌, ◌≤◌, ◌<◌, ◌+◌, ◌-◌, ◌^◌, ◌++◌, ℕ, [], ◌∷◌};
ghost use Rattle.std.specs.Prelude.{All, IfOk, IfErr, IfSome, IfNone, length};
ghost use Rattle.commit_lock.specs.Passes.{ranks_of, IsPassOf, drawn, pass_room, passes_for};
ghost use Rattle.commit_lock.specs.Passes.{IsWholePass, KeepsPass, NoneTwice, IsEachBelow};

use crate::draw_word::{DrawNext, DrawPass, DrawWord, JoinPasses, ReadWord, SplitPass};
use atomic_table::Table;
use std::alloc::{AllocError, Global};

impl DrawPass {
    /// How many passes may still be split from this one.
    pub fn room(&self) -> u32
        ensures { result ≡ pass_room self.now }
    {
        self.room
    }

    /// How many passes this one stands for: itself, and all that were joined into it.
    pub fn stands_for(&self) -> u32
        ensures { result ≡ passes_for self.now }
    {
        self.stands_for
    }
}

impl DrawWord {
    /// Makes a word from which the numbers below `ranks` are drawn, from 0 on, with its first pass.
    pub fn new(alloc: Global, ranks: u32) -> Result<(DrawWord, DrawPass), AllocError>
        ensures ranks { IfOk result (λ made. ranks_of made.0 ≡ ranks) }
        ensures word { IfOk result (λ made. IsPassOf made.0 made.1) }
        ensures drawn { IfOk result (λ made. drawn made.1 ≡ []) }
        ensures room { IfOk result (λ made. pass_room made.1 ≡ 2 ^ 32 - 2) }
        ensures stands_for { IfOk result (λ made. passes_for made.1 ≡ 1) }
    {
        let (table, token) = Table::of_words(alloc, &[0], &ranks)?;
        Ok((
            DrawWord { table, ranks },
            DrawPass {
                token,
                room: u32::MAX - 1,
                stands_for: 1,
            },
        ))
    }

    /// Draws the next number. After the last one it gives `None`, and counts that as a draw too.
    pub fn draw(&self, pass: &mut DrawPass) -> Option<u32>
        requires word { IsPassOf self.now pass.old }
        requires not_over { All (λ x. x < ranks_of self.now) (drawn pass.old) }
        ensures word { IsPassOf self.now pass.new }
        ensures below { IfSome result (λ x. x < ranks_of self.now) }
        ensures appended { IfSome result (λ x. drawn pass.new ≡ drawn pass.old ++ x ∷ []) }
        ensures over { IfNone result ((x : ℕ) × (ranks_of self.now ≤ x)
            × (drawn pass.new ≡ drawn pass.old ++ x ∷ [])) }
        ensures same { KeepsPass pass.old pass.new }
        ensures none_twice { NoneTwice (drawn pass.new) }
        ensures whole { IsWholePass pass.new
            → IsEachBelow (length (drawn pass.new)) (drawn pass.new) }
    {
        let ranks = u64::from(self.ranks);
        let found = self
            .table
            .shared
            .fetch_add::<DrawNext>(&mut pass.token, 0, 1);
        if found < ranks {
            Some(found as u32)
        } else {
            None
        }
    }

    /// Splits a new pass from this one. Today it never refuses.
    pub fn split(&self, pass: &mut DrawPass) -> Result<DrawPass, AllocError>
        requires word { IsPassOf self.now pass.old }
        requires room { 1 ≤ pass_room pass.old }
        ensures word { IfOk result (λ made. IsPassOf self.now pass.new × IsPassOf self.now made) }
        ensures place { IfOk result (λ _. (pass_room pass.new + 1 ≡ pass_room pass.old)
            × (passes_for pass.new ≡ passes_for pass.old)) }
        ensures room { IfOk result (λ made. (pass_room made ≡ 0) × (passes_for made ≡ 1)) }
        ensures drawn { IfOk result (λ made. (drawn pass.new ≡ drawn pass.old)
            × (drawn made ≡ [])) }
        ensures refused { IfErr result (λ _. pass.new ≡ pass.old) }
    {
        let token = self.table.shared.split_seat::<SplitPass>(&mut pass.token);
        pass.room -= 1;
        Ok(DrawPass {
            token,
            room: 0,
            stands_for: 1,
        })
    }

    /// Takes another pass back into this one.
    pub fn join(&self, pass: &mut DrawPass, other: DrawPass)
        requires word { IsPassOf self.now pass.old × IsPassOf self.now other }
        ensures word { IsPassOf self.now pass.new }
        ensures drawn { drawn pass.new ≡ drawn pass.old ++ drawn other }
        ensures room { pass_room pass.new ≡ pass_room pass.old + pass_room other }
        ensures stands_for { passes_for pass.new ≡ passes_for pass.old + passes_for other }
        ensures none_twice { NoneTwice (drawn pass.new) }
        ensures whole { IsWholePass pass.new
            → IsEachBelow (length (drawn pass.new)) (drawn pass.new) }
    {
        let DrawPass {
            token,
            room,
            stands_for,
        } = other;
        self.table
            .shared
            .join_seat::<JoinPasses>(&mut pass.token, token);
        self.table.shared.load::<ReadWord>(&mut pass.token, 0);
        pass.room += room;
        pass.stands_for += stands_for;
    }
}
