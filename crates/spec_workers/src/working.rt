//! The work of one worker.

ghost use Rattle.std.specs.Prelude.{◌≡◌, ◌≤◌, ◌<◌, ◌*◌, ◌++◌, ℕ, List, All, IfOk, IfErr};
ghost use Rattle.accuse_core.specs.declared.journal.Entry.{Entry};
ghost use Rattle.commit_lock.specs.Passes.{ranks_of as draw_ranks, IsPassOf, KeepsPass, drawn};
ghost use Rattle.commit_lock.specs.Seats.{IsSeatOf, IsIdle, KeepsPlace, number, seen};
ghost use Rattle.spec_workers.specs.declared.types.WorkEnd.{WorkEnd};
ghost use Rattle.spec_workers.specs.Books.{ranks_at, Tells};
ghost use Rattle.spec_workers.specs.Turns.{IsWork};
ghost use Rattle.spec_workers.specs.Inside.Stages.{IsDrawnOut, IsFrontWork};

use crate::turns::{front_turn, take_turn};
use crate::types::{WorkEnd, Worked};
use commit_book::Book;
use commit_lock::{CommitLock, DrawPass, DrawWord, Seat};
use io_edge::Gate;
use std::alloc::Global;
use std::sync::Wait;

// Draws ranks and takes them, until no rank is left to draw. Gives the number of tests made.
fn take_drawn<R: Wait, G: Gate>(
    rt: &R,
    alloc: Global,
    lock: &CommitLock<Book>,
    seat: &mut Seat<Book>,
    draw: &DrawWord,
    pass: &mut DrawPass,
    gate: &G,
    budget: u32,
) -> Result<u32, WorkEnd>
    requires lock { IsSeatOf lock.now seat.old }
    requires idle { IsIdle seat.old }
    requires word { IsPassOf draw.now pass.old }
    requires not_over { All (λ x. x < draw_ranks draw.now) (drawn pass.old) }
    requires ranks { draw_ranks draw.now ≡ ranks_at lock.now }
    ensures lock { IsSeatOf lock.now seat.new }
    ensures idle { IsIdle seat.new }
    ensures same { KeepsPlace seat.old seat.new }
    ensures word { IsPassOf draw.now pass.new }
    ensures pass { KeepsPass pass.old pass.new }
    ensures ok { IfOk result (λ made. (draws : List ℕ) × (told : List Entry)
        × (drawn pass.new ≡ drawn pass.old ++ draws)
        × Tells (number seat.old) (seen seat.old) (seen seat.new) told
        × IsDrawnOut (ranks_at lock.now) (number seat.old) budget draws told made) }
    ensures few { IfOk result (λ made. made ≤ ranks_at lock.now) }
    ensures few_taken { IfErr result (λ end. end ≡ WorkEnd.Budget → budget ≤ ranks_at lock.now) }
    ensures err { IfErr result (λ end. (draws : List ℕ) × (told : List Entry)
        × (drawn pass.new ≡ drawn pass.old ++ draws)
        × Tells (number seat.old) (seen seat.old) (seen seat.new) told
        × IsWork (ranks_at lock.now) (number seat.old) budget draws told end) }
{
    let mut made = 0;
    for _ in rt.forever() {
        if made == budget {
            return Err(WorkEnd::Budget);
        }
        let Some(rank) = draw.draw(pass) else {
            return Ok(made);
        };
        match take_turn(rt, alloc, lock, seat, gate, rank) {
            Ok(true) => made += 1,
            Ok(false) => {}
            Err(_) => return Err(WorkEnd::OutOfMemory),
        }
    }
    unreachable!()
}

// Takes the rank at the front, until every rank is decided.
fn take_fronts<R: Wait, G: Gate>(
    rt: &R,
    alloc: Global,
    lock: &CommitLock<Book>,
    seat: &mut Seat<Book>,
    gate: &G,
    most: u32,
) -> WorkEnd
    requires lock { IsSeatOf lock.now seat.old }
    requires idle { IsIdle seat.old }
    ensures lock { IsSeatOf lock.now seat.new }
    ensures idle { IsIdle seat.new }
    ensures same { KeepsPlace seat.old seat.new }
    ensures told { (told : List Entry)
        × Tells (number seat.old) (seen seat.old) (seen seat.new) told
        × IsFrontWork (number seat.old) most told result }
    ensures few { result ≡ WorkEnd.Budget → most ≤ ranks_at lock.now }
{
    for _ in 0..most {
        match front_turn(rt, alloc, lock, seat, gate) {
            Ok(true) => {}
            Ok(false) => return WorkEnd::Done,
            Err(_) => return WorkEnd::OutOfMemory,
        }
    }
    WorkEnd::Budget
}

/// Draws ranks and takes each, until none is left to draw; then takes the rank at the front until
/// every rank is decided. A turn is one test and its verdict; the test runs outside the lock. At
/// most `budget` turns are made. The call may wait for the lock.
pub fn work<R: Wait, G: Gate>(
    rt: &R,
    alloc: Global,
    lock: &CommitLock<Book>,
    mut seat: Seat<Book>,
    draw: &DrawWord,
    mut pass: DrawPass,
    gate: &G,
    budget: u32,
) -> Worked
    requires lock { IsSeatOf lock.now seat }
    requires idle { IsIdle seat }
    requires word { IsPassOf draw.now pass }
    requires not_over { All (λ x. x < draw_ranks draw.now) (drawn pass) }
    requires ranks { draw_ranks draw.now ≡ ranks_at lock.now }
    ensures lock { IsSeatOf lock.now result.seat }
    ensures idle { IsIdle result.seat }
    ensures seat { KeepsPlace seat result.seat }
    ensures word { IsPassOf draw.now result.pass }
    ensures pass { KeepsPass pass result.pass }
    ensures work { (draws : List ℕ) × (told : List Entry)
        × (drawn result.pass ≡ drawn pass ++ draws)
        × Tells (number seat) (seen seat) (seen result.seat) told
        × IsWork (ranks_at lock.now) (number seat) budget draws told result.end }
    ensures enough { result.end ≡ WorkEnd.Budget → budget ≤ 2 * ranks_at lock.now }
{
    match take_drawn(rt, alloc, lock, &mut seat, draw, &mut pass, gate, budget) {
        Ok(made) => {
            let end = take_fronts(rt, alloc, lock, &mut seat, gate, budget - made);
            Worked { seat, pass, end }
        }
        Err(end) => Worked { seat, pass, end },
    }
}
