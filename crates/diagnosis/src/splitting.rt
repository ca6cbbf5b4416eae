//! A part for each worker, and what the workers do with them side by side.

ghost use Rattle.std.specs.Prelude.{◌≡◌, ◌≤◌, ◌+◌, All, IfOk, vec_len};
ghost use Rattle.std.specs.Thread.{IsSync};
ghost use Rattle.commit_lock.specs.Passes.{ranks_of as draw_ranks, pass_room};
ghost use Rattle.commit_lock.specs.Seats.{number, seat_room};
ghost use Rattle.spec_workers.specs.Books.{ranks_at};
ghost use Rattle.diagnosis.specs.Inside.Parts.{IsPartOf, IsFresh, HasSplit, HasWorked};

use crate::parts::Part;
use commit_book::Book;
use commit_lock::{CommitLock, DrawWord};
use io_edge::Gate;
use spec_workers::{Worked, work};
use std::alloc::{AllocError, Global};
use std::sync::Wait;
use std::thread;
use std::thread::Threads;

// Splits one part from the first.
fn split_part(
    lock: &CommitLock<Book>,
    word: &DrawWord,
    first: &mut Part,
) -> Result<Part, AllocError>
    requires part { IsPartOf lock.now word.now first.old }
    requires zero { number first.old.seat ≡ 0 }
    requires room { (1 ≤ seat_room first.old.seat) × (1 ≤ pass_room first.old.pass) }
    ensures left { IfOk result (λ _. HasSplit lock.now word.now 1 first.old first.new) }
    ensures fresh { IfOk result (IsFresh lock.now word.now) }
{
    let seat = lock.split(&mut first.seat)?;
    let pass = word.split(&mut first.pass)?;
    Ok(Part { seat, pass })
}

/// Splits a part for each worker from the first.
pub fn split_parts(
    alloc: Global,
    lock: &CommitLock<Book>,
    word: &DrawWord,
    first: &mut Part,
    workers: u32,
) -> Result<Vec<Part>, AllocError>
    requires part { IsPartOf lock.now word.now first.old }
    requires zero { number first.old.seat ≡ 0 }
    requires room { (workers ≤ seat_room first.old.seat) × (workers ≤ pass_room first.old.pass) }
    ensures left { IfOk result (λ _. HasSplit lock.now word.now workers first.old first.new) }
    ensures count { IfOk result (λ parts. vec_len parts ≡ workers) }
    ensures fresh { IfOk result (λ parts. All (IsFresh lock.now word.now) parts.items) }
{
    let mut parts = Vec::new(alloc);
    for _ in 0..workers {
        let part = split_part(lock, word, first)?;
        parts.push(part)?;
    }
    Ok(parts)
}

// The work of one worker, from its first draw on.
fn work_part<R: Wait, G: Gate>(
    rt: &R,
    alloc: Global,
    lock: &CommitLock<Book>,
    word: &DrawWord,
    gate: &G,
    budget: u32,
    part: Part,
) -> Worked
    requires fresh { IsFresh lock.now word.now part }
    requires ranks { draw_ranks word.now ≡ ranks_at lock.now }
    ensures { HasWorked lock.now word.now budget result }
{
    let Part { seat, pass } = part;
    work(rt, alloc, lock, seat, word, pass, gate, budget)
}

/// The work of all workers, each in a thread of its own if there are threads for them.
pub fn work_side_by_side<R: Threads + Wait + Sync, G: Gate>(
    rt: &R,
    alloc: Global,
    lock: &CommitLock<Book>,
    word: &DrawWord,
    gate: &G,
    budget: u32,
    parts: Vec<Part>,
) -> Result<Vec<Worked>, AllocError>
    requires fresh { All (IsFresh lock.now word.now) parts.items }
    requires ranks { draw_ranks word.now ≡ ranks_at lock.now }
    ensures count { IfOk result (λ all. vec_len all ≡ vec_len parts) }
    ensures worked { IfOk result (λ all. All (HasWorked lock.now word.now budget) all.items) }
{
    thread::map_vec(
        rt,
        parts,
        &|part: Part| -> Worked
            requires { IsSync R.row × IsSync G.row × IsFresh lock.now word.now part
                × (draw_ranks word.now ≡ ranks_at lock.now) }
            ensures { HasWorked lock.entry.now word.entry.now budget result }
        { work_part(rt, alloc, lock, word, gate, budget, part) },
    )
}
