//! Seats in threads of their own, and passes that draw in turn.
ghost use Rattle.std.specs.Prelude.{◌≡◌, ◌≤◌, ◌+◌, ◌-◌, ◌^◌, All, IfOk, vec_len};
ghost use Rattle.std.specs.Thread.{IsSync};
ghost use Rattle.commit_lock.specs.Seats.{IsSeatOf, IsIdle, IsWholeSeat, KeepsPlace};
ghost use Rattle.commit_lock.specs.Seats.{seat_room, seats_for};

use crate::{CommitLock, DrawWord, Grows, Seat};
use std::alloc::{AllocError, Global};
use std::sync::Wait;
use std::test::Fail;
use std::thread;
use std::thread::Threads;

const TURNS: u32 = 1000;

/// Who wrote what, in a book that has a name.
#[derive(Drop)]
struct Book {
    name: u32,
    log: Vec<(u32, u32)>,
}

impl Grows for Book {
    type Case = u32;

    type Entry = (u32, u32);

    ghost case = { λ book. book.name };

    ghost entries = { λ book. book.log.items };

    ghost worker = { λ entry. entry.0 };
}

// Enters once, and writes one entry if there is memory for it.
fn write<R: Wait>(rt: &R, lock: &CommitLock<Book>, seat: &mut Seat<Book>, text: u32)
    requires { IsSeatOf lock.now seat.old × IsIdle seat.old }
    ensures { IsSeatOf lock.now seat.new × IsIdle seat.new × KeepsPlace seat.old seat.new }
{
    let mut book = lock.enter(rt, seat);
    let _ = book.log.push((seat.number(), text));
    lock.leave(seat, book);
}

// Writes the numbers below this one, each in a turn of its own.
fn write_all<R: Wait>(
    rt: &R,
    lock: &CommitLock<Book>,
    mut seat: Seat<Book>,
    turns: u32,
) -> Seat<Book>
    requires { IsSeatOf lock.now seat × IsIdle seat }
    ensures { IsSeatOf lock.now result × IsIdle result × KeepsPlace seat result }
{
    for turn in 0..turns {
        write(rt, lock, &mut seat, turn);
    }
    seat
}

// Splits off this number of seats.
fn split_off(
    alloc: Global,
    lock: &CommitLock<Book>,
    first: &mut Seat<Book>,
    count: u32,
) -> Result<Vec<Seat<Book>>, AllocError>
    requires lock { IsSeatOf lock.now first.old × IsIdle first.old }
    requires room { count ≤ seat_room first.old }
    ensures lock { IfOk result (λ _. IsSeatOf lock.now first.new × IsIdle first.new) }
    ensures room { IfOk result (λ _. seat_room first.new + count ≡ seat_room first.old) }
    ensures stands_for { IfOk result (λ _. seats_for first.new ≡ seats_for first.old) }
    ensures count { IfOk result (λ seats. vec_len seats ≡ count) }
    ensures split { IfOk result (λ seats. All (λ seat. IsSeatOf lock.now seat × IsIdle seat
        × (seat_room seat ≡ 0) × (seats_for seat ≡ 1)) seats.items) }
{
    let mut seats = Vec::new(alloc);
    for _ in 0..count {
        let seat = lock.split(first)?;
        seats.push(seat)?;
    }
    Ok(seats)
}

// Writes with all seats at once, each in a thread of its own.
fn write_at_once<R: Threads + Wait + Sync>(
    rt: &R,
    lock: &CommitLock<Book>,
    seats: Vec<Seat<Book>>,
) -> Result<Vec<Seat<Book>>, AllocError>
    requires { All (λ seat. IsSeatOf lock.now seat × IsIdle seat
        × (seat_room seat ≡ 0) × (seats_for seat ≡ 1)) seats.items }
    ensures count { IfOk result (λ after. vec_len after ≡ vec_len seats) }
    ensures split { IfOk result (λ after. All (λ seat. IsSeatOf lock.now seat × IsIdle seat
        × (seat_room seat ≡ 0) × (seats_for seat ≡ 1)) after.items) }
{
    thread::map_vec(
        rt,
        seats,
        &|seat: Seat<Book>| -> Seat<Book>
            requires { IsSync R.row × IsSeatOf lock.now seat × IsIdle seat
                × (seat_room seat ≡ 0) × (seats_for seat ≡ 1) }
            ensures { IsSeatOf lock.entry.now result × IsIdle result
                × (seat_room result ≡ 0) × (seats_for result ≡ 1) }
        { write_all(rt, lock, seat, TURNS) },
    )
}

// Joins all seats into the first, which is whole then.
fn gather(lock: &CommitLock<Book>, first: &mut Seat<Book>, mut seats: Vec<Seat<Book>>)
    requires lock { IsSeatOf lock.now first.old × IsIdle first.old }
    requires split { All (λ seat. IsSeatOf lock.now seat × IsIdle seat
        × (seat_room seat ≡ 0) × (seats_for seat ≡ 1)) seats.items }
    requires whole { seat_room first.old + seats_for first.old + vec_len seats ≡ 2 ^ 32 - 1 }
    ensures lock { IsSeatOf lock.now first.new × IsIdle first.new }
    ensures whole { IsWholeSeat first.new }
{
    while let Some(seat) = seats.pop() {
        lock.join(first, seat);
    }
}

#[test]
fn eight_threads_lose_no_entry(rt: HostRuntime) -> Result<(), Fail> {
    let book = Book {
        name: 5,
        log: Vec::new(rt.alloc()),
    };
    let Ok((lock, mut first)) = CommitLock::new(rt.alloc(), book) else {
        panic!(rt; "no memory for the lock")
    };
    let seats = split_off(rt.alloc(), &lock, &mut first, 8)?;
    let seats = write_at_once(&rt, &lock, seats)?;
    gather(&lock, &mut first, seats);
    let Ok(book) = lock.close(first) else {
        panic!(rt; "the lock was not closed")
    };
    assert_eq!(rt; (book.name, book.log.len()), (5, 8000));
    for number in 1..9 {
        let texts = book
            .log
            .iter()
            .filter(|entry| entry.0 == number)
            .map(|entry| entry.1);
        assert!(rt; texts.eq(0..TURNS), "the entries of seat {number}");
    }
    Ok(())
}

#[test]
fn two_seats_and_what_they_stand_for(rt: HostRuntime) -> Result<(), Fail> {
    let book = Book {
        name: 5,
        log: Vec::new(rt.alloc()),
    };
    let Ok((lock, mut first)) = CommitLock::new(rt.alloc(), book) else {
        panic!(rt; "no memory for the lock")
    };
    assert_eq!(rt;
        (first.number(), first.room(), first.stands_for()),
        (0, u32::MAX - 1, 1),
        "new"
    );
    let mut second = lock.split(&mut first)?;
    assert_eq!(rt;
        (second.number(), second.room(), second.stands_for()),
        (1, 0, 1),
        "split off"
    );
    write(&rt, &lock, &mut first, 7);
    write(&rt, &lock, &mut second, 8);
    assert_eq!(rt;
        first.room() + first.stands_for(),
        u32::MAX - 1,
        "before the join"
    );
    lock.join(&mut first, second);
    assert_eq!(rt;
        first.room() + first.stands_for(),
        u32::MAX,
        "after the join"
    );
    let Ok(book) = lock.close(first) else {
        panic!(rt; "the lock was not closed")
    };
    assert_eq!(rt; book.log.as_slice(), [(0, 7), (1, 8)].as_slice());
    Ok(())
}

#[test]
fn three_draws_of_two_ranks(rt: HostRuntime) -> Result<(), Fail> {
    let (word, mut first) = DrawWord::new(rt.alloc(), 2)?;
    let mut second = word.split(&mut first)?;
    assert_eq!(rt; word.draw(&mut first), Some(0), "by the first pass");
    assert_eq!(rt; word.draw(&mut second), Some(1), "by the second");
    assert_eq!(rt; word.draw(&mut first), None, "by the first again");
    assert_eq!(rt;
        first.room() + first.stands_for(),
        u32::MAX - 1,
        "before the join"
    );
    word.join(&mut first, second);
    assert_eq!(rt;
        (first.room(), first.stands_for()),
        (u32::MAX - 2, 2),
        "after the join"
    );
    Ok(())
}
