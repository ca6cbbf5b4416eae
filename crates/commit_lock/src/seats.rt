//! What a seat does at its lock.
ghost use Rattle.std.specs.Prelude.{◌≡◌, ◌≢◌, ◌≤◌, ◌+◌, ◌-◌, ◌^◌, [], IfOk, IfErr};
ghost use Rattle.commit_lock.specs.declared.lock.CloseFault.TheVariants.{OutOfMemory};
ghost use Rattle.commit_lock.specs.Entries.{IsBeginning, GrowsBy, made_by, longer};
ghost use Rattle.commit_lock.specs.Seats.{case_of, IsSeatOf, IsIdle, HasTurn, IsWholeSeat};
ghost use Rattle.commit_lock.specs.Seats.{number, seen, entered, seat_room, seats_for, KeepsPlace};

use crate::lock::{CloseFault, CommitLock, Grows, Seat};
use crate::steps::{DrawNumber, GiveTurn, JoinSeats, SettleJoin, SplitSeat, TakeTurn};
use atomic_table::{Refused, Table};
use std::alloc::{AllocError, AllocFailed, Global};
use std::snapshot::Snapshot;
use std::sync::Wait;
use std::thread::yield_now;

impl<V: Grows> Seat<V> {
    /// The number that the entries of this seat carry.
    pub fn number(&self) -> u32
        ensures { result ≡ number self.now }
    {
        self.number
    }

    /// How many seats may still be split from this one.
    pub fn room(&self) -> u32
        ensures { result ≡ seat_room self.now }
    {
        self.room
    }

    /// How many seats this one stands for: itself, and all that were joined into it.
    pub fn stands_for(&self) -> u32
        ensures { result ≡ seats_for self.now }
    {
        self.stands_for
    }
}

impl<V: Grows> CommitLock<V> {
    /// Puts a value without entries under a lock, and gives the first seat. If memory runs out, it
    /// gives the value back.
    pub fn new(alloc: Global, value: V) -> Result<(CommitLock<V>, Seat<V>), V>
        requires { V.entries value ≡ [] }
        ensures case { IfOk result (λ made. case_of V.case made.0 ≡ V.case value) }
        ensures lock { IfOk result (λ made. IsSeatOf made.0 made.1 × IsIdle made.1) }
        ensures seat { IfOk result (λ made. (number made.1 ≡ 0) × (seen made.1 ≡ [])) }
        ensures room { IfOk result (λ made. seat_room made.1 ≡ 2 ^ 32 - 2) }
        ensures stands_for { IfOk result (λ made. seats_for made.1 ≡ 1) }
        ensures refused { IfErr result (λ back. back ≡ value) }
    {
        let key = Snapshot::of(&value);
        let mut slots = Vec::new(alloc);
        if let Err(failed) = slots.push(Some(value)) {
            let AllocFailed { value } = failed;
            let Some(value) = value else { unreachable!() };
            return Err(value);
        }
        match Table::new(alloc, &[2], slots, &key) {
            Ok((table, token)) => Ok((
                CommitLock { table },
                Seat {
                    token,
                    number: 0,
                    room: u32::MAX - 1,
                    stands_for: 1,
                },
            )),
            Err(Refused { mut slots }) => {
                let Some(Some(value)) = slots.pop() else {
                    unreachable!()
                };
                Err(value)
            }
        }
    }

    /// Waits for the turn, and takes the value. Between two tries it gives the processor up.
    pub fn enter<R: Wait>(&self, rt: &R, seat: &mut Seat<V>) -> V
        requires lock { IsSeatOf self.now seat.old }
        requires idle { IsIdle seat.old }
        ensures lock { IsSeatOf self.now seat.new }
        ensures turn { HasTurn seat.new }
        ensures entered { entered seat.new ≡ V.entries result }
        ensures same { KeepsPlace seat.old seat.new × (seen seat.new ≡ seen seat.old) }
        ensures case { V.case result ≡ case_of V.case self.now }
        ensures seen { IsBeginning (seen seat.old) (V.entries result) }
        ensures own { made_by V.worker (number seat.old) (V.entries result)
            ≡ made_by V.worker (number seat.old) (seen seat.old) }
    {
        for _ in rt.forever() {
            let found = self
                .table
                .shared
                .fetch_or::<TakeTurn>(&mut seat.token, 0, 1);
            if found % 2 == 0 {
                let Some(value) = self.table.shared.exchange(&mut seat.token, 0, None) else {
                    unreachable!()
                };
                return value;
            }
            yield_now();
        }
        unreachable!()
    }

    /// Puts the value back, grown by entries of this seat, and gives the turn back.
    pub fn leave(&self, seat: &mut Seat<V>, value: V)
        requires lock { IsSeatOf self.now seat.old }
        requires turn { HasTurn seat.old }
        requires case { V.case value ≡ case_of V.case self.now }
        requires grown { GrowsBy V.worker (number seat.old) (entered seat.old) (V.entries value) }
        ensures lock { IsSeatOf self.now seat.new }
        ensures idle { IsIdle seat.new }
        ensures same { KeepsPlace seat.old seat.new }
        ensures seen { seen seat.new ≡ V.entries value }
    {
        self.table.shared.exchange(&mut seat.token, 0, Some(value));
        self.table
            .shared
            .fetch_and::<GiveTurn>(&mut seat.token, 0, u64::MAX - 1);
    }

    /// Splits a new seat from this one. Today it never refuses.
    pub fn split(&self, seat: &mut Seat<V>) -> Result<Seat<V>, AllocError>
        requires lock { IsSeatOf self.now seat.old }
        requires idle { IsIdle seat.old }
        requires room { 1 ≤ seat_room seat.old }
        ensures lock { IfOk result (λ made. IsSeatOf self.now seat.new × IsSeatOf self.now made) }
        ensures idle { IfOk result (λ made. IsIdle seat.new × IsIdle made) }
        ensures place { IfOk result (λ _. (number seat.new ≡ number seat.old)
            × (seat_room seat.new + 1 ≡ seat_room seat.old)
            × (seats_for seat.new ≡ seats_for seat.old)) }
        ensures number { IfOk result (λ made. number made ≢ number seat.old) }
        ensures room { IfOk result (λ made. (seat_room made ≡ 0) × (seats_for made ≡ 1)) }
        ensures seen { IfOk result (λ made. (seen seat.new ≡ seen seat.old)
            × (seen made ≡ seen seat.old)) }
        ensures no_own { IfOk result (λ made. made_by V.worker (number made) (seen made) ≡ []) }
        ensures refused { IfErr result (λ _. seat.new ≡ seat.old) }
    {
        let mut token = self.table.shared.split_seat::<SplitSeat>(&mut seat.token);
        seat.room -= 1;
        let found = self.table.shared.fetch_add::<DrawNumber>(&mut token, 0, 2);
        Ok(Seat {
            token,
            number: (found / 2) as u32,
            room: 0,
            stands_for: 1,
        })
    }

    /// Takes another seat back into this one.
    pub fn join(&self, seat: &mut Seat<V>, other: Seat<V>)
        requires lock { IsSeatOf self.now seat.old × IsSeatOf self.now other }
        requires idle { IsIdle seat.old × IsIdle other }
        ensures lock { IsSeatOf self.now seat.new }
        ensures idle { IsIdle seat.new }
        ensures number { (number seat.new ≡ number seat.old) × (number other ≢ number seat.old) }
        ensures room { seat_room seat.new ≡ seat_room seat.old + seat_room other }
        ensures stands_for { seats_for seat.new ≡ seats_for seat.old + seats_for other }
        ensures seen { seen seat.new ≡ longer (seen seat.old) (seen other) }
        ensures seen_before { IsBeginning (seen seat.old) (seen seat.new) }
        ensures seen_by_other { IsBeginning (seen other) (seen seat.new) }
        ensures own { made_by V.worker (number seat.old) (seen seat.new)
            ≡ made_by V.worker (number seat.old) (seen seat.old) }
        ensures own_of_other { made_by V.worker (number other) (seen seat.new)
            ≡ made_by V.worker (number other) (seen other) }
    {
        let Seat {
            token,
            number: _,
            room,
            stands_for,
        } = other;
        self.table
            .shared
            .join_seat::<JoinSeats>(&mut seat.token, token);
        self.table.shared.load::<SettleJoin>(&mut seat.token, 0);
        seat.room += room;
        seat.stands_for += stands_for;
    }

    /// Ends the lock once every other seat was joined into this one, and gives the value. Today it
    /// never refuses.
    pub fn close(self, seat: Seat<V>) -> Result<V, CloseFault<V>>
        requires lock { IsSeatOf self seat }
        requires idle { IsIdle seat }
        requires whole { IsWholeSeat seat }
        ensures case { IfOk result (λ value. V.case value ≡ case_of V.case self) }
        ensures entries { IfOk result (λ value. V.entries value ≡ seen seat) }
        ensures refused { IfErr result (λ fault. fault ≡ OutOfMemory self seat) }
    {
        let CommitLock { table } = self;
        let Seat {
            token,
            number: _,
            room: _,
            stands_for: _,
        } = seat;
        let mut closed = table.close_with(token);
        let value = closed.take(0);
        closed.free();
        let Some(value) = value else { unreachable!() };
        Ok(value)
    }
}
