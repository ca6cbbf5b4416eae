//! Cores of a few ranks, event by event.

use crate::{Core, Entries, Entry, Event, Mark, Reply};
use std::test::Fail;

// An event, the reply to it and the front after it.
type Row = (Event, Reply, u32);

const AN_OLD_YES: [Row; 10] = [
    (Event::Take { worker: 1, rank: 0 }, Reply::Seen(0), 0),
    (Event::Take { worker: 2, rank: 1 }, Reply::Seen(0), 0),
    (
        Event::Yes {
            worker: 2,
            rank: 1,
            seen: 0,
        },
        Reply::Noted,
        0,
    ),
    // Rank 1 stays noted with no kept rank, so the front doesn't keep it.
    (
        Event::Yes {
            worker: 1,
            rank: 0,
            seen: 0,
        },
        Reply::Kept,
        1,
    ),
    (Event::TakeFront { worker: 2 }, Reply::Front(1, 1), 1),
    (
        Event::Yes {
            worker: 2,
            rank: 1,
            seen: 0,
        },
        Reply::Stale(1),
        1,
    ),
    (
        Event::No {
            worker: 2,
            rank: 1,
            seen: 1,
        },
        Reply::Marked,
        2,
    ),
    (Event::TakeFront { worker: 1 }, Reply::Done, 2),
    (Event::Take { worker: 1, rank: 1 }, Reply::Over, 2),
    (
        Event::No {
            worker: 1,
            rank: 0,
            seen: 0,
        },
        Reply::Late,
        2,
    ),
];

// From the third row on: rank 5 stays removed.
const AN_EARLY_NO: [Row; 5] = [
    (
        Event::Yes {
            worker: 1,
            rank: 0,
            seen: 0,
        },
        Reply::Kept,
        1,
    ),
    (
        Event::No {
            worker: 1,
            rank: 1,
            seen: 1,
        },
        Reply::Marked,
        2,
    ),
    (
        Event::No {
            worker: 1,
            rank: 5,
            seen: 1,
        },
        Reply::Marked,
        2,
    ),
    (
        Event::Yes {
            worker: 2,
            rank: 5,
            seen: 0,
        },
        Reply::Late,
        2,
    ),
    (Event::Take { worker: 2, rank: 5 }, Reply::Over, 2),
];

const A_FAR_YES: [Row; 4] = [
    (
        Event::Yes {
            worker: 1,
            rank: 0,
            seen: 0,
        },
        Reply::Kept,
        1,
    ),
    (
        Event::No {
            worker: 1,
            rank: 1,
            seen: 1,
        },
        Reply::Marked,
        2,
    ),
    (
        Event::Yes {
            worker: 1,
            rank: 66,
            seen: 1,
        },
        Reply::Far,
        2,
    ),
    (
        Event::Yes {
            worker: 1,
            rank: 65,
            seen: 1,
        },
        Reply::Noted,
        2,
    ),
];

const A_BLOCK: [Row; 3] = [
    (
        Event::No {
            worker: 1,
            rank: 3,
            seen: 0,
        },
        Reply::Marked,
        0,
    ),
    (
        Event::Yes {
            worker: 2,
            rank: 6,
            seen: 0,
        },
        Reply::Noted,
        0,
    ),
    (
        Event::Block {
            worker: 1,
            rank: 0,
            count: 8,
            seen: 0,
        },
        Reply::Kept,
        8,
    ),
];

// Rank 1 was seen with no kept rank, and none is kept when the front comes to it: it is kept. Then
// rank 3 isn't, since it was seen with no kept rank too.
const A_NOTED_RANK: [Row; 6] = [
    (
        Event::Yes {
            worker: 1,
            rank: 1,
            seen: 0,
        },
        Reply::Noted,
        0,
    ),
    (
        Event::Yes {
            worker: 2,
            rank: 3,
            seen: 0,
        },
        Reply::Noted,
        0,
    ),
    (
        Event::No {
            worker: 1,
            rank: 2,
            seen: 0,
        },
        Reply::Marked,
        0,
    ),
    (
        Event::No {
            worker: 1,
            rank: 0,
            seen: 0,
        },
        Reply::Marked,
        3,
    ),
    (
        Event::Yes {
            worker: 2,
            rank: 3,
            seen: 0,
        },
        Reply::Stale(1),
        3,
    ),
    (
        Event::Yes {
            worker: 2,
            rank: 3,
            seen: 1,
        },
        Reply::Kept,
        4,
    ),
];

// Whether an event fits the opening over three ranks.
const FITTING: [(Event, bool); 12] = [
    (
        Event::No {
            worker: 1,
            rank: 2,
            seen: 1,
        },
        false,
    ),
    (
        Event::No {
            worker: 1,
            rank: 2,
            seen: 0,
        },
        true,
    ),
    (
        Event::Yes {
            worker: 1,
            rank: 2,
            seen: 1,
        },
        false,
    ),
    (
        Event::Yes {
            worker: 1,
            rank: 3,
            seen: 0,
        },
        false,
    ),
    (Event::Take { worker: 1, rank: 3 }, false),
    (Event::Take { worker: 1, rank: 2 }, true),
    (Event::TakeFront { worker: 1 }, true),
    (
        Event::Block {
            worker: 1,
            rank: 0,
            count: 3,
            seen: 0,
        },
        true,
    ),
    (
        Event::Block {
            worker: 1,
            rank: 0,
            count: 4,
            seen: 0,
        },
        false,
    ),
    (
        Event::Block {
            worker: 1,
            rank: 0,
            count: 0,
            seen: 0,
        },
        false,
    ),
    (
        Event::Block {
            worker: 1,
            rank: 1,
            count: 1,
            seen: 0,
        },
        false,
    ),
    (
        Event::Block {
            worker: 1,
            rank: 0,
            count: 1,
            seen: 1,
        },
        false,
    ),
];

// How many of the rows, from the first on, have the core's reply and the front after it.
fn rows_met(core: &mut Core, rows: &[Row]) -> usize {
    for (met, row) in rows.iter().enumerate() {
        if !meets(core, *row) {
            return met;
        }
    }
    rows.len()
}

fn meets(core: &mut Core, row: Row) -> bool {
    let (event, reply, front) = row;
    core.fits(&event) && core.step(event) == reply && core.front() == front
}

#[test]
fn events_have_their_replies(rt: HostRuntime) -> Result<(), Fail> {
    for (ranks, rows, kept) in [
        (2, AN_OLD_YES.as_slice(), [0].as_slice()),
        (8, AN_EARLY_NO.as_slice(), [0].as_slice()),
        (80, A_FAR_YES.as_slice(), [0].as_slice()),
        (8, A_BLOCK.as_slice(), [0, 1, 2, 4, 5, 6, 7].as_slice()),
        (5, A_NOTED_RANK.as_slice(), [1, 3].as_slice()),
    ] {
        let mut core = Core::new(rt.alloc(), ranks)?;
        assert_eq!(rt; rows_met(&mut core, rows), rows.len(), "{rows:?}");
        assert_eq!(rt; core.kept(), kept, "{rows:?}");
    }
    Ok(())
}

#[test]
fn some_events_do_not_fit(rt: HostRuntime) -> Result<(), Fail> {
    let core = Core::new(rt.alloc(), 3)?;
    for (event, fits) in FITTING {
        assert_eq!(rt; core.fits(&event), fits, "{event:?}");
    }
    assert_eq!(rt; core.mark(2), Mark::Open);
    Ok(())
}

#[test]
fn entries_go_where_room_is(rt: HostRuntime) -> Result<(), Fail> {
    let entry = Entry {
        event: Event::Take { worker: 1, rank: 0 },
        reply: Reply::Seen(0),
    };
    let mut entries = Entries::new(rt.alloc());
    entries.reserve(1)?;
    entries.push(entry);
    assert_eq!(rt; entries.as_slice(), [entry].as_slice());
    Ok(())
}
