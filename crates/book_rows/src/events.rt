//! Books event by event.

ghost use Rattle.std.specs.Prelude.{◌≡◌, []};

use crate::setting::base;
use crate::telling::tell;
use accuse_core::{Entry, Event, Reply};
use closed_model::ClosedTable;
use commit_book::Book;
use std::alloc::Global;
use std::sync::Arc;
use std::test::Fail;

// An event and the reply to it.
type Row = (Event, Reply);

// One worker, down the ranks.
const WHOLE_PATH: [Row; 7] = [
    (Event::Take { worker: 0, rank: 0 }, Reply::Seen(0)),
    (
        Event::Yes {
            worker: 0,
            rank: 0,
            seen: 0,
        },
        Reply::Kept,
    ),
    (Event::Take { worker: 0, rank: 1 }, Reply::Seen(1)),
    (
        Event::No {
            worker: 0,
            rank: 1,
            seen: 1,
        },
        Reply::Marked,
    ),
    (Event::Take { worker: 0, rank: 2 }, Reply::Seen(1)),
    (
        Event::Yes {
            worker: 0,
            rank: 2,
            seen: 1,
        },
        Reply::Kept,
    ),
    (Event::TakeFront { worker: 0 }, Reply::Done),
];

// Rank 1 waits with a yes over no kept rank, so the front doesn't keep it.
const AN_OLD_YES: [Row; 8] = [
    (Event::Take { worker: 1, rank: 0 }, Reply::Seen(0)),
    (Event::Take { worker: 2, rank: 1 }, Reply::Seen(0)),
    (
        Event::Yes {
            worker: 2,
            rank: 1,
            seen: 0,
        },
        Reply::Noted,
    ),
    (
        Event::Yes {
            worker: 1,
            rank: 0,
            seen: 0,
        },
        Reply::Kept,
    ),
    (Event::TakeFront { worker: 2 }, Reply::Front(1, 1)),
    (
        Event::Yes {
            worker: 2,
            rank: 1,
            seen: 0,
        },
        Reply::Stale(1),
    ),
    (
        Event::No {
            worker: 2,
            rank: 1,
            seen: 1,
        },
        Reply::Marked,
    ),
    (Event::TakeFront { worker: 1 }, Reply::Done),
];

// Rank 5 is removed ahead of the front, and stays removed.
const AN_EARLY_NO: [Row; 6] = [
    (
        Event::Yes {
            worker: 1,
            rank: 0,
            seen: 0,
        },
        Reply::Kept,
    ),
    (
        Event::No {
            worker: 1,
            rank: 1,
            seen: 1,
        },
        Reply::Marked,
    ),
    (
        Event::No {
            worker: 1,
            rank: 5,
            seen: 1,
        },
        Reply::Marked,
    ),
    (
        Event::Yes {
            worker: 2,
            rank: 5,
            seen: 0,
        },
        Reply::Late,
    ),
    (Event::Take { worker: 2, rank: 5 }, Reply::Over),
    (Event::TakeFront { worker: 2 }, Reply::Front(2, 1)),
];

// A rank is noted less than 64 ranks ahead of the front, and no further.
const A_FAR_YES: [Row; 4] = [
    (
        Event::Yes {
            worker: 1,
            rank: 0,
            seen: 0,
        },
        Reply::Kept,
    ),
    (
        Event::No {
            worker: 1,
            rank: 1,
            seen: 1,
        },
        Reply::Marked,
    ),
    (
        Event::Yes {
            worker: 1,
            rank: 66,
            seen: 1,
        },
        Reply::Far,
    ),
    (
        Event::Yes {
            worker: 1,
            rank: 65,
            seen: 1,
        },
        Reply::Noted,
    ),
];

// The front comes to rank 1, which waits with a yes over all kept ranks.
const A_NOTED_RANK: [Row; 6] = [
    (Event::Take { worker: 2, rank: 1 }, Reply::Seen(0)),
    (
        Event::Yes {
            worker: 2,
            rank: 1,
            seen: 0,
        },
        Reply::Noted,
    ),
    (
        Event::No {
            worker: 1,
            rank: 0,
            seen: 0,
        },
        Reply::Marked,
    ),
    (Event::TakeFront { worker: 1 }, Reply::Front(2, 1)),
    (
        Event::Yes {
            worker: 1,
            rank: 2,
            seen: 1,
        },
        Reply::Kept,
    ),
    (Event::TakeFront { worker: 2 }, Reply::Done),
];

const APART: &str = "DisjointClasses(:A :B)";

const WHOLE_ROWS: &str = "l:A\tskos:exactMatch\tr:X\t0.9
l:B\tskos:exactMatch\tr:Y\t0.8
l:B\tskos:broadMatch\tr:Y\t0.7
";

// Rows by a letter each: X is below A, or below B, or A is empty, or the row says nothing.
fn rows_of(alloc: Global, letters: &str) -> Result<String, Fail> {
    let mut rows = String::new(alloc);
    for letter in letters.bytes() {
        let row = match letter {
            b'a' => "r:X\tskos:broadMatch\tl:A\t0.9\n",
            b'b' => "r:X\tskos:broadMatch\tl:B\t0.9\n",
            b'n' => "l:A\tskos:broadMatch\towl:Nothing\t0.9\n",
            _ => "r:X\tskos:closeMatch\tl:B\t0.9\n",
        };
        rows.push_str(row)?;
    }
    Ok(rows)
}

// How many of the rows, from the first on, are replied to as they say.
fn rows_met(alloc: Global, base: &ClosedTable, book: &mut Book, rows: &[Row]) -> Result<usize, Fail>
    requires none { base.now.ranks ≡ [] }
    requires case { base.now.case ≡ book.old.case }
{
    for (met, row) in rows.iter().enumerate() {
        let reply = tell(alloc, base, book, row.0)?;
        if reply != row.1 {
            return Ok(met);
        }
    }
    Ok(rows.len())
}

// Whether these are the entries, in their order.
fn are_entries(entries: &[Entry], rows: &[Row]) -> bool {
    let same = entries.iter().zip(rows).all(|(entry, row)| {
        entry.event == row.0 && entry.reply == row.1
    });
    entries.len() == rows.len() && same
}

// Whether just these ranks have a derivation.
fn have_whys(book: &Book, removed: &[u32]) -> bool {
    let ranks = book.case().ranks();
    (0..ranks).all(|rank| book.why(rank).is_some() == removed.contains(&rank))
}

// The kept ranks, and the removed ones.
type End<'a> = (&'a [u32], &'a [u32]);

// Whether the rows are replied to as they say, and lead to this end.
fn meets(alloc: Global, base: &ClosedTable, rows: &[Row], end: End) -> Result<bool, Fail>
    requires { base.now.ranks ≡ [] }
{
    let case = Arc::try_clone(base.case())?;
    let mut book = Book::new(alloc, case, base.share(alloc)?)?;
    let met = rows_met(alloc, base, &mut book, rows)?;
    let entries = are_entries(book.journal().as_slice(), rows);
    let kept = book.table().ranks() == end.0 && book.core().kept() == end.0;
    Ok(met == rows.len() && entries && kept && have_whys(&book, end.1))
}

#[test]
fn whole_path(rt: HostRuntime) -> Result<(), Fail> {
    let alloc = rt.alloc();
    let base = base(alloc, APART, "SubClassOf(:X :Y)", WHOLE_ROWS)?;
    let end: End = (&[0, 2], &[1]);
    assert!(rt; meets(alloc, &base, WHOLE_PATH.as_slice(), end)?);
    Ok(())
}

#[test]
fn other_orders(rt: HostRuntime) -> Result<(), Fail> {
    let alloc = rt.alloc();
    let far = "ab..............................................................................";
    let cases: [(&str, &[Row], End); 4] = [
        ("ab", AN_OLD_YES.as_slice(), (&[0], &[1])),
        ("ab...b..", AN_EARLY_NO.as_slice(), (&[0], &[1, 5])),
        (far, A_FAR_YES.as_slice(), (&[0], &[1])),
        ("n..", A_NOTED_RANK.as_slice(), (&[1, 2], &[0])),
    ];
    for (letters, rows, end) in cases {
        let text = rows_of(alloc, letters)?;
        let base = base(alloc, APART, "Declaration(Class(:X))", text.as_str())?;
        assert!(rt; meets(alloc, &base, rows, end)?, "{letters}");
    }
    Ok(())
}
