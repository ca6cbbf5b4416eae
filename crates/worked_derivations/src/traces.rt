//! A derivation that is read off a table of facts.

ghost use Rattle.std.specs.Prelude.{ℕ, IsTrue, ◌<◌, IfOk};
ghost use Rattle.derivation.specs.Traces.{IsPremiseOf, EachNamesEarlier};

use crate::rows::GIVEN;
use crate::setting::{Line, steps};
use derivation::trace;
use fact_table::{Fact, Facts, FactsByPlace, FlatFacts, Proved, Reason, Rule, Source};
use std::alloc::{AllocError, Global};
use std::test::Fail;

// The rule of the reason starts from nothing, or from facts at earlier places.
fn names_earlier(reason: &Reason, place: usize) -> bool
    ensures { IsTrue result → (k : ℕ) → IsPremiseOf reason.now k → k < place }
{
    match reason.rule {
        Rule::Itself | Rule::Top => true,
        _ => reason.first < place && reason.second < place,
    }
}

// Adds a fact that is new, if its reason names earlier places.
fn put(table: &mut FlatFacts, item: Proved)
    requires room { 0 < table.old.spare }
    requires earlier { EachNamesEarlier table.old.list }
    ensures { EachNamesEarlier table.new.list }
{
    if !names_earlier(&item.reason, table.len()) {
        return;
    }
    match table.find(item.fact) {
        Some(_) => {}
        None => {
            let _ = table.insert(item);
        }
    }
}

fn listed(alloc: Global, lines: &[Line]) -> Result<FlatFacts, AllocError>
    ensures { IfOk result (λ table. EachNamesEarlier table.list) }
{
    let mut table = FlatFacts::new(alloc);
    for line in lines {
        table.reserve(1)?;
        put(&mut table, proved(line));
    }
    Ok(table)
}

fn proved(line: &Line) -> Proved {
    Proved {
        fact: line.0,
        reason: Reason {
            first: line.2,
            second: line.3,
            source: line.4,
            rule: line.1,
        },
    }
}

const NONE: Source = Source::Nothing;

// The facts of the derivation `GIVEN`, with three that it does not need. Premises are places here,
// which count from 0.
const ITEMS: [Line; 8] = [
    (Fact::Sub(2, 2), Rule::Itself, 0, 0, NONE),
    (Fact::Sub(2, 0), Rule::Top, 0, 0, NONE),
    (
        Fact::Sub(2, 4),
        Rule::Incl,
        0,
        0,
        Source::Row { rank: 0, number: 1 },
    ),
    (Fact::Sub(2, 5), Rule::Incl, 2, 0, Source::Right(1)),
    (Fact::Sub(3, 3), Rule::Itself, 0, 0, NONE),
    (
        Fact::Sub(2, 3),
        Rule::Incl,
        3,
        0,
        Source::Row { rank: 1, number: 2 },
    ),
    (Fact::Sub(2, 1), Rule::Disj, 0, 5, Source::Left(1)),
    (Fact::Sub(3, 0), Rule::Top, 0, 0, NONE),
];

#[test]
fn traces_what_is_needed(rt: HostRuntime) -> Result<(), Fail> {
    let alloc = rt.alloc();
    let table = listed(alloc, &ITEMS)?;
    assert!(rt; 6 < table.len());
    let derivation = trace(alloc, &table, 6)?;
    let wanted = steps(alloc, &GIVEN)?;
    assert_eq!(rt; derivation.as_slice(), wanted.as_slice());
    Ok(())
}
