//! Small tables of facts.

ghost use Rattle.std.specs.Prelude.{◌≡◌, ◌+◌, ◌<◌, ◌≤◌};

use crate::{
    Fact, FactGroup, FactSide, Facts, FactsByPlace, FlatFacts, Proved, Reason, Rule, Source,
};
use std::alloc::{AllocError, Global};
use std::test::Fail;

fn told(fact: Fact) -> Proved
    ensures { result.fact ≡ fact }
{
    Proved {
        fact,
        reason: Reason {
            first: 0,
            second: 0,
            source: Source::Nothing,
            rule: Rule::Itself,
        },
    }
}

// The place of a fact that is new, and none if the fact is there.
fn put(table: &mut FlatFacts, fact: Fact) -> Option<usize>
    requires { 0 < table.old.spare }
    ensures { table.old.spare ≤ table.new.spare + 1 }
{
    match table.find(fact) {
        Some(_) => None,
        None => Some(table.insert(told(fact))),
    }
}

#[test]
fn cuts_what_it_inserted(rt: HostRuntime) -> Result<(), Fail> {
    let mut table = FlatFacts::new(rt.alloc());
    table.reserve(2)?;
    assert_eq!(rt; put(&mut table, Fact::Sub(2, 2)), Some(0));
    assert_eq!(rt; put(&mut table, Fact::Sub(2, 0)), Some(1));
    assert_eq!(rt; table.find(Fact::Sub(2, 0)), Some(1));
    assert_eq!(rt; table.next_from(2, Some(0)), Some(1));
    assert!(rt; table.len() == 2);
    table.cut(1);
    assert_eq!(rt; table.len(), 1);
    assert_eq!(rt; table.find(Fact::Sub(2, 0)), None);
    Ok(())
}

// A table of eight facts about the nodes 2, 3 and 4.
fn eight_facts(alloc: Global) -> Result<FlatFacts, AllocError> {
    let mut table = FlatFacts::new(alloc);
    for fact in [
        Fact::Sub(2, 2),
        Fact::Sub(2, 0),
        Fact::Link(2, 0, 3),
        Fact::Sub(3, 3),
        Fact::Link(2, 1, 3),
        Fact::Link(2, 0, 4),
        Fact::Sub(4, 3),
        Fact::Sub(2, 3),
    ] {
        table.reserve(1)?;
        let _ = put(&mut table, fact);
    }
    Ok(table)
}

#[test]
fn finds_the_last_of_a_group(rt: HostRuntime) -> Result<(), Fail> {
    let table = eight_facts(rt.alloc())?;
    let copy = table.copy(rt.alloc())?;
    for (side, group, below, place) in [
        (FactSide::From, FactGroup::Subs(2), 8, Some(7)),
        (FactSide::From, FactGroup::Subs(2), 7, Some(1)),
        (FactSide::From, FactGroup::Subs(2), 1, Some(0)),
        (FactSide::From, FactGroup::Subs(2), 0, None),
        (FactSide::From, FactGroup::Links(2, 0), 100, Some(5)),
        (FactSide::From, FactGroup::Links(2, 0), 5, Some(2)),
        (FactSide::From, FactGroup::Links(2, 0), 2, None),
        (FactSide::From, FactGroup::Links(2, 1), 8, Some(4)),
        (FactSide::From, FactGroup::Links(3, 0), 8, None),
        (FactSide::Into, FactGroup::Subs(3), 8, Some(7)),
        (FactSide::Into, FactGroup::Subs(3), 7, Some(6)),
        (FactSide::Into, FactGroup::Subs(3), 6, Some(3)),
        (FactSide::Into, FactGroup::Subs(3), 3, None),
        (FactSide::Into, FactGroup::Links(3, 0), 8, Some(2)),
        (FactSide::Into, FactGroup::Links(4, 0), 6, Some(5)),
        (FactSide::Into, FactGroup::Links(4, 0), 5, None),
    ] {
        assert_eq!(rt;
            table.last(side, group, below),
            place,
            "{side:?} {group:?} {below}"
        );
        assert_eq!(rt;
            copy.last(side, group, below),
            place,
            "{side:?} {group:?} {below}"
        );
    }
    Ok(())
}

#[test]
fn finds_the_next_of_a_node(rt: HostRuntime) -> Result<(), Fail> {
    let table = eight_facts(rt.alloc())?;
    for (node, after, from, into) in [
        (2, None, Some(0), Some(0)),
        (2, Some(2), Some(4), None),
        (2, Some(5), Some(7), None),
        (2, Some(7), None, None),
        (3, None, Some(3), Some(2)),
        (3, Some(3), None, Some(4)),
        (3, Some(4), None, Some(6)),
        (4, None, Some(6), Some(5)),
        (9, None, None, None),
        (3, Some(usize::MAX), None, None),
    ] {
        assert_eq!(rt; table.next_from(node, after), from, "{node} {after:?}");
        assert_eq!(rt; table.next_into(node, after), into, "{node} {after:?}");
    }
    Ok(())
}
