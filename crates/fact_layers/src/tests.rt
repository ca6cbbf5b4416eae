//! Small tops over small bases.

ghost use Rattle.std.specs.Prelude.{◌≡◌, ◌+◌, ◌<◌, ◌≤◌};

use crate::{Base, Layers};
use fact_table::{Fact, FactGroup, FactSide, Facts, FactsByPlace, Proved, Reason, Rule, Source};
use std::alloc::{AllocError, Global};
use std::test::Fail;

fn told(fact: Fact) -> Proved
    ensures { result.fact ≡ fact }
{
    Proved {
        fact,
        reason: Reason {
            first: 0,
            second: 0,
            source: Source::Nothing,
            rule: Rule::Itself,
        },
    }
}

// The place of a fact that is new, and none if the fact is there.
fn put(layers: &mut Layers, fact: Fact) -> Option<usize>
    requires { 0 < layers.old.spare }
{
    match layers.find(fact) {
        Some(_) => None,
        None => Some(layers.insert(told(fact))),
    }
}

// The base with one fact more.
fn with_fact(alloc: Global, base: Base, fact: Fact) -> Result<Base, AllocError> {
    let mut layers = Layers::over(alloc, base)?;
    layers.reserve(1)?;
    let _ = put(&mut layers, fact);
    match layers.freeze(alloc) {
        Ok(base) => Ok(base),
        Err(_) => Err(AllocError),
    }
}

#[test]
fn drops_a_top_and_freezes_another(rt: HostRuntime) -> Result<(), Fail> {
    let alloc = rt.alloc();
    let base = with_fact(alloc, Base::empty(alloc)?, Fact::Sub(2, 2))?;
    let mut layers = Layers::over(alloc, base)?;
    layers.reserve(1)?;
    assert_eq!(rt; put(&mut layers, Fact::Sub(2, 0)), Some(1));
    layers.drop_top();
    assert_eq!(rt; layers.len(), 1);
    assert_eq!(rt; layers.find(Fact::Sub(2, 0)), None);
    layers.reserve(1)?;
    assert_eq!(rt; put(&mut layers, Fact::Sub(2, 0)), Some(1));
    let Ok(base) = layers.freeze(alloc) else {
        return Err(Fail::from("freeze"));
    };
    assert_eq!(rt; base.len(), 2);
    Ok(())
}

// A base of these facts, each frozen by itself.
fn frozen(alloc: Global, facts: &[Fact]) -> Result<Base, AllocError> {
    let mut base = Base::empty(alloc)?;
    for fact in facts {
        base = with_fact(alloc, base, *fact)?;
    }
    Ok(base)
}

#[test]
fn looks_through_all_layers(rt: HostRuntime) -> Result<(), Fail> {
    let alloc = rt.alloc();
    let facts = [
        Fact::Sub(2, 2),
        Fact::Sub(2, 0),
        Fact::Link(2, 0, 3),
        Fact::Sub(3, 3),
        Fact::Link(2, 1, 3),
        Fact::Link(2, 0, 4),
        Fact::Sub(4, 3),
    ];
    let base = frozen(alloc, facts.as_slice())?;
    let mut layers = Layers::over(alloc, base.share(alloc)?)?;
    layers.reserve(1)?;
    assert_eq!(rt; put(&mut layers, Fact::Sub(2, 3)), Some(7));
    for (side, group, below, place) in [
        (FactSide::From, FactGroup::Subs(2), 8, Some(7)),
        (FactSide::From, FactGroup::Subs(2), 7, Some(1)),
        (FactSide::From, FactGroup::Subs(2), 1, Some(0)),
        (FactSide::From, FactGroup::Subs(2), 0, None),
        (FactSide::From, FactGroup::Links(2, 0), 100, Some(5)),
        (FactSide::From, FactGroup::Links(2, 0), 5, Some(2)),
        (FactSide::From, FactGroup::Links(2, 0), 2, None),
        (FactSide::Into, FactGroup::Subs(3), 7, Some(6)),
        (FactSide::Into, FactGroup::Subs(3), 6, Some(3)),
        (FactSide::Into, FactGroup::Links(4, 0), 5, None),
    ] {
        assert_eq!(rt;
            layers.last(side, group, below),
            place,
            "{side:?} {group:?} {below}"
        );
    }
    assert_eq!(rt; base.find(Fact::Sub(2, 2)), Some(0));
    assert_eq!(rt; base.find(Fact::Sub(2, 3)), None);
    assert_eq!(rt; base.last(FactSide::Into, FactGroup::Subs(3), 8), Some(6));
    assert_eq!(rt; base.next_from(3, None), Some(3));
    assert_eq!(rt; layers.next_into(3, Some(6)), Some(7));
    assert!(rt; layers.len() == 8);
    assert_eq!(rt; layers.at(2).fact, Fact::Link(2, 0, 3));
    Ok(())
}
