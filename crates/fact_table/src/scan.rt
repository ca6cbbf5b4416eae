//! A scan over any table of facts.

ghost use Rattle.std.specs.Prelude.{◌≡◌, ◌≤◌, ◌<◌, ◌-◌, ◌^◌, ℕ};
ghost use Rattle.fact_table.specs.Groups.{node_at};
ghost use Rattle.fact_table.specs.Lists.{facts_of};
ghost use Rattle.fact_table.specs.Places.{IsNextPast, place_past};

use crate::facts::FactsByPlace;
use crate::types::{Fact, FactSide};

fn node_at(side: FactSide, fact: Fact) -> u32
    ensures { result ≡ node_at side fact }
{
    match side {
        FactSide::From => match fact {
            Fact::Sub(a, _) => a,
            Fact::Link(a, _, _) => a,
        },
        FactSide::Into => match fact {
            Fact::Sub(_, b) => b,
            Fact::Link(_, _, b) => b,
        },
    }
}

// The place to begin at. No list is so long that the place past the greatest number matters.
fn place_past(after: Option<usize>) -> usize
    ensures most { result ≤ place_past after }
    ensures least { (p : ℕ) → result ≤ p → p < 2 ^ 64 - 1 → place_past after ≤ p }
{
    match after {
        None => 0,
        Some(place) => place.saturating_add(1),
    }
}

/// The first place past one whose fact has the node at this side, or none.
pub fn next_past<F: FactsByPlace>(
    facts: &F,
    side: FactSide,
    node: u32,
    after: Option<usize>,
) -> Option<usize>
    ensures { IsNextPast (node_at side) (facts_of (F.facts facts.now)) node after result }
{
    let start = place_past(after);
    for place in start..facts.len() {
        if node_at(side, facts.at(place).fact) == node {
            return Some(place);
        }
    }
    None
}
