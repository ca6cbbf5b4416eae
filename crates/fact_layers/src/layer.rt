//! One layer: a table that never changes, and where it begins in the whole list.

ghost use Rattle.std.specs.Prelude.{◌≡◌, ◌+◌, ◌<◌, ◌^◌, length};

use fact_table::{Fact, FactGroup, FactSide, Facts, FactsByPlace, FlatFacts, Proved};
use std::alloc::AllocError;
use std::marker::Model;
use std::sync::Arc;

/// A table that is shared, from a place of the whole list on.
#[derive(Drop)]
pub struct Layer {
    facts: Arc<FlatFacts>,
    start: usize,
}

impl Model for Layer {
    ghost use Rattle.std.specs.Prelude.{◌+◌, ◌<◌, ◌^◌, length};
    ghost use Rattle.std.specs.Arc.{arc_value};
    ghost use Rattle.fact_layers.specs.Inside.Stacks.{Placed};

    ghost Value = { Placed };

    ghost view = { λ l. record { items = (arc_value l.facts).list; start = l.start } };

    ghost invariant = { λ l. l.start + length (arc_value l.facts).list < 2 ^ 62 };
}

impl Layer {
    ghost use Rattle.std.specs.Prelude.{◌≡◌, ◌+◌, ◌-◌, ◌<◌, ◌≤◌, ◌^◌, IfOk, Some, length, slice_get};
    ghost use Rattle.std.specs.Arc.{arc_value};
    ghost use Rattle.fact_table.specs.Groups.{group_at};
    ghost use Rattle.fact_table.specs.Lists.{facts_of};
    ghost use Rattle.fact_table.specs.Places.{IsFoundAt, IsLastBelow};
    ghost use Rattle.fact_layers.specs.Inside.Stacks.{Placed, IsShifted};

    pub fn new(facts: Arc<FlatFacts>, start: usize) -> Layer
        requires { start + length (arc_value facts).list < 2 ^ 62 }
        ensures { result ≡ record { items = (arc_value facts).list; start = start } }
    {
        Layer { facts, start }
    }

    /// The same layer.
    pub fn share(&self) -> Result<Layer, AllocError>
        ensures { IfOk result (λ layer. layer ≡ self.now) }
    {
        let facts = Arc::try_clone(&self.facts)?;
        Ok(Layer {
            facts,
            start: self.start,
        })
    }

    /// The place of the first item.
    #[inline(always)]
    pub fn start(&self) -> usize
        ensures start { result ≡ self.now.start }
        ensures small { self.now.start + length self.now.items < 2 ^ 62 }
    {
        self.start
    }

    pub fn len(&self) -> usize
        ensures { result ≡ length self.now.items }
    {
        self.facts.len()
    }

    /// The table itself.
    pub fn table(&self) -> &FlatFacts
        ensures { result.now.list ≡ self.now.items }
    {
        &self.facts
    }

    /// The item at a place of the whole list.
    pub fn at(&self, place: usize) -> Proved
        requires from { self.now.start ≤ place }
        requires below { place < self.now.start + length self.now.items }
        ensures { slice_get self.now.items (place - self.now.start) ≡ Some result }
    {
        self.facts.at(place - self.start)
    }

    /// The place of a fact in the whole list.
    pub fn find(&self, fact: Fact) -> Option<usize>
        ensures { IsShifted self.now.start (IsFoundAt (facts_of self.now.items) fact) result }
    {
        match self.facts.find(fact) {
            Some(place) => Some(self.start + place),
            None => None,
        }
    }

    /// The last place of the whole list below a bound whose fact is of the group, in this layer.
    #[inline(always)]
    pub fn last(&self, side: FactSide, group: FactGroup, below: usize) -> Option<usize>
        ensures { IsShifted self.now.start
            (IsLastBelow (group_at side) (facts_of self.now.items) group (below - self.now.start))
            result }
    {
        if below <= self.start {
            return None;
        }
        match self.facts.last(side, group, below - self.start) {
            Some(place) => Some(self.start + place),
            None => None,
        }
    }
}
