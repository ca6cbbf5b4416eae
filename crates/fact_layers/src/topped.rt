//! Facts over a shared base.

use crate::shared::{Base, with_top};
use fact_table::{Fact, FactGroup, FactSide, Facts, FactsByPlace, FlatFacts, Proved, next_past};
use std::alloc::{AllocError, Global};
use std::marker::Model;

/// Facts over a shared base, which can be given up again. Places count from the first fact of the
/// base.
#[derive(Drop)]
pub struct Layers {
    base: Base,
    top: FlatFacts,
}

impl Model for Layers {
    ghost use Rattle.std.specs.Prelude.{◌++◌};
    ghost use Rattle.fact_table.specs.Lists.{facts_of, AreDistinctFacts};
    ghost use Rattle.fact_layers.specs.Tops.{Topped};

    ghost Value = { Topped };

    ghost view = { λ l. record { base = l.base; top = l.top.list; spare = l.top.spare } };

    ghost invariant = { λ l. AreDistinctFacts (facts_of (l.base ++ l.top.list)) };
}

impl Layers {
    ghost use Rattle.std.specs.Prelude.{◌≡◌, ◌+◌, ◌<◌, ◌≤◌, ◌++◌, ◌∷◌, [], IfOk, IfErr, OnOk, OnErr, length};
    ghost use Rattle.fact_table.specs.Lists.{facts_of, IsAbsent};
    ghost use Rattle.fact_layers.specs.Tops.{Topped, whole};

    /// A base with nothing over it.
    pub fn over(alloc: Global, base: Base) -> Result<Layers, AllocError>
        ensures { IfOk result (λ l. l ≡ record { base = base; top = []; spare = 0 }) }
    {
        let _ = base.len();
        Ok(Layers {
            base,
            top: FlatFacts::new(alloc),
        })
    }

    /// Makes room for this number of further facts. After an error nothing has changed: memory ran
    /// out, or there would be room for 2^32 facts or more over the base.
    pub fn reserve(&mut self, more: usize) -> Result<(), AllocError>
        ensures base { self.new.base ≡ self.old.base }
        ensures top { self.new.top ≡ self.old.top }
        ensures ok { OnOk result (more ≤ self.new.spare) }
        ensures kept { self.old.spare ≤ self.new.spare }
        ensures err { OnErr result (self.new.spare ≡ self.old.spare) }
    {
        self.top.reserve(more)
    }

    /// Adds a fact at the end, and answers its place. It takes no memory and can't fail.
    pub fn insert(&mut self, item: Proved) -> usize
        requires room { 0 < self.old.spare }
        requires absent { IsAbsent (facts_of (whole self.old)) item.fact }
        ensures base { self.new.base ≡ self.old.base }
        ensures top { self.new.top ≡ self.old.top ++ item ∷ [] }
        ensures spare { self.new.spare + 1 ≡ self.old.spare }
        ensures place { result ≡ length (whole self.old) }
    {
        let start = self.base.len() + self.top.len();
        let _ = self.top.insert(item);
        start
    }

    /// Leaves only the base. It takes no memory and can't fail; the room of the facts stays.
    pub fn drop_top(&mut self)
        ensures base { self.new.base ≡ self.old.base }
        ensures top { self.new.top ≡ [] }
        ensures spare { self.new.spare ≡ self.old.spare + length self.old.top }
    {
        self.top.cut(0);
    }

    /// A base of the whole list. The layers below are shared, and only small ones are copied. After
    /// an error the layers are handed back unchanged: memory ran out, or 2^62 facts or more would
    /// lie in the base, or 2^32 or more in one layer.
    pub fn freeze(self, alloc: Global) -> Result<Base, Layers>
        ensures ok { IfOk result (λ b. b ≡ whole self) }
        ensures err { IfErr result (λ l. l ≡ self) }
    {
        let Layers { base, top } = self;
        match with_top(alloc, base, top) {
            Ok(base) => Ok(base),
            Err((base, top)) => Err(Layers { base, top }),
        }
    }
}

impl FactsByPlace for Layers {
    ghost use Rattle.fact_layers.specs.Tops.{whole};

    ghost facts = { whole };

    fn len(&self) -> usize {
        self.base.len() + self.top.len()
    }

    fn at(&self, place: usize) -> Proved {
        let start = self.base.len();
        if place < start {
            self.base.at(place)
        } else {
            self.top.at(place - start)
        }
    }
}

impl Facts for Layers {
    fn find(&self, fact: Fact) -> Option<usize> {
        let start = self.base.len();
        match self.top.find(fact) {
            Some(place) => {
                let _ = self.top.len();
                Some(start + place)
            }
            None => self.base.find(fact),
        }
    }

    fn last(&self, side: FactSide, group: FactGroup, below: usize) -> Option<usize> {
        let start = self.base.len();
        if below <= start {
            return self.base.last(side, group, below);
        }
        match self.top.last(side, group, below - start) {
            Some(place) => Some(start + place),
            None => self.base.last(side, group, below),
        }
    }

    fn next_from(&self, node: u32, after: Option<usize>) -> Option<usize> {
        next_past(self, FactSide::From, node, after)
    }

    fn next_into(&self, node: u32, after: Option<usize>) -> Option<usize> {
        next_past(self, FactSide::Into, node, after)
    }
}
