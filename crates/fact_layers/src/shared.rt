//! The base: facts that are shared and never change.

ghost use Rattle.std.specs.Prelude.{◌≡◌, ◌+◌, ◌<◌, ◌≤◌, ◌^◌, ◌++◌, IfOk, IfErr, length, drop};
ghost use Rattle.fact_table.specs.Lists.{facts_of, AreDistinctFacts};
ghost use Rattle.fact_layers.specs.Inside.Stacks.{IsBase, all_items};

use crate::layer::Layer;
use crate::merge::{kept, merged, push_layer, share_some};
use crate::through::{at_through, find_through, last_through};
use fact_table::{Fact, FactGroup, FactSide, Facts, FactsByPlace, FlatFacts, Proved, next_past};
use std::alloc::{AllocError, Global};
use std::marker::Model;

// A base has fewer facts than this.
const MOST_FACTS: usize = 4_611_686_018_427_387_904;

/// Facts that are shared and never change. They lie in at most sixteen layers, the oldest first,
/// most of them at least twice as large as the next.
#[derive(Drop)]
pub struct Base {
    layers: Vec<Layer>,
    total: usize,
}

impl Model for Base {
    ghost use Rattle.std.specs.Prelude.{List};
    ghost use Rattle.fact_table.specs.declared.types.Proved.{Proved};
    ghost use Rattle.fact_layers.specs.Inside.Stacks.{IsBase, all_items};

    ghost Value = { List Proved };

    ghost view = { λ b. all_items b.layers.items };

    ghost invariant = { λ b. IsBase b.layers.items b.total };
}

impl Base {
    ghost use Rattle.std.specs.Prelude.{◌≡◌, ◌+◌, ◌<◌, ◌≤◌, ◌^◌, ◌++◌, [], IfOk, List, length};

    /// No facts.
    pub fn empty(alloc: Global) -> Result<Base, AllocError>
        ensures { IfOk result (λ b. b ≡ []) }
    {
        Ok(Base {
            layers: Vec::new(alloc),
            total: 0,
        })
    }

    /// The same facts, which are not copied.
    pub fn share(&self, alloc: Global) -> Result<Base, AllocError>
        ensures { IfOk result (λ b. b ≡ self.now) }
    {
        let layers = share_some(alloc, self.layers.as_slice(), self.layers.len())?;
        Ok(Base {
            layers,
            total: self.total,
        })
    }

    /// The number of layers that the facts lie in.
    pub fn depth(&self) -> usize
        ensures { result ≤ 16 }
    {
        self.layers.len()
    }
}

/// A base with more facts, which are moved into a layer of their own or copied into one together
/// with the smaller layers. After an error the base and the facts are handed back.
pub fn with_top(alloc: Global, base: Base, top: FlatFacts) -> Result<Base, (Base, FlatFacts)>
    requires { AreDistinctFacts (facts_of (base ++ top.list)) }
    ensures ok { IfOk result (λ b. b ≡ base ++ top.list) }
    ensures err { IfErr result (λ back. (back.0 ≡ base) × (back.1 ≡ top)) }
{
    let len = top.len();
    if len == 0 {
        return Ok(base);
    }
    let Base { layers, total } = base;
    if total + len >= MOST_FACTS {
        return Err((Base { layers, total }, top));
    }
    let (first, size) = kept(layers.as_slice(), len);
    if first == layers.len() {
        return moved(alloc, layers, total, top);
    }
    match joined(alloc, layers.as_slice(), total, first, size, &top) {
        Ok(base) => Ok(base),
        Err(_) => Err((Base { layers, total }, top)),
    }
}

// The layers with one more, which is moved.
fn moved(
    alloc: Global,
    mut layers: Vec<Layer>,
    total: usize,
    top: FlatFacts,
) -> Result<Base, (Base, FlatFacts)>
    requires base { IsBase layers.items total }
    requires shallow { length layers.items < 16 }
    requires small { total + length top.list < 2 ^ 62 }
    requires distinct { AreDistinctFacts (facts_of (all_items layers.items ++ top.list)) }
    ensures ok { IfOk result (λ b. b ≡ all_items layers.items ++ top.list) }
    ensures err { IfErr result (λ back. (back.0 ≡ all_items layers.items) × (back.1 ≡ top)) }
{
    let len = top.len();
    match push_layer(alloc, &mut layers, total, top) {
        Ok(()) => Ok(Base {
            layers,
            total: total + len,
        }),
        Err(top) => Err((Base { layers, total }, top)),
    }
}

// The first layers as they are, and one more, into which the facts of the others and more facts are
// copied.
fn joined(
    alloc: Global,
    layers: &[Layer],
    total: usize,
    first: usize,
    size: usize,
    top: &FlatFacts,
) -> Result<Base, AllocError>
    requires base { IsBase layers.now total }
    requires first { first < 16 }
    requires within { first ≤ length layers.now }
    requires size { size ≡ length top.now.list + length (all_items (drop first layers.now)) }
    requires small { total + length top.now.list < 2 ^ 62 }
    requires distinct { AreDistinctFacts (facts_of (all_items layers.now ++ top.now.list)) }
    ensures { IfOk result (λ b. b ≡ all_items layers.now ++ top.now.list) }
{
    let whole = total + top.len();
    let table = merged(alloc, layers, first, size, top)?;
    let mut shared = share_some(alloc, layers, first)?;
    match push_layer(alloc, &mut shared, whole - size, table) {
        Ok(()) => Ok(Base {
            layers: shared,
            total: whole,
        }),
        Err(_) => Err(AllocError),
    }
}

impl FactsByPlace for Base {
    ghost use Rattle.std.specs.Prelude.{◌≡◌, ◌<◌, ◌^◌, length};
    ghost use Rattle.fact_table.specs.Lists.{AreDistinctFacts, facts_of};

    ghost facts = { λ b. b };

    fn len(&self) -> usize
        ensures count { result ≡ length self.now }
        ensures distinct { AreDistinctFacts (facts_of self.now) }
        ensures small { result < 2 ^ 62 }
    {
        self.total
    }

    fn at(&self, place: usize) -> Proved {
        at_through(self.layers.as_slice(), place)
    }
}

impl Facts for Base {
    fn find(&self, fact: Fact) -> Option<usize> {
        find_through(self.layers.as_slice(), fact)
    }

    fn last(&self, side: FactSide, group: FactGroup, below: usize) -> Option<usize> {
        last_through(self.layers.as_slice(), side, group, below)
    }

    fn next_from(&self, node: u32, after: Option<usize>) -> Option<usize> {
        next_past(self, FactSide::From, node, after)
    }

    fn next_into(&self, node: u32, after: Option<usize>) -> Option<usize> {
        next_past(self, FactSide::Into, node, after)
    }
}
