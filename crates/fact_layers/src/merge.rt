//! Layers shared and merged.

ghost use Rattle.std.specs.Prelude.{◌≡◌, ◌+◌, ◌<◌, ◌≤◌, ◌^◌, ◌++◌, ◌∷◌, [], IfOk, IfErr, OnOk, OnErr, length, take, drop};
ghost use Rattle.fact_table.specs.Lists.{facts_of, AreDistinctFacts};
ghost use Rattle.fact_layers.specs.Inside.Stacks.{AreLayersInOrder, all_items};

use crate::layer::Layer;
use fact_table::{FactsByPlace, FlatFacts};
use std::alloc::{AllocError, Global};
use std::sync::Arc;

// A base has this number of layers at most.
const MOST_LAYERS: usize = 16;

/// Adds the facts of one table to another.
pub fn copy_all(table: &mut FlatFacts, more: &FlatFacts)
    requires room { length more.now.list ≤ table.old.spare }
    requires distinct { AreDistinctFacts (facts_of (table.old.list ++ more.now.list)) }
    ensures list { table.new.list ≡ table.old.list ++ more.now.list }
    ensures spare { table.old.spare ≡ table.new.spare + length more.now.list }
{
    for place in 0..more.len() {
        let item = more.at(place);
        let _ = table.insert(item);
    }
}

/// Adds the facts of the layers from one on to a table.
pub fn copy_layers(table: &mut FlatFacts, layers: &[Layer], first: usize)
    requires first { first ≤ length layers.now }
    requires room { length (all_items (drop first layers.now)) ≤ table.old.spare }
    requires distinct { AreDistinctFacts (facts_of (table.old.list ++
        all_items (drop first layers.now))) }
    ensures list { table.new.list ≡ table.old.list ++ all_items (drop first layers.now) }
    ensures spare { table.old.spare ≡
        table.new.spare + length (all_items (drop first layers.now)) }
{
    for layer in &layers[first..] {
        copy_all(table, layer.table());
    }
}

/// Shares the first layers.
pub fn share_some(alloc: Global, layers: &[Layer], count: usize) -> Result<Vec<Layer>, AllocError>
    requires { count ≤ length layers.now }
    ensures { IfOk result (λ shared. shared.items ≡ take count layers.now) }
{
    let mut shared = Vec::new(alloc);
    for layer in &layers[..count] {
        let one = layer.share()?;
        shared.push(one)?;
    }
    Ok(shared)
}

/// The number of layers that stay as they are under this number of further facts, and the number of
/// facts in the one layer over them. A layer stays if it has more than twice the facts that come
/// over it, and there is room for one more layer.
pub fn kept(layers: &[Layer], top: usize) -> (usize, usize)
    requires small { length (all_items layers.now) + top < 2 ^ 63 }
    ensures first { result.0 ≤ length layers.now }
    ensures shallow { result.0 < 16 }
    ensures size { result.1 ≡ top + length (all_items (drop result.0 layers.now)) }
{
    let mut first = layers.len();
    let mut size = top;
    while first > 0 {
        let len = layers[first - 1].len();
        if first < MOST_LAYERS && len / 2 > size {
            return (first, size);
        }
        first -= 1;
        size += len;
    }
    (first, size)
}

/// Puts a table over the layers, which are moved together. After an error the layers are as before,
/// and the table is handed back.
pub fn push_layer(
    alloc: Global,
    layers: &mut Vec<Layer>,
    total: usize,
    table: FlatFacts,
) -> Result<(), FlatFacts>
    requires small { total + length table.list < 2 ^ 62 }
    ensures ok { OnOk result (layers.new.items ≡
        layers.old.items ++ record { items = table.list; start = total } ∷ []) }
    ensures err { OnErr result (layers.new.items ≡ layers.old.items) }
    ensures back { IfErr result (λ back. back ≡ table) }
{
    let Ok(()) = layers.reserve(1) else {
        return Err(table);
    };
    match Arc::new(alloc, table) {
        Ok(facts) => {
            layers.push_reserved(Layer::new(facts, total));
            Ok(())
        }
        Err(failed) => Err(failed.value),
    }
}

/// One layer of all facts from a layer on, and of more facts.
pub fn merged(
    alloc: Global,
    layers: &[Layer],
    first: usize,
    size: usize,
    top: &FlatFacts,
) -> Result<FlatFacts, AllocError>
    requires first { first ≤ length layers.now }
    requires size { size ≡ length top.now.list + length (all_items (drop first layers.now)) }
    requires distinct { AreDistinctFacts (facts_of (all_items layers.now ++ top.now.list)) }
    ensures { IfOk result (λ table.
        table.list ≡ all_items (drop first layers.now) ++ top.now.list) }
{
    let mut table = FlatFacts::new(alloc);
    table.reserve(size)?;
    copy_layers(&mut table, layers, first);
    copy_all(&mut table, top);
    Ok(table)
}
