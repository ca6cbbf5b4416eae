//! Look-ups through layers.

ghost use Rattle.std.specs.Prelude.{◌≡◌, ◌<◌, Some, length, slice_get};
ghost use Rattle.fact_table.specs.Groups.{group_at};
ghost use Rattle.fact_table.specs.Lists.{facts_of};
ghost use Rattle.fact_table.specs.Places.{IsFoundAt, IsLastBelow};
ghost use Rattle.fact_layers.specs.Inside.Stacks.{AreLayersInOrder, all_items};

use crate::layer::Layer;
use fact_table::{Fact, FactGroup, FactSide, Proved};

/// The place of a fact. The oldest layer comes first: it is the largest, and most facts are there.
pub fn find_through(layers: &[Layer], fact: Fact) -> Option<usize>
    requires { AreLayersInOrder layers.now }
    ensures { IsFoundAt (facts_of (all_items layers.now)) fact result }
{
    for layer in layers {
        match layer.find(fact) {
            Some(place) => return Some(place),
            None => {}
        }
    }
    None
}

/// The item at a place.
pub fn at_through(layers: &[Layer], place: usize) -> Proved
    requires in_place { AreLayersInOrder layers.now }
    requires within { place < length (all_items layers.now) }
    ensures { slice_get (all_items layers.now) place ≡ Some result }
{
    let mut left = layers.len();
    while left > 0 {
        left -= 1;
        let layer = &layers[left];
        if layer.start() <= place {
            return layer.at(place);
        }
    }
    unreachable!()
}

/// The last place below a bound whose fact is of the group. The newest layer comes first. Layers
/// that begin at the bound or after it cost one comparison each.
pub fn last_through(
    layers: &[Layer],
    side: FactSide,
    group: FactGroup,
    below: usize,
) -> Option<usize>
    requires { AreLayersInOrder layers.now }
    ensures { IsLastBelow (group_at side) (facts_of (all_items layers.now)) group below result }
{
    let mut left = layers.len();
    while left > 0 {
        left -= 1;
        let layer = &layers[left];
        match layer.last(side, group, below) {
            Some(place) => return Some(place),
            None => {}
        }
    }
    None
}
