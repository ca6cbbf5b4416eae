//! Facts that leave a node empty that must have a member.

ghost use Rattle.std.specs.Prelude.{◌≡◌, ◌↔◌, ◌<◌, IsTrue, MatchOption, length};
ghost use Rattle.rule_steps.specs.Growing.{facts_in};
ghost use Rattle.saturate.specs.Inside.Clashes.{IsClash, HasClashAt, AreLiveWithin, AreLiveNodes, IsFirstClash};

use case_file::Case;
use fact_layers::Layers;
use fact_table::{Fact, Facts, FactsByPlace};

// Whether a fact puts a node that must have a member within `owl:Nothing`.
fn is_clash(case: &Case, fact: Fact) -> bool
    ensures { IsTrue result ↔ IsClash case.now fact }
{
    match fact {
        Fact::Sub(node, 1) => case.is_must_have(node),
        _ => false,
    }
}

/// The first place from one on whose fact puts a node that must have a member within `owl:Nothing`.
pub fn clash_from(case: &Case, layers: &Layers, from: usize) -> Option<usize>
    ensures { MatchOption result
        (AreLiveWithin case.now from (length (facts_in layers.now)) (facts_in layers.now))
        (HasClashAt case.now (facts_in layers.now)) }
{
    for place in from..layers.len() {
        if is_clash(case, layers.at(place).fact) {
            return Some(place);
        }
    }
    None
}

/// The first node that must have a member and is put within `owl:Nothing`, with the place of that
/// fact.
pub fn first_clash(case: &Case, layers: &Layers) -> Option<(u32, usize)>
    ensures { MatchOption result
        (AreLiveNodes case.now (length case.now.store.nodes) (facts_in layers.now))
        (λ found. IsFirstClash case.now (facts_in layers.now) found.0 found.1) }
{
    for node in 0..case.store().nodes() {
        if !case.is_must_have(node) {
            continue;
        }
        match layers.find(Fact::Sub(node, 1)) {
            Some(place) => return Some((node, place)),
            None => {}
        }
    }
    None
}
