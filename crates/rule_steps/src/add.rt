//! Adding a fact that follows.

ghost use Rattle.std.specs.Prelude.{◌↔◌, Contains, IsTrue, OnOk, length};
ghost use Rattle.fact_layers.specs.Tops.{whole};
ghost use Rattle.rule_steps.specs.Counted.{IsCounting, IsSince};
ghost use Rattle.rule_steps.specs.Growing.{facts_in, HasGrown};
ghost use Rattle.rule_steps.specs.Inside.Steps.{IsDerivedFrom, IsLinkWithin};

use crate::Grounds;
use fact_layers::Layers;
use fact_table::{Fact, Facts, Proved, Source};
use std::alloc::AllocError;

// Whether a fact, if it is a link, is by a role of the case.
fn is_over_roles(grounds: &Grounds, fact: Fact) -> bool
    ensures { IsTrue result → IsLinkWithin (length grounds.now.case.store.roles) fact }
{
    match fact {
        Fact::Sub(_, _) => true,
        Fact::Link(_, role, _) => role < grounds.store().roles(),
    }
}

// Whether a source is a row with this rank or a later one; if no rank is given, any is.
fn is_since(source: Source, first: Option<u32>) -> bool
    ensures { IsTrue result ↔ IsSince first source }
{
    match first {
        None => true,
        Some(first) => match source {
            Source::Row { rank, .. } => first <= rank,
            _ => false,
        },
    }
}

/// Adds a fact that follows, if it is not there. After an error nothing has changed: memory ran
/// out, or the fact is a link by a role that the case doesn't have.
pub fn add(grounds: &Grounds, layers: &mut Layers, item: Proved) -> Result<(), AllocError>
    requires { IsDerivedFrom grounds.now (whole layers.old) item }
    ensures grown { HasGrown grounds.now layers.old layers.new }
    ensures there { OnOk result (Contains (facts_in layers.new) item.fact) }
{
    if layers.find(item.fact).is_some() {
        return Ok(());
    }
    if !is_over_roles(grounds, item.fact) {
        return Err(AllocError);
    }
    layers.reserve(1)?;
    let _ = layers.insert(item);
    Ok(())
}

/// Adds a fact if its source counts and is a row with the first rank or a later one.
pub fn add_counted(
    grounds: &Grounds,
    layers: &mut Layers,
    first: Option<u32>,
    item: Proved,
) -> Result<(), AllocError>
    requires { IsSince first item.reason.source → IsCounting grounds.now item.reason.source
        → IsDerivedFrom grounds.now (whole layers.old) item }
    ensures grown { HasGrown grounds.now layers.old layers.new }
    ensures there { OnOk result (IsSince first item.reason.source
        → IsCounting grounds.now item.reason.source → Contains (facts_in layers.new) item.fact) }
{
    if !is_since(item.reason.source, first) {
        return Ok(());
    }
    if !grounds.counts(item.reason.source) {
        return Ok(());
    }
    add(grounds, layers, item)
}
