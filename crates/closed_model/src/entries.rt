//! What facts say of class names and property names, as entries.

ghost use Rattle.std.specs.Prelude.{◌≡◌, ◌++◌, IfOk, OnOk};
ghost use Rattle.std.specs.List.{filter_map};
ghost use Rattle.std.specs.Option.{option_to_list};
ghost use Rattle.fact_table.specs.Lists.{facts_of};
ghost use Rattle.closed_model.specs.Inside.Entries.{element_at, class_of, member_said, pair_said};

use fact_layers::Base;
use fact_table::{Fact, FactsByPlace};
use std::alloc::{AllocError, Global};

// The element that a node is, if it is one.
fn element_at(of_node: &[Option<u32>], node: u32) -> Option<u32>
    ensures { result ≡ element_at of_node.now node }
{
    match of_node.get(node as usize) {
        Some(number) => *number,
        None => None,
    }
}

// The class name that a node stands for, among this number of them.
fn class_of(classes: u32, node: u32) -> Option<u32>
    ensures { result ≡ class_of classes node }
{
    if node < 2 {
        return None;
    }
    let class = node - 2;
    if class < classes { Some(class) } else { None }
}

// A class name and a member of it, if the fact says one.
fn member_said(of_node: &[Option<u32>], classes: u32, fact: Fact) -> Option<(u32, u32)>
    ensures { result ≡ member_said of_node.now classes fact }
{
    match fact {
        Fact::Sub(node, within) => {
            let class = class_of(classes, within)?;
            let element = element_at(of_node, node)?;
            Some((class, element))
        }
        Fact::Link(..) => None,
    }
}

// A property name and a pair of it, if the fact says one.
fn pair_said(of_node: &[Option<u32>], properties: u32, fact: Fact) -> Option<(u32, (u32, u32))>
    ensures { result ≡ pair_said of_node.now properties fact }
{
    match fact {
        Fact::Sub(..) => None,
        Fact::Link(from, role, to) => {
            if role >= properties {
                return None;
            }
            let first = element_at(of_node, from)?;
            let second = element_at(of_node, to)?;
            Some((role, (first, second)))
        }
    }
}

// Adds a value, if there is one.
fn push_some<T: Copy + Drop>(list: &mut Vec<T>, value: Option<T>) -> Result<(), AllocError>
    ensures { OnOk result (list.new.items ≡ list.old.items ++ option_to_list value) }
{
    match value {
        Some(value) => {
            list.push(value)?;
            Ok(())
        }
        None => Ok(()),
    }
}

/// The members of class names that the facts say.
pub fn members_said(
    alloc: Global,
    of_node: &[Option<u32>],
    classes: u32,
    base: &Base,
) -> Result<Vec<(u32, u32)>, AllocError>
    ensures { IfOk result (λ said.
        said.items ≡ filter_map (member_said of_node.now classes) (facts_of base.now)) }
{
    let mut said = Vec::new(alloc);
    for place in 0..base.len() {
        push_some(
            &mut said,
            member_said(of_node, classes, base.at(place).fact),
        )?;
    }
    Ok(said)
}

/// The pairs of property names that the facts say.
pub fn pairs_said(
    alloc: Global,
    of_node: &[Option<u32>],
    properties: u32,
    base: &Base,
) -> Result<Vec<(u32, (u32, u32))>, AllocError>
    ensures { IfOk result (λ said.
        said.items ≡ filter_map (pair_said of_node.now properties) (facts_of base.now)) }
{
    let mut said = Vec::new(alloc);
    for place in 0..base.len() {
        push_some(
            &mut said,
            pair_said(of_node, properties, base.at(place).fact),
        )?;
    }
    Ok(said)
}
