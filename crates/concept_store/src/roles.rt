//! The roles of two ontologies.

ghost use Rattle.std.specs.Prelude.{◌≡◌, ◌++◌, ◌-◌, ◌<◌, ◌≤◌, ◌^◌, [], map, length, All, IfOk, IfErr, OnOk};
ghost use Rattle.std.specs.List.{range_with_len};
ghost use Rattle.concept_store.specs.declared.types.RoleNode.TheVariants.{Named, Part};
ghost use Rattle.concept_store.specs.Faults.{IsStoreFault};
ghost use Rattle.concept_store.specs.Roles.{HasChain, parts_of, parts_in, roles_of};

use crate::{RoleNode, StoreFault};
use el_logic::{Axiom, Side};
use std::alloc::Global;

// Adds property names.
fn add_names(roles: &mut Vec<RoleNode>, names: u32, most: u32) -> Result<(), StoreFault>
    requires empty { roles.old.items ≡ [] }
    ensures roles { OnOk result (roles.new.items ≡ map Named (range_with_len 0 names)) }
    ensures room { OnOk result (length roles.new.items ≤ most) }
    ensures fault { IfErr result (IsStoreFault ⊥ (most < names)) }
{
    if names > most {
        return Err(StoreFault::Roles);
    }
    for name in 0..names {
        roles.push(RoleNode::Named(name))?;
    }
    Ok(())
}

// Adds the parts of one chain.
fn add_parts(
    roles: &mut Vec<RoleNode>,
    side: Side,
    number: u32,
    count: u32,
    most: u32,
) -> Result<(), StoreFault>
    requires few { count < 2 ^ 31 }
    requires room { length roles.old.items ≤ most }
    ensures roles { OnOk result (roles.new.items ≡
        roles.old.items ++ map (Part side number) (range_with_len 2 count)) }
    ensures room { OnOk result (length roles.new.items ≤ most) }
    ensures fault { IfErr result (IsStoreFault ⊥
        (most < length (roles.old.items ++ map (Part side number) (range_with_len 2 count)))) }
{
    for k in 0..count {
        if roles.len() >= most as usize {
            return Err(StoreFault::Roles);
        }
        roles.push(RoleNode::Part {
            side,
            axiom: number,
            length: k + 2,
        })?;
    }
    Ok(())
}

// Adds the parts of an axiom's chain.
fn add_parts_of(
    roles: &mut Vec<RoleNode>,
    side: Side,
    number: u32,
    axiom: &Axiom,
    most: u32,
) -> Result<(), StoreFault>
    requires chain { HasChain axiom.now }
    requires room { length roles.old.items ≤ most }
    ensures roles { OnOk result (roles.new.items ≡
        roles.old.items ++ parts_of side number axiom.now) }
    ensures room { OnOk result (length roles.new.items ≤ most) }
    ensures fault { IfErr result (IsStoreFault ⊥
        (most < length (roles.old.items ++ parts_of side number axiom.now))) }
{
    match axiom {
        Axiom::SubRole(chain, _) => {
            let count = chain.len().saturating_sub(2) as u32;
            add_parts(roles, side, number, count, most)
        }
        _ => Ok(()),
    }
}

// Adds the parts of the chains of a side.
fn add_side(
    roles: &mut Vec<RoleNode>,
    side: Side,
    axioms: &[Axiom],
    most: u32,
) -> Result<(), StoreFault>
    requires few { length axioms.now < 2 ^ 31 }
    requires chains { All HasChain axioms.now }
    requires room { length roles.old.items ≤ most }
    ensures roles { OnOk result (roles.new.items ≡
        roles.old.items ++ parts_in side 1 axioms.now) }
    ensures room { OnOk result (length roles.new.items ≤ most) }
    ensures fault { IfErr result (IsStoreFault ⊥
        (most < length (roles.old.items ++ parts_in side 1 axioms.now))) }
{
    for (k, axiom) in axioms.iter().enumerate() {
        match add_parts_of(roles, side, k as u32 + 1, axiom, most) {
            Ok(()) => {}
            Err(fault) => return Err(fault),
        }
    }
    Ok(())
}

// All roles.
pub fn list_roles(
    alloc: Global,
    names: u32,
    left: &[Axiom],
    right: &[Axiom],
    most: u32,
) -> Result<Vec<RoleNode>, StoreFault>
    requires left_few { length left.now < 2 ^ 31 }
    requires left_chains { All HasChain left.now }
    requires right_few { length right.now < 2 ^ 31 }
    requires right_chains { All HasChain right.now }
    ensures roles { IfOk result (λ roles. roles.items ≡ roles_of names left.now right.now) }
    ensures room { IfOk result (λ roles. length roles.items ≤ most) }
    ensures fault { IfErr result (IsStoreFault ⊥
        (most < length (roles_of names left.now right.now))) }
{
    let mut roles = Vec::new(alloc);
    match add_names(&mut roles, names, most) {
        Ok(()) => {}
        Err(fault) => return Err(fault),
    }
    match add_side(&mut roles, Side::Left, left, most) {
        Ok(()) => {}
        Err(fault) => return Err(fault),
    }
    match add_side(&mut roles, Side::Right, right, most) {
        Ok(()) => Ok(roles),
        Err(fault) => Err(fault),
    }
}
