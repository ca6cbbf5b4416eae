//! What an axiom says, as entries.

ghost use Rattle.std.specs.Prelude.{◌≡◌, ◌+◌, ◌++◌, map, IfOk, OnOk};
ghost use Rattle.case_tables.specs.Entries.{each_with_each, operands_from, single_said, led_to, joins_along};

use crate::types::{Inclusion, Join, Operand, Reflexive, RoleDomain, RoleInclusion};
use concept_store::NodeAxiom;
use fact_table::Source;
use std::alloc::AllocError;

/// An entry of a table over axioms.
pub trait SaidEntry: Copy + Drop {
    ghost use Rattle.std.specs.Prelude.{◌≡◌, ◌++◌, ℕ, List, OnOk};
    ghost use Rattle.fact_table.specs.declared.types.Source.{Source};
    ghost use Rattle.concept_store.specs.declared.types.NodeAxiom.{NodeAxiom};

    ghost said: { Source → NodeAxiom → List (ℕ × Self) };

    /// Adds what an axiom says.
    fn put(
        entries: &mut Vec<(u32, Self)>,
        source: Source,
        axiom: &NodeAxiom,
    ) -> Result<(), AllocError>
        ensures { OnOk result (entries.new.items ≡ entries.old.items ++ said source axiom.now) };
}

/// An entry that has one number besides its source.
pub trait IntoEntry: Copy + Drop {
    ghost use Rattle.std.specs.Prelude.{◌≡◌, ℕ};
    ghost use Rattle.fact_table.specs.declared.types.Source.{Source};

    ghost entry: { Source → ℕ → Self };

    fn into_entry(source: Source, into: u32) -> Self
        ensures { result ≡ entry source into };
}

/// The number after one. There is no memory for so many that 32 bits don't count them.
pub fn next_number(number: u32) -> Result<u32, AllocError>
    ensures { IfOk result (λ next. next ≡ number + 1) }
{
    match number.checked_add(1) {
        Some(next) => Ok(next),
        None => Err(AllocError),
    }
}

// Adds each number as the entry of one key.
fn put_all<T: IntoEntry>(
    entries: &mut Vec<(u32, T)>,
    source: Source,
    key: u32,
    numbers: &[u32],
) -> Result<(), AllocError>
    ensures { OnOk result (entries.new.items ≡
        entries.old.items ++ map (λ other. (key, T.entry source other)) numbers.now) }
{
    for other in numbers {
        entries.push((key, T::into_entry(source, *other)))?;
    }
    Ok(())
}

// Adds each number as the entry of each.
fn put_each<T: IntoEntry>(
    entries: &mut Vec<(u32, T)>,
    source: Source,
    numbers: &[u32],
) -> Result<(), AllocError>
    ensures { OnOk result (entries.new.items ≡
        entries.old.items ++ each_with_each (T.entry source) numbers.now) }
{
    for key in numbers {
        put_all(entries, source, *key, numbers)?;
    }
    Ok(())
}

impl IntoEntry for Inclusion {
    ghost use Rattle.case_tables.specs.Entries.{inclusion};

    ghost entry = { inclusion };

    fn into_entry(source: Source, into: u32) -> Inclusion {
        Inclusion { into, source }
    }
}

impl IntoEntry for RoleInclusion {
    ghost use Rattle.case_tables.specs.Entries.{role_inclusion};

    ghost entry = { role_inclusion };

    fn into_entry(source: Source, into: u32) -> RoleInclusion {
        RoleInclusion { into, source }
    }
}

impl SaidEntry for Inclusion {
    ghost use Rattle.case_tables.specs.Entries.{inclusions_said};

    ghost said = { inclusions_said };

    fn put(
        entries: &mut Vec<(u32, Inclusion)>,
        source: Source,
        axiom: &NodeAxiom,
    ) -> Result<(), AllocError> {
        match axiom {
            NodeAxiom::SubClass(low, high) => {
                entries.push((
                    *low,
                    Inclusion {
                        into: *high,
                        source,
                    },
                ))?;
                Ok(())
            }
            NodeAxiom::Equivalent(nodes) => put_each(entries, source, nodes.as_slice()),
            _ => Ok(()),
        }
    }
}

// Adds the operands of a disjointness.
fn put_operands(
    entries: &mut Vec<(u32, Operand)>,
    source: Source,
    nodes: &[u32],
) -> Result<(), AllocError>
    ensures { OnOk result (entries.new.items ≡
        entries.old.items ++ operands_from source 0 nodes.now) }
{
    let mut position = 0;
    for node in nodes {
        entries.push((*node, Operand { position, source }))?;
        position = next_number(position)?;
    }
    Ok(())
}

impl SaidEntry for Operand {
    ghost use Rattle.case_tables.specs.Entries.{operands_said};

    ghost said = { operands_said };

    fn put(
        entries: &mut Vec<(u32, Operand)>,
        source: Source,
        axiom: &NodeAxiom,
    ) -> Result<(), AllocError> {
        match axiom {
            NodeAxiom::Disjoint(nodes) => put_operands(entries, source, nodes.as_slice()),
            _ => Ok(()),
        }
    }
}

// Adds the inclusion that a chain of one role says.
fn put_single(
    entries: &mut Vec<(u32, RoleInclusion)>,
    source: Source,
    chain: &[u32],
    into: u32,
) -> Result<(), AllocError>
    ensures { OnOk result (entries.new.items ≡
        entries.old.items ++ single_said source chain.now into) }
{
    if chain.len() == 1 {
        entries.push((chain[0], RoleInclusion { into, source }))?;
    }
    Ok(())
}

impl SaidEntry for RoleInclusion {
    ghost use Rattle.case_tables.specs.Entries.{role_inclusions_said};

    ghost said = { role_inclusions_said };

    fn put(
        entries: &mut Vec<(u32, RoleInclusion)>,
        source: Source,
        axiom: &NodeAxiom,
    ) -> Result<(), AllocError> {
        match axiom {
            NodeAxiom::SubRole { chain, into, .. } => {
                put_single(entries, source, chain.as_slice(), *into)
            }
            NodeAxiom::EquivalentRoles(roles) => put_each(entries, source, roles.as_slice()),
            _ => Ok(()),
        }
    }
}

// What a join leads to, by whether it is the last of its chain.
fn led_to(rest: &[u32], part: u32, into: u32) -> u32
    ensures { result ≡ led_to rest.now part into }
{
    if rest.is_empty() { into } else { part }
}

// Adds the joins along a chain of which a front was passed.
fn put_joins(
    entries: &mut Vec<(u32, Join)>,
    source: Source,
    passed: u32,
    rest: &[u32],
    first_part: u32,
    into: u32,
) -> Result<(), AllocError>
    ensures { OnOk result (entries.new.items ≡
        entries.old.items ++ joins_along source passed rest.now first_part into) }
{
    let mut first = passed;
    let mut part = first_part;
    for index in 0..rest.len() {
        let second = rest[index];
        let into = led_to(&rest[index + 1..], part, into);
        let join = Join {
            first,
            second,
            into,
            source,
        };
        entries.push((first, join))?;
        first = part;
        part = next_number(part)?;
    }
    Ok(())
}

impl SaidEntry for Join {
    ghost use Rattle.case_tables.specs.Entries.{joins_said};

    ghost said = { joins_said };

    fn put(
        entries: &mut Vec<(u32, Join)>,
        source: Source,
        axiom: &NodeAxiom,
    ) -> Result<(), AllocError> {
        match axiom {
            NodeAxiom::Transitive(role) => {
                let join = Join {
                    first: *role,
                    second: *role,
                    into: *role,
                    source,
                };
                entries.push((*role, join))?;
                Ok(())
            }
            NodeAxiom::SubRole {
                chain,
                into,
                first_part,
            } => match chain.as_slice().split_first() {
                Some((role, rest)) => {
                    put_joins(entries, source, *role, rest, *first_part, *into)
                }
                None => Ok(()),
            },
            _ => Ok(()),
        }
    }
}

impl SaidEntry for RoleDomain {
    ghost use Rattle.case_tables.specs.Entries.{domains_said};

    ghost said = { domains_said };

    fn put(
        entries: &mut Vec<(u32, RoleDomain)>,
        source: Source,
        axiom: &NodeAxiom,
    ) -> Result<(), AllocError> {
        match axiom {
            NodeAxiom::Domain(role, domain) => {
                entries.push((
                    *role,
                    RoleDomain {
                        domain: *domain,
                        source,
                    },
                ))?;
                Ok(())
            }
            _ => Ok(()),
        }
    }
}

impl SaidEntry for Reflexive {
    ghost use Rattle.case_tables.specs.Entries.{reflexive_said};

    ghost said = { reflexive_said };

    fn put(
        entries: &mut Vec<(u32, Reflexive)>,
        source: Source,
        axiom: &NodeAxiom,
    ) -> Result<(), AllocError> {
        match axiom {
            NodeAxiom::Reflexive(role) => {
                entries.push((*role, Reflexive { source }))?;
                Ok(())
            }
            _ => Ok(()),
        }
    }
}
