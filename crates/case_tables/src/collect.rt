//! The entries of a whole case.

ghost use Rattle.std.specs.Prelude.{◌≡◌, ◌++◌, flat_map, map, IfOk, OnOk};
ghost use Rattle.case_tables.specs.Keyed.{numbered_from};
ghost use Rattle.case_tables.specs.Entries.{by_second, by_role};
ghost use Rattle.case_tables.specs.Tables.{said_in, held_in};
ghost use Rattle.case_tables.specs.Inside.Origins.{source_at};

use crate::held::HeldEntry;
use crate::said::{SaidEntry, next_number};
use crate::types::{Join, Restriction};
use case_file::Case;
use concept_store::NodeAxiom;
use fact_table::Source;
use std::alloc::{AllocError, Global};

// Where axioms are from.
#[derive(Clone, Copy)]
enum Origin {
    Left,
    Right,
    Row(u32),
}

// The axiom there with this number.
fn source_at(origin: Origin, number: u32) -> Source
    ensures { result ≡ source_at origin number }
{
    match origin {
        Origin::Left => Source::Left(number),
        Origin::Right => Source::Right(number),
        Origin::Row(rank) => Source::Row { rank, number },
    }
}

// Adds what axioms say.
fn put_said<T: SaidEntry>(
    entries: &mut Vec<(u32, T)>,
    origin: Origin,
    axioms: &[NodeAxiom],
) -> Result<(), AllocError>
    ensures { OnOk result (entries.new.items ≡ entries.old.items
        ++ flat_map (λ named. T.said named.0 named.1)
        (numbered_from (source_at origin) 1 axioms.now)) }
{
    let mut number = 1;
    for axiom in axioms {
        T::put(entries, source_at(origin, number), axiom)?;
        number = next_number(number)?;
    }
    Ok(())
}

/// What the axioms of a case say.
pub fn said_in<T: SaidEntry>(alloc: Global, case: &Case) -> Result<Vec<(u32, T)>, AllocError>
    ensures { IfOk result (λ entries. entries.items ≡ said_in T.said case.now) }
{
    let mut entries = Vec::new(alloc);
    put_said(&mut entries, Origin::Left, case.store().left())?;
    put_said(&mut entries, Origin::Right, case.store().right())?;
    for rank in 0..case.ranks() {
        put_said(&mut entries, Origin::Row(rank), case.over_of(rank))?;
    }
    Ok(entries)
}

/// What the nodes of a case are made of.
pub fn held_in<T: HeldEntry>(alloc: Global, case: &Case) -> Result<Vec<(u32, T)>, AllocError>
    ensures { IfOk result (λ entries. entries.items ≡ held_in T.held case.now) }
{
    let mut entries = Vec::new(alloc);
    let store = case.store();
    for number in 0..store.nodes() {
        T::put(&mut entries, number, store.node(number))?;
    }
    Ok(entries)
}

/// The same joins, by their second role.
pub fn by_second(alloc: Global, joins: &[(u32, Join)]) -> Result<Vec<(u32, Join)>, AllocError>
    ensures { IfOk result (λ entries. entries.items ≡ by_second joins.now) }
{
    let mut entries = Vec::with_capacity(alloc, joins.len())?;
    for pair in joins {
        entries.push((pair.1.second, pair.1))?;
    }
    Ok(entries)
}

/// The same restrictions, by their role.
pub fn by_role(
    alloc: Global,
    restrictions: &[(u32, Restriction)],
) -> Result<Vec<(u32, Restriction)>, AllocError>
    ensures { IfOk result (λ entries. entries.items ≡ by_role restrictions.now) }
{
    let mut entries = Vec::with_capacity(alloc, restrictions.len())?;
    for pair in restrictions {
        entries.push((pair.1.role, pair.1))?;
    }
    Ok(entries)
}
