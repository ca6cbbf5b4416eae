//! The tables of a case.

ghost use Rattle.std.specs.Prelude.{◌≡◌, ℕ, IfOk};
ghost use Rattle.case_tables.specs.Keyed.{at_key, of_key};
ghost use Rattle.case_tables.specs.Tables.{said_in, AreTablesOf};

use crate::collect::{by_role, by_second, held_in, said_in};
use crate::grouped::{Grouped, group};
use crate::said::SaidEntry;
use crate::types::{
    Inclusion, Join, Operand, Reflexive, Restriction, RoleDomain, RoleInclusion, Whole,
};
use case_file::Case;
use std::alloc::{AllocError, Global};
use std::marker::Model;

/// What the axioms and nodes of a case say of each node and role. The entries over axioms have the
/// order of LEFT's axioms, then RIGHT's, then those of the rows by rank; the entries over nodes
/// that of the nodes. All rows have entries: whether a row counts is for the reader to ask.
#[derive(Drop)]
pub struct Tables {
    inclusions: Grouped<Inclusion>,
    operands: Grouped<Operand>,
    wholes: Grouped<Whole>,
    restrictions_into: Grouped<Restriction>,
    role_inclusions: Grouped<RoleInclusion>,
    joins_from: Grouped<Join>,
    joins_by_second: Grouped<Join>,
    domains: Grouped<RoleDomain>,
    restrictions_over: Grouped<Restriction>,
    reflexive: Vec<(u32, Reflexive)>,
}

impl Model for Tables {
    ghost use Rattle.case_tables.specs.Tables.{TableLists};

    ghost Value = { TableLists };

    ghost view = { λ t. record {
      inclusions = t.inclusions;
      operands = t.operands;
      wholes = t.wholes;
      restrictions_into = t.restrictions_into;
      role_inclusions = t.role_inclusions;
      joins_from = t.joins_from;
      joins_by_second = t.joins_by_second;
      domains = t.domains;
      restrictions_over = t.restrictions_over;
      reflexive = t.reflexive.items;
    } };
}

impl Tables {
    /// What a node is within.
    pub fn inclusions(&self, node: u32) -> &[Inclusion]
        ensures { result.now ≡ at_key self.now.inclusions node }
    {
        self.inclusions.with_key(node)
    }

    /// The disjointnesses in which a node is an operand.
    pub fn operands(&self, node: u32) -> &[Operand]
        ensures { result.now ≡ at_key self.now.operands node }
    {
        self.operands.with_key(node)
    }

    /// The intersections of which a node is a part.
    pub fn wholes(&self, node: u32) -> &[Whole]
        ensures { result.now ≡ at_key self.now.wholes node }
    {
        self.wholes.with_key(node)
    }

    /// What a role leads from into a node.
    pub fn restrictions_into(&self, filler: u32) -> &[Restriction]
        ensures { result.now ≡ at_key self.now.restrictions_into filler }
    {
        self.restrictions_into.with_key(filler)
    }

    /// What a role is within.
    pub fn role_inclusions(&self, role: u32) -> &[RoleInclusion]
        ensures { result.now ≡ at_key self.now.role_inclusions role }
    {
        self.role_inclusions.with_key(role)
    }

    /// The joins of which a role is the first.
    pub fn joins_from(&self, first: u32) -> &[Join]
        ensures { result.now ≡ at_key self.now.joins_from first }
    {
        self.joins_from.with_key(first)
    }

    /// The joins of which a role is the second.
    pub fn joins_by_second(&self, second: u32) -> &[Join]
        ensures { result.now ≡ at_key self.now.joins_by_second second }
    {
        self.joins_by_second.with_key(second)
    }

    /// The domains of a role.
    pub fn domains(&self, role: u32) -> &[RoleDomain]
        ensures { result.now ≡ at_key self.now.domains role }
    {
        self.domains.with_key(role)
    }

    /// What a role leads from into any node.
    pub fn restrictions_over(&self, role: u32) -> &[Restriction]
        ensures { result.now ≡ at_key self.now.restrictions_over role }
    {
        self.restrictions_over.with_key(role)
    }

    /// The reflexive roles.
    pub fn reflexive(&self) -> &[(u32, Reflexive)]
        ensures { result.now ≡ self.now.reflexive }
    {
        self.reflexive.as_slice()
    }
}

// What a table over axioms has of each key.
fn group_said<T: SaidEntry>(alloc: Global, case: &Case) -> Result<Grouped<T>, AllocError>
    ensures { IfOk result (λ grouped. (key : ℕ) →
        at_key grouped key ≡ of_key (said_in T.said case.now) key) }
{
    let entries = said_in::<T>(alloc, case)?;
    group(alloc, entries.as_slice())
}

/// The tables of a case. A case with axioms that 32 bits can't count has none, as if memory had
/// run out.
pub fn build_tables(alloc: Global, case: &Case) -> Result<Tables, AllocError>
    ensures { IfOk result (AreTablesOf case.now) }
{
    let joins = said_in::<Join>(alloc, case)?;
    let restrictions = held_in::<Restriction>(alloc, case)?;
    let wholes = held_in::<Whole>(alloc, case)?;
    Ok(Tables {
        inclusions: group_said(alloc, case)?,
        operands: group_said(alloc, case)?,
        wholes: group(alloc, wholes.as_slice())?,
        restrictions_into: group(alloc, restrictions.as_slice())?,
        role_inclusions: group_said(alloc, case)?,
        joins_from: group(alloc, joins.as_slice())?,
        joins_by_second: group(alloc, by_second(alloc, joins.as_slice())?.as_slice())?,
        domains: group_said(alloc, case)?,
        restrictions_over: group(alloc, by_role(alloc, restrictions.as_slice())?.as_slice())?,
        reflexive: said_in(alloc, case)?,
    })
}
