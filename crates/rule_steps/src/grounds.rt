//! What facts are derived from.

use crate::parts::{has_left, has_rank, has_right};
use case_file::Case;
use case_tables::{
    Inclusion, Join, Operand, Reflexive, Restriction, RoleDomain, RoleInclusion, Tables, Whole,
    domains_and_reflexive_roles_are_what_axioms_say, inclusions_are_what_axioms_include,
    joins_are_what_axioms_join, operands_are_at_their_positions, restrictions_are_existentials,
    role_inclusions_are_what_axioms_include, wholes_are_intersections,
};
use concept_store::{Node, Store};
use el_logic::Part;
use fact_table::Source;
use std::marker::Model;

/// A case with its tables, the part of its documents whose axioms count, and the ranks of the rows
/// that count.
#[derive(Drop)]
pub struct Grounds<'a> {
    case: &'a Case,
    tables: &'a Tables,
    part: Part,
    ranks: &'a [u32],
}

impl<'a> Model for Grounds<'a> {
    ghost use Rattle.case_tables.specs.Tables.{AreTablesOf};
    ghost use Rattle.case_file.specs.Cases.{AreRanksOf};
    ghost use Rattle.rule_steps.specs.Counted.{GroundsView};
    ghost use Rattle.rule_steps.specs.Inside.Codes.{grounds_code};

    ghost Value = { GroundsView };

    ghost coded = { grounds_code };

    ghost view = { λ g. record { case = g.case.now; part = g.part; ranks = g.ranks.now } };

    ghost invariant = { λ g. AreTablesOf g.case.now g.tables.now
        × AreRanksOf g.case.now g.ranks.now };
}

impl<'a> Grounds<'a> {
    ghost use Rattle.std.specs.Prelude.{◌≡◌, ◌↔◌, ℕ, Contains, IsTrue, slice_get};
    ghost use Rattle.concept_store.specs.Nodes.{IsNode};
    ghost use Rattle.concept_store.specs.declared.types.Node.TheVariants.{Exists};
    ghost use Rattle.el_rules.specs.Saying.{Includes, IncludesRole, Joins, HasDomain, MakesReflexive};
    ghost use Rattle.case_tables.specs.Named.{IsOperandAt, intersection_of};
    ghost use Rattle.case_tables.specs.Tables.{AreTablesOf};
    ghost use Rattle.case_tables.specs.declared.types.Restriction.{Restriction};
    ghost use Rattle.case_tables.specs.declared.types.Whole.{Whole};
    ghost use Rattle.case_file.specs.Cases.{AreRanksOf};
    ghost use Rattle.rule_steps.specs.Counted.{IsCounting};
    ghost use Rattle.rule_steps.specs.Inside.Entries.{AreEntriesOf};

    /// The grounds of a case, its tables, a part and ranks.
    pub fn new(case: &'a Case, tables: &'a Tables, part: Part, ranks: &'a [u32]) -> Grounds<'a>
        requires tables { AreTablesOf case.now tables.now }
        requires ranks { AreRanksOf case.now ranks.now }
        ensures { result ≡ record { case = case.now; part = part; ranks = ranks.now } }
    {
        Grounds {
            case,
            tables,
            part,
            ranks,
        }
    }

    /// Whether axioms of a source count.
    pub fn counts(&self, source: Source) -> bool
        ensures { IsTrue result ↔ IsCounting self.now source }
    {
        match source {
            Source::Left(_) => has_left(self.part),
            Source::Right(_) => has_right(self.part),
            Source::Row { rank, .. } => has_rank(self.ranks, rank),
            Source::Nothing => false,
        }
    }

    /// The case.
    pub fn case(&self) -> &Case
        ensures { result.now ≡ self.now.case }
    {
        self.case
    }

    /// The nodes and roles.
    pub fn store(&self) -> &Store
        ensures { result.now ≡ self.now.case.store }
    {
        self.case.store()
    }

    /// The node with a number.
    pub(crate) fn node(&self, n: u32) -> Option<Node>
        ensures { result ≡ slice_get self.now.case.store.nodes n }
    {
        let store = self.case.store();
        if n < store.nodes() {
            Some(store.node(n))
        } else {
            None
        }
    }

    /// What a node is within.
    pub(crate) fn inclusions(&self, node: u32) -> &[Inclusion]
        ensures { AreEntriesOf self.now (λ e. e.source)
            (λ e said. Includes said node e.into) result.now }
    {
        inclusions_are_what_axioms_include();
        self.tables.inclusions(node)
    }

    /// The disjointnesses in which a node is an operand.
    pub(crate) fn operands(&self, node: u32) -> &[Operand]
        ensures { AreEntriesOf self.now (λ e. e.source)
            (λ e said. IsOperandAt said e.position node) result.now }
    {
        operands_are_at_their_positions();
        self.tables.operands(node)
    }

    /// What a role is within.
    pub(crate) fn role_inclusions(&self, role: u32) -> &[RoleInclusion]
        ensures { AreEntriesOf self.now (λ e. e.source)
            (λ e said. IncludesRole said role e.into) result.now }
    {
        role_inclusions_are_what_axioms_include();
        self.tables.role_inclusions(role)
    }

    /// The domains of a role.
    pub(crate) fn domains(&self, role: u32) -> &[RoleDomain]
        ensures { AreEntriesOf self.now (λ e. e.source)
            (λ e said. HasDomain said role e.domain) result.now }
    {
        domains_and_reflexive_roles_are_what_axioms_say();
        self.tables.domains(role)
    }

    /// The reflexive roles.
    pub(crate) fn reflexive(&self) -> &[(u32, Reflexive)]
        ensures { AreEntriesOf self.now (λ e. e.1.source)
            (λ e said. MakesReflexive said e.0) result.now }
    {
        domains_and_reflexive_roles_are_what_axioms_say();
        self.tables.reflexive()
    }

    /// The joins of which a role is the first.
    pub(crate) fn joins_from(&self, role: u32) -> &[Join]
        ensures { AreEntriesOf self.now (λ e. e.source)
            (λ e said. (role ≡ e.first) × Joins said e.first e.second e.into) result.now }
    {
        joins_are_what_axioms_join();
        self.tables.joins_from(role)
    }

    /// The joins of which a role is the second.
    pub(crate) fn joins_by_second(&self, role: u32) -> &[Join]
        ensures { AreEntriesOf self.now (λ e. e.source)
            (λ e said. (role ≡ e.second) × Joins said e.first e.second e.into) result.now }
    {
        joins_are_what_axioms_join();
        self.tables.joins_by_second(role)
    }

    /// The intersections of which a node is a part.
    pub(crate) fn wholes(&self, node: u32) -> &[Whole]
        ensures { (entry : Whole) → Contains result.now entry
            ↔ IsNode self.now.case.store.nodes entry.node (intersection_of node entry) }
    {
        wholes_are_intersections();
        self.tables.wholes(node)
    }

    /// What a role leads from into a node.
    pub(crate) fn restrictions_into(&self, filler: u32) -> &[Restriction]
        ensures { (entry : Restriction) → Contains result.now entry ↔ ((filler ≡ entry.filler)
            × IsNode self.now.case.store.nodes entry.node (Exists entry.role entry.filler)) }
    {
        restrictions_are_existentials();
        self.tables.restrictions_into(filler)
    }
}
