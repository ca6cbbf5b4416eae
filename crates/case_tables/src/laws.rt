//! Laws of the tables: what their entries say, in the words for what axioms say.

ghost use Rattle.std.specs.Prelude.{◌≡◌, ◌≢◌, ℕ, Contains, ◌↔◌};
ghost use Rattle.concept_store.specs.declared.types.Node.TheVariants.{Exists};
ghost use Rattle.concept_store.specs.declared.types.NodeAxiom.{NodeAxiom};
ghost use Rattle.concept_store.specs.Nodes.{IsNode};
ghost use Rattle.el_rules.specs.Saying.{Includes, Separates, IncludesRole, Joins, MakesReflexive, HasDomain};
ghost use Rattle.case_file.specs.Cases.{CaseView};
ghost use Rattle.case_tables.specs.declared.types.Inclusion.{Inclusion};
ghost use Rattle.case_tables.specs.declared.types.RoleInclusion.{RoleInclusion};
ghost use Rattle.case_tables.specs.declared.types.Operand.{Operand};
ghost use Rattle.case_tables.specs.declared.types.Join.{Join};
ghost use Rattle.case_tables.specs.declared.types.RoleDomain.{RoleDomain};
ghost use Rattle.case_tables.specs.declared.types.Reflexive.{Reflexive};
ghost use Rattle.case_tables.specs.declared.types.Whole.{Whole};
ghost use Rattle.case_tables.specs.declared.types.Restriction.{Restriction};
ghost use Rattle.case_tables.specs.Keyed.{of_key};
ghost use Rattle.case_tables.specs.Entries.{inclusions_said, role_inclusions_said, operands_said, joins_said, by_second, domains_said, reflexive_said, wholes_held, restrictions_held, by_role};
ghost use Rattle.case_tables.specs.Tables.{said_in, held_in};
ghost use Rattle.case_tables.specs.Named.{IsNamedIn, IsOperandAt, intersection_of};

/// A node has an entry of the table of inclusions exactly if the axiom that the entry's source
/// names puts the node within the entry's.
pub fn inclusions_are_what_axioms_include()
    ensures { (case : CaseView) (node : ℕ) (entry : Inclusion) →
        Contains (of_key (said_in inclusions_said case) node) entry
        ↔ ((said : NodeAxiom) × IsNamedIn case entry.source said
        × Includes said node entry.into) }
{}

/// A role has an entry of the table of role inclusions exactly if the axiom that the entry's source
/// names puts the role within the entry's.
pub fn role_inclusions_are_what_axioms_include()
    ensures { (case : CaseView) (role : ℕ) (entry : RoleInclusion) →
        Contains (of_key (said_in role_inclusions_said case) role) entry
        ↔ ((said : NodeAxiom) × IsNamedIn case entry.source said
        × IncludesRole said role entry.into) }
{}

/// A node has an entry of the table of operands exactly if the axiom that the entry's source names
/// is a disjointness with the node at the entry's position.
pub fn operands_are_at_their_positions()
    ensures { (case : CaseView) (node : ℕ) (entry : Operand) →
        Contains (of_key (said_in operands_said case) node) entry
        ↔ ((said : NodeAxiom) × IsNamedIn case entry.source said
        × IsOperandAt said entry.position node) }
{}

/// Two nodes are separated by an axiom exactly if they are its operands at two positions.
pub fn operands_at_two_positions_are_separated()
    ensures { (said : NodeAxiom) (one other : ℕ) → Separates said one other
        ↔ ((i j : ℕ) × (i ≢ j) × IsOperandAt said i one × IsOperandAt said j other) }
{}

/// A role has an entry of a table of joins exactly if the axiom that the entry's source names joins
/// the entry's roles, and the role is the first, or the second.
pub fn joins_are_what_axioms_join()
    ensures first { (case : CaseView) (role : ℕ) (entry : Join) →
        Contains (of_key (said_in joins_said case) role) entry
        ↔ ((said : NodeAxiom) × IsNamedIn case entry.source said
        × ((role ≡ entry.first) × Joins said entry.first entry.second entry.into)) }
    ensures second { (case : CaseView) (role : ℕ) (entry : Join) →
        Contains (of_key (by_second (said_in joins_said case)) role) entry
        ↔ ((said : NodeAxiom) × IsNamedIn case entry.source said
        × ((role ≡ entry.second) × Joins said entry.first entry.second entry.into)) }
{}

/// A role has an entry of the table of domains exactly if the axiom that the entry's source names
/// says that the role has the entry's domain, and one of the table of reflexive roles exactly if
/// that axiom makes it reflexive.
pub fn domains_and_reflexive_roles_are_what_axioms_say()
    ensures domains { (case : CaseView) (role : ℕ) (entry : RoleDomain) →
        Contains (of_key (said_in domains_said case) role) entry
        ↔ ((said : NodeAxiom) × IsNamedIn case entry.source said
        × HasDomain said role entry.domain) }
    ensures reflexive { (case : CaseView) (role : ℕ) (entry : Reflexive) →
        Contains (said_in reflexive_said case) (role, entry)
        ↔ ((said : NodeAxiom) × IsNamedIn case entry.source said × MakesReflexive said role) }
{}

/// A node has an entry of the table of wholes exactly if the entry's node is the intersection of
/// the node, at the entry's side, and the entry's other part.
pub fn wholes_are_intersections()
    ensures { (case : CaseView) (node : ℕ) (entry : Whole) →
        Contains (of_key (held_in wholes_held case) node) entry
        ↔ IsNode case.store.nodes entry.node (intersection_of node entry) }
{}

/// A node, or a role, has an entry of a table of restrictions exactly if it is the entry's filler,
/// or role, and the entry's node is what the role leads from into the filler.
pub fn restrictions_are_existentials()
    ensures into { (case : CaseView) (filler : ℕ) (entry : Restriction) →
        Contains (of_key (held_in restrictions_held case) filler) entry
        ↔ ((filler ≡ entry.filler)
        × IsNode case.store.nodes entry.node (Exists entry.role entry.filler)) }
    ensures over { (case : CaseView) (role : ℕ) (entry : Restriction) →
        Contains (of_key (by_role (held_in restrictions_held case)) role) entry
        ↔ ((role ≡ entry.role)
        × IsNode case.store.nodes entry.node (Exists entry.role entry.filler)) }
{}
