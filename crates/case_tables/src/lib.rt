//! Look-up tables over a numbered case: what its axioms and nodes say of each node and role.
#![tactic(auto)]

mod collect;
mod grouped;
mod held;
mod laws;
mod said;
mod tables;
mod types;

pub use laws::{
    domains_and_reflexive_roles_are_what_axioms_say, inclusions_are_what_axioms_include,
    joins_are_what_axioms_join, operands_are_at_their_positions,
    operands_at_two_positions_are_separated, restrictions_are_existentials,
    role_inclusions_are_what_axioms_include, wholes_are_intersections,
};
pub use tables::{Tables, build_tables};
pub use types::{
    Inclusion, Join, Operand, Reflexive, Restriction, RoleDomain, RoleInclusion, Whole,
};
