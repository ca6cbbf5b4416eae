//! Whether axioms hold.

ghost use Rattle.std.specs.Prelude.{◌↔◌, IsTrue, IfOk};
ghost use Rattle.el_logic.specs.Meaning.{Holds};
ghost use Rattle.model_members.specs.Lists.{AreOrdered};

use crate::ModelLists;
use crate::classes::{are_disjoint, are_equivalent, has_domain, is_class_within};
use crate::properties::{are_equivalent_properties, is_chain_within, is_reflexive, is_transitive};
use el_logic::{Axiom, holds};
use std::alloc::{AllocError, Global};

/// Whether the axiom holds (OWL 2 direct semantics, section 2.3). The domain is never walked or
/// listed, however large it is. An inclusion costs about the members of its lower class and the
/// pairs that begin at them; other axioms cost the lists of the names that occur, and the pairs of
/// the compositions within a chain.
pub fn holds_by_lists(alloc: Global, lists: &ModelLists, a: &Axiom) -> Result<bool, AllocError>
    requires { AreOrdered lists.now }
    ensures { IfOk result (λ yes. IsTrue yes ↔ Holds lists.now.ordered a.now) }
{
    match a {
        Axiom::SubClass(lower, upper) => is_class_within(alloc, lists, lower, upper),
        Axiom::Equivalent(operands) => are_equivalent(alloc, lists, operands.as_slice()),
        Axiom::Disjoint(operands) => are_disjoint(alloc, lists, operands.as_slice()),
        Axiom::SubRole(chain, upper) => match chain.as_slice().split_first() {
            Some((first, others)) => is_chain_within(alloc, lists, *first, others, *upper),
            // No property has all pairs of the empty chain, and that is told at once.
            None => Ok(holds(&lists.ordered, a)),
        },
        Axiom::EquivalentRoles(operands) => {
            Ok(are_equivalent_properties(lists, operands.as_slice()))
        }
        Axiom::Transitive(role) => Ok(is_transitive(lists, *role)),
        Axiom::Reflexive(role) => is_reflexive(alloc, lists, *role),
        Axiom::Domain(role, class) => has_domain(alloc, lists, *role, class),
    }
}
