//! The fourteen rules of saturation over the nodes and roles of a case, and what follows by them.
#![tactic(auto)]

mod laws;

pub use laws::{
    closed_facts_have_a_model, closed_facts_stay_closed_for_fewer_axioms,
    facts_are_found_where_they_are, more_facts_give_more,
    rules_keep_facts_true, rules_on_classes_give_their_facts, rules_on_properties_give_their_facts,
    rules_without_axioms_give_their_facts, what_follows_is_true,
};
