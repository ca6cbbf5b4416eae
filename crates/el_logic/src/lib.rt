//! Class expressions and axioms of the description logic EL, and what they mean.
#![tactic(auto)]

mod evaluate;
mod laws;
mod types;

pub use evaluate::{holds, is_interpretation, member};
pub use laws::{
    a_model_with_members_shows_coherence, below_nothing_is_empty, chains_have_their_direction,
    class_axioms_are_told_apart, class_axioms_have_their_direction,
    equivalent_classes_have_the_same_members, equivalent_properties_have_the_same_pairs,
    members_are_elements, members_of_a_restriction, members_of_an_intersection,
    more_axioms_keep_a_class_empty, more_axioms_stay_incoherent, property_axioms_are_told_apart,
    single_properties_have_their_meaning, thing_is_never_empty,
};
pub use sqlite_items::Boxed;
pub use types::{
    Axiom, Axioms, Expr, Exprs, Interp, ListOf, MemberLists, Numbers, PairLists, Pairs, Part, Side,
};
