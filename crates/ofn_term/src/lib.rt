//! The items of a document in OWL 2 functional-style syntax: tokens, and groups in brackets.
#![tactic(auto)]

mod fault;
mod groups;
mod item;
mod laws;
mod read;
mod tokens;
mod words;

pub use fault::TermFault;
pub use item::{Item, Items};
pub use laws::{
    each_text_has_items_or_one_first_fault, faults_of_brackets_are_told_apart,
    heads_are_told_from_atoms, items_are_written_out, tokens_have_one_list_of_items,
    tokens_of_items_have_their_forms, unclosed_is_the_first_without_a_partner,
};
pub use read::read_items;
pub use words::bytes_of;
