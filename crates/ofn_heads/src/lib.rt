//! What documents in OWL 2 functional-style syntax say in words: the table of heads, IRIs and
//! prefixes.
#![tactic(auto)]

mod head;
mod iri;
mod laws;
mod outside;
mod prefixes;

pub use head::{Head, head_of};
pub use iri::{Named, iri_between, is_iri, name_of, piece};
pub use laws::{
    heads_are_found_by_their_words, names_of_heads_are_told_apart, pieces_are_of_the_text,
};
pub use outside::HeadId;
pub use prefixes::{declared_prefix, known_prefixes};
