//! The tokens of a document in OWL 2 functional-style syntax, one at a time.
#![tactic(auto)]

mod bytes;
mod ends;
mod laws;
mod next;
mod token;

pub use laws::{
    each_text_has_one_list_of_tokens, first_bytes_tell_the_kind,
    forms_are_the_same_for_characters_and_bytes, least_forms_are_told_apart,
    tokens_have_their_forms, what_is_read_is_what_the_format_has,
};
pub use next::next_token;
pub use token::{LexFault, Token, TokenKind};
