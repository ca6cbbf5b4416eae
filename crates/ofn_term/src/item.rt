//! Items: tokens, and groups in brackets.

use el_logic::ListOf;
use ofn_lex::Token;

/// Items in the order of the text.
pub type Items = ListOf<Item>;

/// A token, or a group: an opening bracket, its partner and the items between the two.
#[derive(Debug, Drop)]
pub enum Item {
    /// A token that is neither a bracket nor the head of a group.
    Atom(Token),
    /// A group, with the word directly before its bracket as its head, if there is one. It takes up
    /// the bytes from `start`, its opening bracket, up to `end`, after its closing one. The head
    /// ends at or before `start`: white space and comments may stand between.
    Group {
        head: Option<Token>,
        items: Items,
        start: usize,
        end: usize,
    },
}
