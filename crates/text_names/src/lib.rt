//! Texts and bytes, which contracts see as lists of bytes, and what is built of only these: places,
//! prefixes, numbered names, and the limits of the input.
#![tactic(auto)]

mod bytes;
mod laws;
mod limits;
mod names;
mod place;
mod prefixes;
mod text;

pub use bytes::Bytes;
pub use laws::{names_stay_distinct, numbers_stay, places_ascend};
pub use limits::Limits;
pub use names::{NameFault, NameTable};
pub use place::{Place, place_of};
pub use prefixes::{PrefixFault, PrefixMap};
pub use text::{Text, TextFault};
