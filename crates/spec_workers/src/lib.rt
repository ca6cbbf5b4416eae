//! Workers that decide the ranks of a case side by side, over one book under a lock.
#![tactic(auto)]

mod ahead;
mod asking;
mod locking;
mod telling;
mod turns;
mod types;
mod working;

pub use types::{WorkEnd, Worked};
pub use working::work;
