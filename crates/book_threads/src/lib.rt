//! A book may be sent to a thread, so it may stand under a lock that workers share.
#![tactic(auto)]

mod passing;

pub use passing::passes_through;
