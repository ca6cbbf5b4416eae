//! Workers over the book of one worked row, and what is left of it. The crate holds tests alone.
#![tactic(auto)]

#[cfg(test)]
mod finished;
#[cfg(test)]
mod journals;
#[cfg(test)]
mod setting;
#[cfg(test)]
mod worked;
