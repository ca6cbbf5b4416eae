//! Worked lines of evidence. The crate holds tests alone.
#![tactic(auto)]

#[cfg(test)]
mod lines;
