//! Worked texts and files: the case that they have, or its first fault. The crate holds tests alone.
#![tactic(auto)]

#[cfg(test)]
mod loads;
#[cfg(test)]
mod shapes;
