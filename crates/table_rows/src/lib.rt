//! Worked tables: their rows, their faults, and the axioms of rows. The crate holds tests alone.
#![tactic(auto)]

#[cfg(test)]
mod predicates;
#[cfg(test)]
mod tables;
