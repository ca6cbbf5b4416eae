//! Worked derivations over cases that are made from texts. The crate holds tests alone.
#![tactic(auto)]

#[cfg(test)]
mod models;
#[cfg(test)]
mod rows;
#[cfg(test)]
mod rules;
#[cfg(test)]
mod setting;
#[cfg(test)]
mod traces;
