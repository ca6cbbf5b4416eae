//! Worked rows: which rows are kept, and which class is empty first. The crate holds tests alone.
#![tactic(auto)]

#[cfg(test)]
mod blocks;
#[cfg(test)]
mod incoherent;
#[cfg(test)]
mod kept;
#[cfg(test)]
mod models;
#[cfg(test)]
mod rules;
#[cfg(test)]
mod setting;
#[cfg(test)]
mod whole;
