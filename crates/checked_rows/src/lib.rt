//! Worked rows of the checker: whole checks over files in memory. The crate holds tests alone.
#![tactic(auto)]

#[cfg(test)]
mod faults;
#[cfg(test)]
mod items;
#[cfg(test)]
mod setting;
#[cfg(test)]
mod whole;
