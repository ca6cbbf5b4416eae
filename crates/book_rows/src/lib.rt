//! Books of worked rows: down the ranks, and event by event. The crate holds tests alone.
#![tactic(auto)]

#[cfg(test)]
mod diagnosed;
#[cfg(test)]
mod events;
#[cfg(test)]
mod setting;
#[cfg(test)]
mod telling;
