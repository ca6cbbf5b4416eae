//! Worked documents: what each reads as, or its first fault. The crate holds tests alone.
#![tactic(auto)]

#[cfg(test)]
mod texts;
