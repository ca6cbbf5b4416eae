//! The steps of a derivation.

use el_logic::ListOf;
use fact_table::{Fact, Rule, Source};

/// One step of a derivation.
// The fields go from the widest to the smallest, since memory has their order.
#[derive(Clone, Copy, Debug, PartialEq, Eq)]
pub struct Step {
    /// The number, from 1, of the step that has the first premise. A number that the rule does not
    /// name is 0.
    pub first: usize,
    /// The number, from 1, of the step that has the second premise.
    pub second: usize,
    pub fact: Fact,
    pub source: Source,
    pub rule: Rule,
}

/// Steps, each from earlier ones. They are numbered from 1.
pub type Derivation = ListOf<Step>;

/// Why a derivation shows nothing.
#[derive(Clone, Copy, Debug, PartialEq, Eq)]
pub enum BadStep {
    /// The step with this number, from 1, is the first that no rule gives.
    Step(usize),
    /// Each step is good, but the last does not say that a class that must have a member is empty.
    Goal,
}
