//! Tables of facts in layers: a shared base, and a top over it that can be given up.
#![tactic(auto)]

mod layer;
mod merge;
mod shared;
#[cfg(test)]
mod tests;
mod through;
mod topped;

pub use shared::Base;
pub use topped::Layers;
