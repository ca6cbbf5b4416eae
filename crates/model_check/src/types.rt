//! Why an interpretation is no model of a case.

use fact_table::Source;
use thiserror::Error;

/// Why an interpretation is no model of a case for some ranks.
#[derive(Clone, Copy, Debug, PartialEq, Eq, Error)]
pub enum ModelFault {
    /// It is no interpretation of the names of the case.
    #[error("the form of the model")]
    Form,
    /// This axiom doesn't hold.
    #[error("an axiom doesn't hold")]
    Axiom(Source),
    /// This node must have a member, and has none.
    #[error("a class has no member")]
    Class(u32),
    #[error("out of memory")]
    OutOfMemory,
}
