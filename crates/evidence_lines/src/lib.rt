//! The lines of evidence: how each kind is spelled, written and read.
#![tactic(auto)]

mod events;
mod first;
mod laws;
mod model;
mod names;
mod omitted;
mod put;
mod put_events;
mod put_first;
mod put_model;
mod rules;
mod steps;
mod types;

pub use events::entry_of;
pub use first::{count_of, is_last, is_other_version, is_version, kind_of, row_of, size_of};
pub use laws::{
    entry_lines, first_lines, model_lines, node_lines, omitted_lines, role_lines, step_lines,
};
pub use model::{members_of, pairs_of};
pub use names::{node_of, role_of, side_in};
pub use omitted::{omitted_before, omitted_of};
pub use put::{put_node, put_omitted, put_role, put_step};
pub use put_events::put_entry;
pub use put_first::{put_end, put_kind, put_numbered, put_row, put_version};
pub use put_model::{put_members, put_pairs};
pub use steps::step_of;
pub use types::{Kind, NodeLine, NodeLines, RoleLine, RoleLines, SidedOmitted};
