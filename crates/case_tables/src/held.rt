//! What a node is made of, as entries.

use crate::types::{Restriction, Whole};
use concept_store::Node;
use std::alloc::AllocError;

/// An entry of a table over nodes.
pub trait HeldEntry: Copy + Drop {
    ghost use Rattle.std.specs.Prelude.{◌≡◌, ◌++◌, ℕ, List, OnOk};
    ghost use Rattle.concept_store.specs.declared.types.Node.{Node};

    ghost held: { ℕ → Node → List (ℕ × Self) };

    /// Adds what the node with a number is made of.
    fn put(entries: &mut Vec<(u32, Self)>, number: u32, node: Node) -> Result<(), AllocError>
        ensures { OnOk result (entries.new.items ≡ entries.old.items ++ held number node) };
}

impl HeldEntry for Whole {
    ghost use Rattle.case_tables.specs.Entries.{wholes_held};

    ghost held = { wholes_held };

    fn put(entries: &mut Vec<(u32, Whole)>, number: u32, node: Node) -> Result<(), AllocError> {
        match node {
            Node::And(left, right) => {
                let of_left = Whole {
                    node: number,
                    other: right,
                    is_left: true,
                };
                let of_right = Whole {
                    node: number,
                    other: left,
                    is_left: false,
                };
                entries.push((left, of_left))?;
                entries.push((right, of_right))?;
                Ok(())
            }
            _ => Ok(()),
        }
    }
}

impl HeldEntry for Restriction {
    ghost use Rattle.case_tables.specs.Entries.{restrictions_held};

    ghost held = { restrictions_held };

    fn put(
        entries: &mut Vec<(u32, Restriction)>,
        number: u32,
        node: Node,
    ) -> Result<(), AllocError> {
        match node {
            Node::Exists(role, filler) => {
                let restriction = Restriction {
                    node: number,
                    role,
                    filler,
                };
                entries.push((filler, restriction))?;
                Ok(())
            }
            _ => Ok(()),
        }
    }
}
