//! Row numbers in an order.

ghost use Rattle.std.specs.Prelude.{◌≡◌};

use std::marker::Model;

/// Row numbers in an order. Contracts see the list.
#[derive(Debug, Drop)]
pub struct Ranks {
    rows: Vec<u32>,
}

impl Model for Ranks {
    ghost use Rattle.std.specs.Prelude.{List, ℕ};

    ghost Value = { List ℕ };

    ghost view = { λ r. r.rows.items };
}

impl Ranks {
    /// The numbers of a vector, without a copy.
    pub fn from_vec(rows: Vec<u32>) -> Self
        ensures { result ≡ rows.items }
    {
        Ranks { rows }
    }

    pub fn as_slice(&self) -> &[u32]
        ensures { result.now ≡ self.now }
    {
        self.rows.as_slice()
    }
}
