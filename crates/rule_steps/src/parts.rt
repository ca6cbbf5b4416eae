//! Which sources count.

ghost use Rattle.std.specs.Prelude.{◌↔◌, ℕ, List, IsTrue, Contains};
ghost use Rattle.std.specs.List.Sorted.{IsStrictlyIncreasing};
ghost use Rattle.fact_table.specs.declared.types.Source.TheVariants as Source;
ghost use Rattle.el_rules.specs.Theories.{IsSourceOf};

use el_logic::Part;

/// Whether LEFT's axioms count.
pub fn has_left(part: Part) -> bool
    ensures { (ranks : List ℕ) (number : ℕ) →
        IsTrue result ↔ IsSourceOf part ranks (Source.Left number) }
{
    match part {
        Part::Left | Part::Both => true,
        Part::Right => false,
    }
}

/// Whether RIGHT's axioms count.
pub fn has_right(part: Part) -> bool
    ensures { (ranks : List ℕ) (number : ℕ) →
        IsTrue result ↔ IsSourceOf part ranks (Source.Right number) }
{
    match part {
        Part::Right | Part::Both => true,
        Part::Left => false,
    }
}

/// Whether a rank is one of ascending ranks.
pub fn has_rank(ranks: &[u32], rank: u32) -> bool
    requires { IsStrictlyIncreasing ranks.now }
    ensures { IsTrue result ↔ Contains ranks.now rank }
{
    ranks.binary_search(&rank).is_ok()
}
