//! What a step starts from: facts of earlier steps and an axiom.

ghost use Rattle.std.specs.Prelude.{◌≡◌, ◌≢◌, ◌<◌, MatchOption, ℕ, IsTrue, ◌↔◌, Some, length, Contains};
ghost use Rattle.std.specs.List.Sorted.{IsStrictlyIncreasing};
ghost use Rattle.std.specs.Option.{option_copied};
ghost use Rattle.fact_table.specs.declared.types.Fact.TheVariants.{Sub, Link};
ghost use Rattle.el_rules.specs.Theories.{IsNumbered, IsSourceOf, IsNamedBy};
ghost use Rattle.case_file.specs.Cases.{AreRanksOf, theory_of};
ghost use Rattle.derivation.specs.Steps.{IsStepBefore};
ghost use Rattle.derivation.specs.Inside.Answers.{IsTheOne};

use crate::Step;
use case_file::Case;
use concept_store::NodeAxiom;
use el_logic::Part;
use fact_table::{Fact, Source};

/// The fact of the step with a number, from 1, if it is one of the first `count`.
pub fn fact_before(steps: &[Step], count: usize, number: usize) -> Option<Fact>
    requires { count < length steps.now }
    ensures { IsTheOne result (IsStepBefore steps.now count number) }
{
    if number == 0 || number > count {
        return None;
    }
    Some(steps[number - 1].fact)
}

/// The node that a fact puts node a within.
pub fn sub_from(fact: Option<Fact>, a: u32) -> Option<u32>
    ensures { MatchOption result ((b : ℕ) → fact ≢ Some (Sub a b))
        (λ b. fact ≡ Some (Sub a b)) }
{
    match fact {
        Some(Fact::Sub(from, into)) if from == a => Some(into),
        _ => None,
    }
}

/// The fact puts node a within node b.
pub fn is_sub(fact: Option<Fact>, a: u32, b: u32) -> bool
    ensures { IsTrue result ↔ (fact ≡ Some (Sub a b)) }
{
    match fact {
        Some(Fact::Sub(from, into)) => from == a && into == b,
        _ => false,
    }
}

/// The role by which a fact links node a, and the node to which it does.
pub fn link_from(fact: Option<Fact>, a: u32) -> Option<(u32, u32)>
    ensures { MatchOption result ((r b : ℕ) → fact ≢ Some (Link a r b))
        (λ link. fact ≡ Some (Link a link.0 link.1)) }
{
    match fact {
        Some(Fact::Link(from, role, into)) if from == a => Some((role, into)),
        _ => None,
    }
}

// The axiom with a number, from 1.
fn numbered(axioms: &[NodeAxiom], number: u32) -> Option<&NodeAxiom>
    ensures { IsTheOne (option_copied result) (IsNumbered axioms.now number) }
{
    match number.checked_sub(1) {
        Some(k) => axioms.get(k as usize),
        None => None,
    }
}

// The list has the rank.
fn has_rank(ranks: &[u32], rank: u32) -> bool
    requires { IsStrictlyIncreasing ranks.now }
    ensures { IsTrue result ↔ Contains ranks.now rank }
{
    ranks.binary_search(&rank).is_ok()
}

// The source is of the part or of the ranks.
fn is_source(part: Part, ranks: &[u32], source: Source) -> bool
    requires { IsStrictlyIncreasing ranks.now }
    ensures { IsTrue result ↔ IsSourceOf part ranks.now source }
{
    match source {
        Source::Left(_) => matches!(part, Part::Left | Part::Both),
        Source::Right(_) => matches!(part, Part::Right | Part::Both),
        Source::Row { rank, .. } => has_rank(ranks, rank),
        Source::Nothing => false,
    }
}

/// The axiom that a source names, if it is of the part or of a row with one of the ranks.
pub fn named_axiom<'a>(
    case: &'a Case,
    part: Part,
    ranks: &[u32],
    source: Source,
) -> Option<&'a NodeAxiom>
    requires { AreRanksOf case.now ranks.now }
    ensures { IsTheOne (option_copied result)
        (IsNamedBy (theory_of case.now) part ranks.now source) }
{
    if !is_source(part, ranks, source) {
        return None;
    }
    match source {
        Source::Left(number) => numbered(case.store().left(), number),
        Source::Right(number) => numbered(case.store().right(), number),
        Source::Row { rank, number } => numbered(case.over_of(rank), number),
        Source::Nothing => None,
    }
}
