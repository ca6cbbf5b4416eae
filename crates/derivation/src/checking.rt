//! Checking a derivation.

ghost use Rattle.std.specs.Prelude.{◌≡◌, ◌<◌, IsTrue, ◌↔◌, length};
ghost use Rattle.fact_table.specs.declared.types.Source.{Source};
ghost use Rattle.el_rules.specs.Rules.{premises, names_axiom};
ghost use Rattle.el_rules.specs.Following.{NamesNoMore};
ghost use Rattle.case_file.specs.Cases.{AreRanksOf};
ghost use Rattle.derivation.specs.Steps.{IsGoodStep, ShowsEmpty, IsAnswer};

use crate::premises::{fact_before, named_axiom};
use crate::rules::gives;
use crate::{BadStep, Derivation, Step};
use case_file::Case;
use el_logic::Part;
use fact_table::{Fact, Rule, Source};

/// How many facts a rule starts from.
pub fn premises(rule: Rule) -> usize
    ensures { result ≡ premises rule }
{
    match rule {
        Rule::Itself | Rule::Top | Rule::Refl => 0,
        Rule::Both | Rule::Into | Rule::Void | Rule::Chain | Rule::Disj => 2,
        Rule::Incl | Rule::Left | Rule::Right | Rule::Out | Rule::Role | Rule::Dom => 1,
    }
}

/// A rule starts from an axiom too.
pub fn names_axiom(rule: Rule) -> bool
    ensures { result ≡ names_axiom rule }
{
    matches!(
        rule,
        Rule::Incl | Rule::Role | Rule::Chain | Rule::Refl | Rule::Dom | Rule::Disj
    )
}

// The source names no axiom.
fn is_nothing(source: Source) -> bool
    ensures { IsTrue result ↔ (source ≡ Source.Nothing) }
{
    matches!(source, Source::Nothing)
}

// A step names only what its rule starts from.
fn names_no_more(step: &Step) -> bool
    ensures { IsTrue result
        ↔ NamesNoMore step.now.rule step.now.first step.now.second step.now.source }
{
    let count = premises(step.rule);
    let has_axiom = names_axiom(step.rule);
    (count >= 1 || step.first == 0)
        && (count >= 2 || step.second == 0)
        && (has_axiom || is_nothing(step.source))
}

// A step with `count` steps before it is good.
fn is_good_step(
    case: &Case,
    part: Part,
    ranks: &[u32],
    steps: &[Step],
    count: usize,
    step: &Step,
) -> bool
    requires ranks { AreRanksOf case.now ranks.now }
    requires within { count < length steps.now }
    ensures { IsTrue result ↔ IsGoodStep case.now part ranks.now steps.now count step.now }
{
    let said = named_axiom(case, part, ranks, step.source);
    let one = fact_before(steps, count, step.first);
    let two = fact_before(steps, count, step.second);
    names_no_more(step) && gives(case.store(), said, one, two, step.rule, step.fact)
}

// The last step says that a node that must have a member is empty.
fn shows_empty(case: &Case, steps: &[Step]) -> bool
    ensures { IsTrue result ↔ ShowsEmpty case.now steps.now }
{
    match steps.last() {
        Some(step) => match step.fact {
            Fact::Sub(node, 1) => case.is_must_have(node),
            _ => false,
        },
        None => false,
    }
}

/// Checks a derivation from the axioms of a part and of the rows with some ranks. It takes no
/// memory. A step costs about the operands of its axiom, and a look-up of its row among the ranks.
pub fn check_derivation(
    case: &Case,
    derivation: &Derivation,
    part: Part,
    ranks: &[u32],
) -> Result<(), BadStep>
    requires { AreRanksOf case.now ranks.now }
    ensures { IsAnswer case.now part ranks.now derivation.now result }
{
    let steps = derivation.as_slice();
    for (count, step) in steps.iter().enumerate() {
        if !is_good_step(case, part, ranks, steps, count, step) {
            return Err(BadStep::Step(count + 1));
        }
    }
    if shows_empty(case, steps) {
        Ok(())
    } else {
        Err(BadStep::Goal)
    }
}
