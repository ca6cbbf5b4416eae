//! Lines of steps.

ghost use Rattle.std.specs.Prelude.{◌≡◌};
ghost use Rattle.evidence_lines.specs.StepReading.{sub_in, link_in, fact_in, rule_in, premise_in, left_in, right_in, row_in, axiom_in, source_in, step_of};

use crate::rules::{names_axiom, names_first, names_second, rule_named};
use derivation::Step;
use fact_table::{Fact, Rule, Source};
use line_fields::Fields;

fn sub_in(fields: Fields<'_>) -> Option<(Fact, Fields<'_>)>
    ensures { result ≡ sub_in fields.entry }
{
    let (a, rest) = fields.short()?;
    let (b, rest) = rest.short()?;
    Some((Fact::Sub(a, b), rest))
}

fn link_in(fields: Fields<'_>) -> Option<(Fact, Fields<'_>)>
    ensures { result ≡ link_in fields.entry }
{
    let (a, rest) = fields.short()?;
    let (role, rest) = rest.short()?;
    let (b, rest) = rest.short()?;
    Some((Fact::Link(a, role, b), rest))
}

fn fact_in(fields: Fields<'_>) -> Option<(Fact, Fields<'_>)>
    ensures { result ≡ fact_in fields.entry }
{
    let (word, rest) = fields.next()?;
    if word == b"sub".as_slice() {
        return sub_in(rest);
    }
    if word == b"link".as_slice() {
        return link_in(rest);
    }
    None
}

fn rule_in(fields: Fields<'_>) -> Option<(Rule, Fields<'_>)>
    ensures { result ≡ rule_in fields.entry }
{
    let (word, rest) = fields.next()?;
    let rule = rule_named(word)?;
    Some((rule, rest))
}

// The number of a step, if the rule names one.
fn premise_in(named: bool, fields: Fields<'_>) -> Option<(usize, Fields<'_>)>
    ensures { result ≡ premise_in named fields.entry }
{
    if !named {
        return Some((0, fields));
    }
    let (number, rest) = fields.long()?;
    Some((number as usize, rest))
}

fn left_in(fields: Fields<'_>) -> Option<(Source, Fields<'_>)>
    ensures { result ≡ left_in fields.entry }
{
    let (axiom, rest) = fields.short()?;
    Some((Source::Left(axiom), rest))
}

fn right_in(fields: Fields<'_>) -> Option<(Source, Fields<'_>)>
    ensures { result ≡ right_in fields.entry }
{
    let (axiom, rest) = fields.short()?;
    Some((Source::Right(axiom), rest))
}

fn row_in(fields: Fields<'_>) -> Option<(Source, Fields<'_>)>
    ensures { result ≡ row_in fields.entry }
{
    let (rank, rest) = fields.short()?;
    let (number, rest) = rest.short()?;
    if number == 1 || number == 2 {
        Some((Source::Row { rank, number }, rest))
    } else {
        None
    }
}

fn axiom_in(fields: Fields<'_>) -> Option<(Source, Fields<'_>)>
    ensures { result ≡ axiom_in fields.entry }
{
    let (word, rest) = fields.next()?;
    if word == b"left".as_slice() {
        return left_in(rest);
    }
    if word == b"right".as_slice() {
        return right_in(rest);
    }
    if word == b"row".as_slice() {
        return row_in(rest);
    }
    None
}

// An axiom, if the rule names one.
fn source_in(named: bool, fields: Fields<'_>) -> Option<(Source, Fields<'_>)>
    ensures { result ≡ source_in named fields.entry }
{
    if named {
        axiom_in(fields)
    } else {
        Some((Source::Nothing, fields))
    }
}

/// The step that a line with these fields is.
#[tactic(auto, unfolding(crate::specs::StepReading::step_of))]
pub fn step_of(fields: Fields<'_>) -> Option<Step>
    ensures { result ≡ step_of fields.entry }
{
    let (fact, rest) = fact_in(fields)?;
    let (rule, rest) = rule_in(rest)?;
    let (first, rest) = premise_in(names_first(rule), rest)?;
    let (second, rest) = premise_in(names_second(rule), rest)?;
    let (source, rest) = source_in(names_axiom(rule), rest)?;
    if !rest.is_end() {
        return None;
    }
    Some(Step {
        first,
        second,
        fact,
        source,
        rule,
    })
}
