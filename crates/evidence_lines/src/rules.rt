//! The words of rules, and what each rule names.

ghost use Rattle.std.specs.Prelude.{◌≡◌};
ghost use Rattle.evidence_lines.specs.Steps.{rule_word, names_first, names_second, names_axiom};
ghost use Rattle.evidence_lines.specs.StepReading.{first_rule, first_rules, last_rules, rule_named};

use fact_table::Rule;

pub fn rule_word(rule: Rule) -> &'static [u8]
    ensures { result.now ≡ rule_word rule }
{
    match rule {
        Rule::Itself => b"self",
        Rule::Top => b"top",
        Rule::Incl => b"incl",
        Rule::Left => b"left",
        Rule::Right => b"right",
        Rule::Both => b"both",
        Rule::Out => b"out",
        Rule::Into => b"into",
        Rule::Void => b"void",
        Rule::Role => b"role",
        Rule::Chain => b"chain",
        Rule::Refl => b"refl",
        Rule::Dom => b"dom",
        Rule::Disj => b"disj",
    }
}

/// Whether the rule names an earlier step.
pub fn names_first(rule: Rule) -> bool
    ensures { result ≡ names_first rule }
{
    !matches!(rule, Rule::Itself | Rule::Top | Rule::Refl)
}

/// Whether the rule names a second step.
pub fn names_second(rule: Rule) -> bool
    ensures { result ≡ names_second rule }
{
    matches!(
        rule,
        Rule::Both | Rule::Into | Rule::Void | Rule::Chain | Rule::Disj
    )
}

/// Whether the rule names an axiom.
pub fn names_axiom(rule: Rule) -> bool
    ensures { result ≡ names_axiom rule }
{
    matches!(
        rule,
        Rule::Incl | Rule::Role | Rule::Chain | Rule::Refl | Rule::Dom | Rule::Disj
    )
}

fn first_rules(word: &[u8]) -> Option<Rule>
    ensures { result ≡ first_rule first_rules word.now }
{
    if word == b"self".as_slice() {
        return Some(Rule::Itself);
    }
    if word == b"top".as_slice() {
        return Some(Rule::Top);
    }
    if word == b"incl".as_slice() {
        return Some(Rule::Incl);
    }
    if word == b"left".as_slice() {
        return Some(Rule::Left);
    }
    if word == b"right".as_slice() {
        return Some(Rule::Right);
    }
    if word == b"both".as_slice() {
        return Some(Rule::Both);
    }
    if word == b"out".as_slice() {
        return Some(Rule::Out);
    }
    None
}

fn last_rules(word: &[u8]) -> Option<Rule>
    ensures { result ≡ first_rule last_rules word.now }
{
    if word == b"into".as_slice() {
        return Some(Rule::Into);
    }
    if word == b"void".as_slice() {
        return Some(Rule::Void);
    }
    if word == b"role".as_slice() {
        return Some(Rule::Role);
    }
    if word == b"chain".as_slice() {
        return Some(Rule::Chain);
    }
    if word == b"refl".as_slice() {
        return Some(Rule::Refl);
    }
    if word == b"dom".as_slice() {
        return Some(Rule::Dom);
    }
    if word == b"disj".as_slice() {
        return Some(Rule::Disj);
    }
    None
}

/// The rule with a word.
pub fn rule_named(word: &[u8]) -> Option<Rule>
    ensures { result ≡ rule_named word.now }
{
    if let Some(rule) = first_rules(word) {
        return Some(rule);
    }
    last_rules(word)
}
