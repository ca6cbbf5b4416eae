//! The items of a document: prefixes, then an ontology.

ghost use Rattle.std.specs.Prelude.{◌≡◌, ◌≤◌, map, length, Ok, Err, IfOk, IfErr, OnOk};
ghost use Rattle.std.specs.Option.{option_map};
ghost use Rattle.ofn_axiom.specs.Inside.Steps.{Fails};
ghost use Rattle.ofn_axiom.specs.Given.{given, is_equals, full_by_kind};
ghost use Rattle.ofn_axiom.specs.Taking.{State, IsNamesBefore};
ghost use Rattle.ofn_axiom.specs.Documents.{declared, declared_by, declared_with, is_prefix, is_ontology, to_ontology, ended, document_of, empty};

use crate::fault::{OffsetFault, Stop};
use crate::items::{first_item, head_of_item, place_of_item};
use crate::ontology::ontology_of;
use crate::types::{Document, Mode, Names, OmittedList};
use el_logic::Axioms;
use ofn_heads::{Head, declared_prefix, iri_between, known_prefixes};
use ofn_lex::{Token, TokenKind};
use ofn_term::Item;
use std::alloc::Global;
use text_names::{PrefixFault, PrefixMap};

#[tactic(auto, using(crate::proofs::GivenLaws::atom_gives, crate::proofs::GivenLaws::group_has_no_parts))]
fn prefix_name_of<'a>(text: &'a [u8], prefixes: &PrefixMap, item: &Item) -> Option<&'a str>
    ensures { option_map (λ name. name.now) result ≡
        (given text.now prefixes.now item.now).prefix_name }
{
    match item {
        Item::Atom(token) => declared_prefix(text, *token),
        Item::Group { .. } => None,
    }
}

fn is_equals_kind(kind: TokenKind) -> bool
    ensures { result ≡ is_equals kind }
{
    matches!(kind, TokenKind::Equals)
}

#[tactic(auto, using(crate::proofs::GivenLaws::atom_gives, crate::proofs::GivenLaws::group_has_no_parts))]
fn is_equals(text: &[u8], prefixes: &PrefixMap, item: &Item) -> bool
    ensures { result ≡ (given text.now prefixes.now item.now).equals }
{
    match item {
        Item::Atom(token) => is_equals_kind(token.kind),
        Item::Group { .. } => false,
    }
}

fn full_iri(text: &[u8], token: Token) -> Option<&str>
    ensures { option_map (λ iri. iri.now) result ≡ full_by_kind text.now token token.kind }
{
    match token.kind {
        TokenKind::FullIri => Some(iri_between(text, token)),
        _ => None,
    }
}

#[tactic(auto, using(crate::proofs::GivenLaws::atom_gives, crate::proofs::GivenLaws::group_has_no_parts))]
fn full_iri_of<'a>(text: &'a [u8], prefixes: &PrefixMap, item: &Item) -> Option<&'a str>
    ensures { option_map (λ iri. iri.now) result ≡ (given text.now prefixes.now item.now).full }
{
    match item {
        Item::Atom(token) => full_iri(text, *token),
        Item::Group { .. } => None,
    }
}

#[tactic(auto, using(crate::proofs::TakingLaws::clash, crate::proofs::TakingLaws::no_clash))]
fn declare_parts(prefixes: &mut PrefixMap, at: usize, name: &str, iri: &str) -> Result<(), Stop>
    ensures ok { OnOk result (declared at prefixes.old (name.now, iri.now) ≡ Ok prefixes.new) }
    ensures err { IfErr result (λ stop. Fails stop (declared at prefixes.old (name.now, iri.now))) }
{
    match prefixes.declare(name.as_bytes(), iri.as_bytes()) {
        Ok(()) => Ok(()),
        Err(PrefixFault::Again) => Err(Stop::Fault(OffsetFault::PrefixClash { at })),
        Err(_) => Err(Stop::Memory),
    }
}

fn declare(text: &[u8], prefixes: &mut PrefixMap, at: usize, items: &[Item]) -> Result<(), Stop>
    ensures ok { OnOk result (declared_by at prefixes.old
        (map (given text.now prefixes.old) items.now) ≡ Ok prefixes.new) }
    ensures err { IfErr result (λ stop. Fails stop
        (declared_by at prefixes.old (map (given text.now prefixes.old) items.now))) }
{
    match items {
        [name, equals, full] => {
            let Some(name) = prefix_name_of(text, prefixes, name) else {
                return Err(Stop::Fault(OffsetFault::Shape { at }));
            };
            if !is_equals(text, prefixes, equals) {
                return Err(Stop::Fault(OffsetFault::Shape { at }));
            }
            let Some(iri) = full_iri_of(text, prefixes, full) else {
                return Err(Stop::Fault(OffsetFault::Shape { at }));
            };
            declare_parts(prefixes, at, name, iri)
        }
        _ => Err(Stop::Fault(OffsetFault::Shape { at })),
    }
}

#[tactic(auto, using(crate::proofs::GivenLaws::atom_gives, crate::proofs::GivenLaws::bare_gives, crate::proofs::GivenLaws::group_gives))]
fn declare_item(text: &[u8], prefixes: &mut PrefixMap, item: &Item) -> Result<(), Stop>
    ensures ok { OnOk result
        (declared_with prefixes.old (given text.now prefixes.old item.now) ≡ Ok prefixes.new) }
    ensures err { IfErr result (λ stop. Fails stop
        (declared_with prefixes.old (given text.now prefixes.old item.now))) }
{
    match item {
        Item::Atom(token) => Err(Stop::Fault(OffsetFault::Head { at: token.start })),
        Item::Group {
            head,
            items,
            start,
            ..
        } => {
            let Some(word) = head else {
                return Err(Stop::Fault(OffsetFault::Head { at: *start }));
            };
            declare(text, prefixes, word.start, items.as_slice())
        }
    }
}

fn is_prefix(head: Head) -> bool
    ensures { result ≡ is_prefix head }
{
    matches!(head, Head::Prefix)
}

fn is_ontology(head: Head) -> bool
    ensures { result ≡ is_ontology head }
{
    matches!(head, Head::Ontology)
}

// The ontology and what follows it. The prefixes before it are declared.
fn to_ontology<'a>(
    text: &[u8],
    prefixes: &mut PrefixMap,
    items: &'a [Item],
) -> Result<(&'a Item, &'a [Item]), Stop>
    ensures ok { IfOk result (λ found. to_ontology text.now prefixes.old items.now ≡ Ok (record {
      prefixes = prefixes.new;
      ontology = found.0.now;
      rest = found.1.now;
    })) }
    ensures err { IfErr result (λ stop. Fails stop
        (to_ontology text.now prefixes.old items.now)) }
{
    let mut rest = items;
    loop {
        let Some((item, others)) = first_item(rest) else {
            return Err(Stop::Fault(OffsetFault::NoOntology { at: text.len() }));
        };
        let head = head_of_item(text, prefixes, item);
        if !is_prefix(head) {
            if is_ontology(head) {
                return Ok((item, others));
            }
            let at = place_of_item(text, prefixes, item);
            return Err(Stop::Fault(OffsetFault::Head { at }));
        }
        match declare_item(text, prefixes, item) {
            Ok(()) => {}
            Err(stop) => return Err(stop),
        }
        rest = others;
    }
}

fn ended(text: &[u8], prefixes: &PrefixMap, rest: &[Item]) -> Result<(), Stop>
    ensures ok { (state : State) → OnOk result
        (ended text.now prefixes.now rest.now state ≡ Ok state) }
    ensures err { (state : State) → IfErr result (λ stop. Fails stop
        (ended text.now prefixes.now rest.now state)) }
{
    match first_item(rest) {
        None => Ok(()),
        Some((item, _)) => Err(Stop::Fault(OffsetFault::Head {
            at: place_of_item(text, prefixes, item),
        })),
    }
}

// What the items of a document say.
pub fn document_of(
    alloc: Global,
    text: &[u8],
    mode: Mode,
    items: &[Item],
    names: &mut Names,
) -> Result<Document, Stop>
    ensures ok { IfOk result (λ document.
        document_of text.now mode items.now (empty, names.old) ≡ Ok (document, names.new)) }
    ensures err { IfErr result (λ stop. Fails stop
        (document_of text.now mode items.now (empty, names.old))) }
    ensures grows { IsNamesBefore names.old names.new }
{
    let mut prefixes = known_prefixes(alloc)?;
    let (ontology, rest) = match to_ontology(text, &mut prefixes, items) {
        Ok(found) => found,
        Err(stop) => return Err(stop),
    };
    let mut document = Document {
        axioms: Axioms::new(alloc),
        omitted: OmittedList::new(alloc),
    };
    match ontology_of(alloc, text, &prefixes, mode, ontology, &mut document, names) {
        Ok(()) => {}
        Err(stop) => return Err(stop),
    }
    match ended(text, &prefixes, rest) {
        Ok(()) => Ok(document),
        Err(stop) => Err(stop),
    }
}
