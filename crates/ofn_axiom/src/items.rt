//! What an item is, before it is read.

ghost use Rattle.std.specs.Prelude.{◌≡◌, [], ◌∷◌, map, MatchOption, IfOk};
ghost use Rattle.ofn_axiom.specs.Given.{given, all_fit, is_annotation, after_annotations, misplaced};

use crate::fault::OffsetFault;
use ofn_heads::{Head, Named, head_of, is_iri, name_of};
use ofn_term::{Item, bytes_of};
use std::alloc::{AllocError, Global};
use text_names::PrefixMap;

// A group with a head, or the first byte of an item that is none.
#[tactic(auto, using(crate::proofs::GivenLaws::atom_gives, crate::proofs::GivenLaws::bare_gives, crate::proofs::GivenLaws::group_gives))]
pub fn place_of_item(text: &[u8], prefixes: &PrefixMap, item: &Item) -> usize
    ensures { result ≡ (given text.now prefixes.now item.now).at }
{
    match item {
        Item::Atom(token) => token.start,
        Item::Group { head, start, .. } => {
            let Some(word) = head else {
                return *start;
            };
            word.start
        }
    }
}

// An IRI, or a group with a head.
#[tactic(auto, using(crate::proofs::GivenLaws::atom_gives, crate::proofs::GivenLaws::bare_gives, crate::proofs::GivenLaws::group_gives))]
pub fn fits(text: &[u8], prefixes: &PrefixMap, item: &Item) -> bool
    ensures { result ≡ (given text.now prefixes.now item.now).fits }
{
    match item {
        Item::Atom(token) => is_iri(text, *token),
        Item::Group { head, .. } => head.is_some(),
    }
}

pub fn all_fit(text: &[u8], prefixes: &PrefixMap, items: &[Item]) -> bool
    ensures { result ≡ all_fit (map (given text.now prefixes.now) items.now) }
{
    for item in items {
        if !fits(text, prefixes, item) {
            return false;
        }
    }
    true
}

#[tactic(auto, using(crate::proofs::GivenLaws::atom_gives, crate::proofs::GivenLaws::bare_gives, crate::proofs::GivenLaws::group_gives))]
pub fn is_headed(text: &[u8], prefixes: &PrefixMap, item: &Item) -> bool
    ensures { result ≡ (given text.now prefixes.now item.now).headed }
{
    match item {
        Item::Atom(_) => false,
        Item::Group { head, .. } => head.is_some(),
    }
}

#[tactic(auto, using(crate::proofs::GivenLaws::atom_gives, crate::proofs::GivenLaws::bare_gives, crate::proofs::GivenLaws::group_gives))]
pub fn head_of_item(text: &[u8], prefixes: &PrefixMap, item: &Item) -> Head
    ensures { result ≡ (given text.now prefixes.now item.now).head }
{
    match item {
        Item::Atom(_) => Head::Other,
        Item::Group { head, .. } => {
            let Some(word) = head else {
                return Head::Other;
            };
            head_of(bytes_of(text, *word))
        }
    }
}

#[tactic(auto, using(crate::proofs::GivenLaws::atom_gives, crate::proofs::GivenLaws::group_has_no_name))]
pub fn name_of_item(
    alloc: Global,
    text: &[u8],
    prefixes: &PrefixMap,
    item: &Item,
) -> Result<Named, AllocError>
    ensures { IfOk result (λ name. name ≡ (given text.now prefixes.now item.now).name) }
{
    match item {
        Item::Atom(token) => name_of(alloc, text, prefixes, *token),
        Item::Group { .. } => Ok(Named::NoIri),
    }
}

// A head where it may not stand.
pub fn misplaced(at: usize, head: Head) -> OffsetFault
    ensures { result ≡ misplaced at head }
{
    match head {
        Head::Outside(id) => OffsetFault::Profile { at, head: id },
        _ => OffsetFault::Head { at },
    }
}

fn is_annotation(head: Head) -> bool
    ensures { result ≡ is_annotation head }
{
    matches!(head, Head::Annotation)
}

pub fn first_item(items: &[Item]) -> Option<(&Item, &[Item])>
    ensures { MatchOption result (items.now ≡ []) (λ parts. items.now ≡ parts.0.now ∷ parts.1.now) }
{
    match items {
        [] => None,
        [first, rest @ ..] => Some((first, rest)),
    }
}

// The items after the annotations at their beginning.
pub fn after_annotations<'a>(text: &[u8], prefixes: &PrefixMap, items: &'a [Item]) -> &'a [Item]
    ensures { map (given text.now prefixes.now) result.now ≡
        after_annotations (map (given text.now prefixes.now) items.now) }
{
    let mut rest = items;
    loop {
        let Some((first, others)) = first_item(rest) else {
            return rest;
        };
        if !is_annotation(head_of_item(text, prefixes, first)) {
            return rest;
        }
        rest = others;
    }
}
