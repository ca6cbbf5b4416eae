//! Class expressions, properties and chains.

ghost use Rattle.std.specs.Prelude.{◌≡◌, [], ◌∷◌, map, Ok};
ghost use Rattle.ofn_term.specs.Words.{bytes_of};
ghost use Rattle.ofn_heads.specs.Heads.{head_of};
ghost use Rattle.ofn_axiom.specs.Inside.Steps.{Gives};
ghost use Rattle.ofn_axiom.specs.Given.{given, class_of_iri, property_of_iri, class_named, property_named, class_group, chain_group, classes_onto, properties_onto, some_classes, some_properties, chain_properties, one_property, property_and_class};

use crate::fault::{OffsetFault, Stop};
use crate::items::{all_fit, fits, misplaced};
use crate::types::{IriExpr, IriExprs, Texts};
use el_logic::Boxed;
use ofn_heads::{Head, HeadId, Named, head_of, name_of};
use ofn_lex::Token;
use ofn_term::{Item, bytes_of};
use std::alloc::Global;
use text_names::{PrefixMap, Text};

fn class_of_iri(iri: Text) -> IriExpr
    ensures { result ≡ class_of_iri iri }
{
    if iri.bytes() == b"http://www.w3.org/2002/07/owl#Thing".as_slice() {
        return IriExpr::Top;
    }
    if iri.bytes() == b"http://www.w3.org/2002/07/owl#Nothing".as_slice() {
        return IriExpr::Bottom;
    }
    IriExpr::Class(iri)
}

fn property_of_iri(at: usize, iri: Text) -> Result<Text, Stop>
    ensures { Gives (λ x. x) result (property_of_iri at iri) }
{
    if iri.bytes() == b"http://www.w3.org/2002/07/owl#topObjectProperty".as_slice() {
        return Err(Stop::Fault(OffsetFault::Profile {
            at,
            head: HeadId::TopObjectProperty,
        }));
    }
    if iri.bytes() == b"http://www.w3.org/2002/07/owl#bottomObjectProperty".as_slice() {
        return Err(Stop::Fault(OffsetFault::Profile {
            at,
            head: HeadId::BottomObjectProperty,
        }));
    }
    Ok(iri)
}

fn class_named(at: usize, name: Named) -> Result<IriExpr, Stop>
    ensures { Gives (λ x. x) result (class_named at name) }
{
    match name {
        Named::Iri(iri) => Ok(class_of_iri(iri)),
        Named::Unknown => Err(Stop::Fault(OffsetFault::PrefixUnknown { at })),
        Named::NoIri => Err(Stop::Fault(OffsetFault::Head { at })),
    }
}

fn property_named(at: usize, name: Named) -> Result<Text, Stop>
    ensures { Gives (λ x. x) result (property_named at name) }
{
    match name {
        Named::Iri(iri) => property_of_iri(at, iri),
        Named::Unknown => Err(Stop::Fault(OffsetFault::PrefixUnknown { at })),
        Named::NoIri => Err(Stop::Fault(OffsetFault::Head { at })),
    }
}

#[tactic(auto, using(crate::proofs::GivenLaws::atom_gives, crate::proofs::GivenLaws::bare_gives, crate::proofs::GivenLaws::group_gives))]
pub fn property_of(
    alloc: Global,
    text: &[u8],
    prefixes: &PrefixMap,
    item: &Item,
) -> Result<Text, Stop>
    ensures { Gives (λ x. x) result (given text.now prefixes.now item.now).property }
{
    match item {
        Item::Atom(token) => {
            property_named(token.start, name_of(alloc, text, prefixes, *token)?)
        }
        Item::Group { head, start, .. } => {
            let Some(word) = head else {
                return Err(Stop::Fault(OffsetFault::Head { at: *start }));
            };
            let head = head_of(bytes_of(text, *word));
            Err(Stop::Fault(misplaced(word.start, head)))
        }
    }
}

fn properties(
    alloc: Global,
    text: &[u8],
    prefixes: &PrefixMap,
    items: &[Item],
) -> Result<Texts, Stop>
    ensures { Gives (λ x. x) result
        (properties_onto [] (map (given text.now prefixes.now) items.now)) }
{
    let mut done = Texts::new(alloc);
    for item in items {
        let property = property_of(alloc, text, prefixes, item)?;
        done.push(property)?;
    }
    Ok(done)
}

pub fn some_properties(
    alloc: Global,
    text: &[u8],
    prefixes: &PrefixMap,
    at: usize,
    items: &[Item],
) -> Result<Texts, Stop>
    ensures { Gives (λ x. x) result
        (some_properties at (map (given text.now prefixes.now) items.now)) }
{
    if items.is_empty() || !all_fit(text, prefixes, items) {
        return Err(Stop::Fault(OffsetFault::Shape { at }));
    }
    properties(alloc, text, prefixes, items)
}

fn chain_properties(
    alloc: Global,
    text: &[u8],
    prefixes: &PrefixMap,
    at: usize,
    items: &[Item],
) -> Result<Texts, Stop>
    ensures { Gives (λ x. x) result
        (chain_properties at (map (given text.now prefixes.now) items.now)) }
{
    match items {
        [] => Err(Stop::Fault(OffsetFault::Shape { at })),
        [_] => Err(Stop::Fault(OffsetFault::Shape { at })),
        _ => some_properties(alloc, text, prefixes, at, items),
    }
}

pub fn one_property(
    alloc: Global,
    text: &[u8],
    prefixes: &PrefixMap,
    at: usize,
    items: &[Item],
) -> Result<Text, Stop>
    ensures { Gives (λ x. x) result
        (one_property at (map (given text.now prefixes.now) items.now)) }
{
    match items {
        [property] => {
            if !fits(text, prefixes, property) {
                return Err(Stop::Fault(OffsetFault::Shape { at }));
            }
            property_of(alloc, text, prefixes, property)
        }
        _ => Err(Stop::Fault(OffsetFault::Shape { at })),
    }
}

fn alone(alloc: Global, property: Text) -> Result<Texts, Stop>
    ensures { Gives (λ x. x) result (Ok (property ∷ [])) }
{
    let mut chain = Texts::new(alloc);
    chain.push(property)?;
    Ok(chain)
}

// The first item of `SubObjectPropertyOf`: one property, or a chain of two or more.
#[tactic(auto, using(crate::proofs::GivenLaws::atom_gives, crate::proofs::GivenLaws::bare_gives, crate::proofs::GivenLaws::group_gives))]
pub fn chain_of(
    alloc: Global,
    text: &[u8],
    prefixes: &PrefixMap,
    item: &Item,
) -> Result<Texts, Stop>
    ensures { Gives (λ x. x) result (given text.now prefixes.now item.now).chain }
{
    match item {
        Item::Atom(token) => {
            let name = name_of(alloc, text, prefixes, *token)?;
            alone(alloc, property_named(token.start, name)?)
        }
        Item::Group {
            head,
            items,
            start,
            ..
        } => {
            let Some(word) = head else {
                return Err(Stop::Fault(OffsetFault::Head { at: *start }));
            };
            let head = head_of(bytes_of(text, *word));
            chain_group(alloc, text, prefixes, word.start, head, items.as_slice())
        }
    }
}

fn chain_group(
    alloc: Global,
    text: &[u8],
    prefixes: &PrefixMap,
    at: usize,
    head: Head,
    items: &[Item],
) -> Result<Texts, Stop>
    ensures { Gives (λ x. x) result
        (chain_group at head (map (given text.now prefixes.now) items.now)) }
{
    match head {
        Head::ObjectPropertyChain => chain_properties(alloc, text, prefixes, at, items),
        _ => Err(Stop::Fault(misplaced(at, head))),
    }
}

#[cycle(classes)]
#[tactic(auto, using(crate::proofs::GivenLaws::atom_gives, crate::proofs::GivenLaws::bare_gives, crate::proofs::GivenLaws::group_gives))]
pub fn class_of(
    alloc: Global,
    text: &[u8],
    prefixes: &PrefixMap,
    item: &Item,
) -> Result<IriExpr, Stop>
    ensures { Gives (λ x. x) result (given text.now prefixes.now item.now).class }
{
    match item {
        Item::Atom(token) => class_named(token.start, name_of(alloc, text, prefixes, *token)?),
        Item::Group {
            head,
            items,
            start,
            ..
        } => {
            let Some(word) = head else {
                return Err(Stop::Fault(OffsetFault::Head { at: *start }));
            };
            class_headed(alloc, text, prefixes, *word, items.as_slice())
        }
    }
}

#[cycle(classes)]
fn class_headed(
    alloc: Global,
    text: &[u8],
    prefixes: &PrefixMap,
    word: Token,
    items: &[Item],
) -> Result<IriExpr, Stop>
    ensures { Gives (λ x. x) result (class_group word.start (head_of (bytes_of text.now word))
        (map (given text.now prefixes.now) items.now)) }
{
    let head = head_of(bytes_of(text, word));
    class_group(alloc, text, prefixes, word.start, head, items)
}

#[cycle(classes)]
fn class_group(
    alloc: Global,
    text: &[u8],
    prefixes: &PrefixMap,
    at: usize,
    head: Head,
    items: &[Item],
) -> Result<IriExpr, Stop>
    ensures { Gives (λ x. x) result
        (class_group at head (map (given text.now prefixes.now) items.now)) }
{
    match head {
        Head::ObjectIntersectionOf => {
            let classes = some_classes(alloc, text, prefixes, at, items)?;
            Ok(IriExpr::And(classes))
        }
        Head::ObjectSomeValuesFrom => {
            let (property, filler) = property_and_class(alloc, text, prefixes, at, items)?;
            Ok(IriExpr::Exists(property, Boxed::new(alloc, filler)?))
        }
        _ => Err(Stop::Fault(misplaced(at, head))),
    }
}

// One class expression or more.
#[cycle(classes)]
pub fn some_classes(
    alloc: Global,
    text: &[u8],
    prefixes: &PrefixMap,
    at: usize,
    items: &[Item],
) -> Result<IriExprs, Stop>
    ensures { Gives (λ x. x) result
        (some_classes at (map (given text.now prefixes.now) items.now)) }
{
    if items.is_empty() || !all_fit(text, prefixes, items) {
        return Err(Stop::Fault(OffsetFault::Shape { at }));
    }
    classes(alloc, text, prefixes, items)
}

#[cycle(classes)]
fn classes(
    alloc: Global,
    text: &[u8],
    prefixes: &PrefixMap,
    items: &[Item],
) -> Result<IriExprs, Stop>
    ensures { Gives (λ x. x) result
        (classes_onto [] (map (given text.now prefixes.now) items.now)) }
{
    let mut done = IriExprs::new(alloc);
    for item in items {
        let class = class_of(alloc, text, prefixes, item)?;
        done.push(class)?;
    }
    Ok(done)
}

// A property, then a class expression.
#[cycle(classes)]
pub fn property_and_class(
    alloc: Global,
    text: &[u8],
    prefixes: &PrefixMap,
    at: usize,
    items: &[Item],
) -> Result<(Text, IriExpr), Stop>
    ensures { Gives (λ x. x) result
        (property_and_class at (map (given text.now prefixes.now) items.now)) }
{
    match items {
        [property, class] => {
            if !fits(text, prefixes, property) || !fits(text, prefixes, class) {
                return Err(Stop::Fault(OffsetFault::Shape { at }));
            }
            let property = property_of(alloc, text, prefixes, property)?;
            let class = class_of(alloc, text, prefixes, class)?;
            Ok((property, class))
        }
        _ => Err(Stop::Fault(OffsetFault::Shape { at })),
    }
}
