//! Axioms, declarations, and what stands directly in an ontology.

ghost use Rattle.std.specs.Prelude.{◌≡◌, map, Ok};
ghost use Rattle.ofn_axiom.specs.Inside.Steps.{Gives};
ghost use Rattle.ofn_axiom.specs.Given.{given, sub_class, sub_property, axiom_group, one_iri, iri_named, as_class, as_property, entity_group, declaration, direct_group};

use crate::classes::{
    chain_of, class_of, one_property, property_and_class, property_of, some_classes,
    some_properties,
};
use crate::fault::{OffsetFault, Stop};
use crate::items::{after_annotations, fits, is_headed, misplaced, name_of_item, place_of_item};
use crate::types::{Direct, IriAxiom};
use ofn_heads::{Head, Named, head_of};
use ofn_term::{Item, bytes_of};
use std::alloc::Global;
use text_names::{PrefixMap, Text};

fn sub_class(
    alloc: Global,
    text: &[u8],
    prefixes: &PrefixMap,
    at: usize,
    items: &[Item],
) -> Result<IriAxiom, Stop>
    ensures { Gives (λ x. x) result (sub_class at (map (given text.now prefixes.now) items.now)) }
{
    match items {
        [lower, upper] => {
            if !fits(text, prefixes, lower) || !fits(text, prefixes, upper) {
                return Err(Stop::Fault(OffsetFault::Shape { at }));
            }
            let lower = class_of(alloc, text, prefixes, lower)?;
            let upper = class_of(alloc, text, prefixes, upper)?;
            Ok(IriAxiom::SubClass(lower, upper))
        }
        _ => Err(Stop::Fault(OffsetFault::Shape { at })),
    }
}

fn sub_property(
    alloc: Global,
    text: &[u8],
    prefixes: &PrefixMap,
    at: usize,
    items: &[Item],
) -> Result<IriAxiom, Stop>
    ensures { Gives (λ x. x) result
        (sub_property at (map (given text.now prefixes.now) items.now)) }
{
    match items {
        [lower, upper] => {
            if !fits(text, prefixes, lower) || !fits(text, prefixes, upper) {
                return Err(Stop::Fault(OffsetFault::Shape { at }));
            }
            let lower = chain_of(alloc, text, prefixes, lower)?;
            let upper = property_of(alloc, text, prefixes, upper)?;
            Ok(IriAxiom::SubRole(lower, upper))
        }
        _ => Err(Stop::Fault(OffsetFault::Shape { at })),
    }
}

fn axiom_group(
    alloc: Global,
    text: &[u8],
    prefixes: &PrefixMap,
    at: usize,
    head: Head,
    items: &[Item],
) -> Result<IriAxiom, Stop>
    ensures { Gives (λ x. x) result
        (axiom_group at head (map (given text.now prefixes.now) items.now)) }
{
    match head {
        Head::SubClassOf => sub_class(alloc, text, prefixes, at, items),
        Head::EquivalentClasses => {
            let classes = some_classes(alloc, text, prefixes, at, items)?;
            Ok(IriAxiom::Equivalent(classes))
        }
        Head::DisjointClasses => {
            let classes = some_classes(alloc, text, prefixes, at, items)?;
            Ok(IriAxiom::Disjoint(classes))
        }
        Head::SubObjectPropertyOf => sub_property(alloc, text, prefixes, at, items),
        Head::EquivalentObjectProperties => {
            let properties = some_properties(alloc, text, prefixes, at, items)?;
            Ok(IriAxiom::EquivalentRoles(properties))
        }
        Head::TransitiveObjectProperty => {
            let property = one_property(alloc, text, prefixes, at, items)?;
            Ok(IriAxiom::Transitive(property))
        }
        Head::ReflexiveObjectProperty => {
            let property = one_property(alloc, text, prefixes, at, items)?;
            Ok(IriAxiom::Reflexive(property))
        }
        Head::ObjectPropertyDomain => {
            let (property, class) = property_and_class(alloc, text, prefixes, at, items)?;
            Ok(IriAxiom::Domain(property, class))
        }
        _ => Err(Stop::Fault(misplaced(at, head))),
    }
}

fn iri_named(head: usize, at: usize, name: Named) -> Result<Text, Stop>
    ensures { Gives (λ x. x) result (iri_named head at name) }
{
    match name {
        Named::Iri(iri) => Ok(iri),
        Named::Unknown => Err(Stop::Fault(OffsetFault::PrefixUnknown { at })),
        Named::NoIri => Err(Stop::Fault(OffsetFault::Shape { at: head })),
    }
}

fn one_iri(
    alloc: Global,
    text: &[u8],
    prefixes: &PrefixMap,
    at: usize,
    items: &[Item],
) -> Result<Text, Stop>
    ensures { Gives (λ x. x) result (one_iri at (map (given text.now prefixes.now) items.now)) }
{
    match items {
        [item] => {
            let place = place_of_item(text, prefixes, item);
            iri_named(at, place, name_of_item(alloc, text, prefixes, item)?)
        }
        _ => Err(Stop::Fault(OffsetFault::Shape { at })),
    }
}

fn as_class(iri: Text) -> Direct
    ensures { as_class iri ≡ Ok result }
{
    if iri.bytes() == b"http://www.w3.org/2002/07/owl#Thing".as_slice() {
        return Direct::Nothing;
    }
    if iri.bytes() == b"http://www.w3.org/2002/07/owl#Nothing".as_slice() {
        return Direct::Nothing;
    }
    Direct::Class(iri)
}

fn as_property(iri: Text) -> Direct
    ensures { as_property iri ≡ Ok result }
{
    if iri.bytes() == b"http://www.w3.org/2002/07/owl#topObjectProperty".as_slice() {
        return Direct::Nothing;
    }
    if iri.bytes() == b"http://www.w3.org/2002/07/owl#bottomObjectProperty".as_slice() {
        return Direct::Nothing;
    }
    Direct::Property(iri)
}

fn entity_group(
    alloc: Global,
    text: &[u8],
    prefixes: &PrefixMap,
    at: usize,
    head: Head,
    items: &[Item],
) -> Result<Direct, Stop>
    ensures { Gives (λ x. x) result
        (entity_group at head (map (given text.now prefixes.now) items.now)) }
{
    match head {
        Head::Class => {
            let iri = one_iri(alloc, text, prefixes, at, items)?;
            Ok(as_class(iri))
        }
        Head::ObjectProperty => {
            let iri = one_iri(alloc, text, prefixes, at, items)?;
            Ok(as_property(iri))
        }
        Head::DataProperty | Head::AnnotationProperty | Head::Datatype | Head::NamedIndividual => {
            one_iri(alloc, text, prefixes, at, items)?;
            Ok(Direct::Nothing)
        }
        _ => Err(Stop::Fault(misplaced(at, head))),
    }
}

#[tactic(auto, using(crate::proofs::GivenLaws::atom_gives, crate::proofs::GivenLaws::bare_gives, crate::proofs::GivenLaws::group_gives))]
fn entity_of(alloc: Global, text: &[u8], prefixes: &PrefixMap, item: &Item) -> Result<Direct, Stop>
    ensures { Gives (λ x. x) result (given text.now prefixes.now item.now).entity }
{
    match item {
        Item::Atom(token) => Err(Stop::Fault(OffsetFault::Head { at: token.start })),
        Item::Group {
            head,
            items,
            start,
            ..
        } => {
            let Some(word) = head else {
                return Err(Stop::Fault(OffsetFault::Head { at: *start }));
            };
            let head = head_of(bytes_of(text, *word));
            entity_group(alloc, text, prefixes, word.start, head, items.as_slice())
        }
    }
}

fn declaration(
    alloc: Global,
    text: &[u8],
    prefixes: &PrefixMap,
    at: usize,
    items: &[Item],
) -> Result<Direct, Stop>
    ensures { Gives (λ x. x) result (declaration at (map (given text.now prefixes.now) items.now)) }
{
    match items {
        [item] => {
            if !is_headed(text, prefixes, item) {
                return Err(Stop::Fault(OffsetFault::Shape { at }));
            }
            entity_of(alloc, text, prefixes, item)
        }
        _ => Err(Stop::Fault(OffsetFault::Shape { at })),
    }
}

fn direct_group(
    alloc: Global,
    text: &[u8],
    prefixes: &PrefixMap,
    at: usize,
    head: Head,
    items: &[Item],
) -> Result<Direct, Stop>
    ensures { Gives (λ x. x) result
        (direct_group at head (map (given text.now prefixes.now) items.now)) }
{
    match head {
        Head::Annotation
        | Head::AnnotationAssertion
        | Head::SubAnnotationPropertyOf
        | Head::AnnotationPropertyDomain
        | Head::AnnotationPropertyRange => Ok(Direct::Nothing),
        Head::Declaration => {
            let items = after_annotations(text, prefixes, items);
            declaration(alloc, text, prefixes, at, items)
        }
        _ => {
            let items = after_annotations(text, prefixes, items);
            let found = axiom_group(alloc, text, prefixes, at, head, items)?;
            Ok(Direct::Axiom(found))
        }
    }
}

// What an item says, directly in an ontology.
#[tactic(auto, using(crate::proofs::GivenLaws::atom_gives, crate::proofs::GivenLaws::bare_gives, crate::proofs::GivenLaws::group_gives))]
pub fn direct_of(
    alloc: Global,
    text: &[u8],
    prefixes: &PrefixMap,
    item: &Item,
) -> Result<Direct, Stop>
    ensures { Gives (λ x. x) result (given text.now prefixes.now item.now).direct }
{
    match item {
        Item::Atom(token) => Err(Stop::Fault(OffsetFault::Head { at: token.start })),
        Item::Group {
            head,
            items,
            start,
            ..
        } => {
            let Some(word) = head else {
                return Err(Stop::Fault(OffsetFault::Head { at: *start }));
            };
            let head = head_of(bytes_of(text, *word));
            direct_group(alloc, text, prefixes, word.start, head, items.as_slice())
        }
    }
}
