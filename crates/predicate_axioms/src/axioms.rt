//! The axioms of rows.

ghost use Rattle.std.specs.Prelude.{◌≡◌, ◌∷◌, [], IfOk};
ghost use Rattle.el_logic.specs.declared.types.Axiom.TheVariants.{SubRole};
ghost use Rattle.predicate_axioms.specs.RowAxioms.{class_axioms, property_axioms, by_properties, axioms_between, row_axioms};
ghost use Rattle.predicate_axioms.specs.Predicates.{of_properties};
ghost use Rattle.predicate_axioms.specs.Inside.{expr_of};
ghost use Rattle.text_names.specs.Names.{number_of};

use crate::Relation;
use crate::names::{ClassName, class_of};
use crate::predicates::{of_classes, of_properties};
use el_logic::{Axiom, Axioms, Numbers};
use sssom_rows::Row;
use std::alloc::{AllocError, Global};
use text_names::NameTable;

/// The axioms of a row: no, one or two, by its predicate (SKOS, OWL 2 and RDF Schema). A row
/// without axioms is inert. The names are those of both ontologies, with their numbers.
pub fn axioms_of_row(
    alloc: Global,
    row: &Row,
    classes: &NameTable,
    roles: &NameTable,
) -> Result<Axioms, AllocError>
    ensures { IfOk result (λ axioms.
        axioms ≡ row_axioms classes.now.names roles.now.names row.now) }
{
    if row.modified {
        return Ok(Axioms::new(alloc));
    }
    let Some(predicate) = &row.predicate else {
        return Ok(Axioms::new(alloc));
    };
    let Some(subject) = &row.subject else {
        return Ok(Axioms::new(alloc));
    };
    let Some(object) = &row.object else {
        return Ok(Axioms::new(alloc));
    };
    axioms_between(
        alloc,
        classes,
        roles,
        predicate.bytes(),
        subject.bytes(),
        object.bytes(),
    )
}

fn axioms_between(
    alloc: Global,
    classes: &NameTable,
    roles: &NameTable,
    predicate: &[u8],
    subject: &[u8],
    object: &[u8],
) -> Result<Axioms, AllocError>
    ensures { IfOk result (λ axioms. axioms ≡
        axioms_between classes.now.names roles.now.names predicate.now subject.now object.now) }
{
    match class_of(classes, subject) {
        Some(subject) => match class_of(classes, object) {
            Some(object) => class_axioms(alloc, of_classes(predicate), subject, object),
            None => Ok(Axioms::new(alloc)),
        },
        None => match class_of(classes, object) {
            Some(_) => Ok(Axioms::new(alloc)),
            None => by_properties(alloc, roles, predicate, subject, object),
        },
    }
}

fn by_properties(
    alloc: Global,
    roles: &NameTable,
    predicate: &[u8],
    subject: &[u8],
    object: &[u8],
) -> Result<Axioms, AllocError>
    ensures { IfOk result (λ axioms. axioms ≡ by_properties (of_properties predicate.now)
        (number_of roles.now.names subject.now) (number_of roles.now.names object.now)) }
{
    let Some(subject) = roles.find(subject) else {
        return Ok(Axioms::new(alloc));
    };
    let Some(object) = roles.find(object) else {
        return Ok(Axioms::new(alloc));
    };
    property_axioms(alloc, of_properties(predicate), subject, object)
}

fn one(alloc: Global, only: Axiom) -> Result<Axioms, AllocError>
    ensures { IfOk result (λ axioms. axioms ≡ only ∷ []) }
{
    let mut axioms = Axioms::new(alloc);
    axioms.push(only)?;
    Ok(axioms)
}

fn two(alloc: Global, first: Axiom, second: Axiom) -> Result<Axioms, AllocError>
    ensures { IfOk result (λ axioms. axioms ≡ first ∷ second ∷ []) }
{
    let mut axioms = Axioms::new(alloc);
    axioms.push(first)?;
    axioms.push(second)?;
    Ok(axioms)
}

fn class_axioms(
    alloc: Global,
    relation: Option<Relation>,
    subject: ClassName,
    object: ClassName,
) -> Result<Axioms, AllocError>
    ensures { IfOk result (λ axioms.
        axioms ≡ class_axioms relation (expr_of subject) (expr_of object)) }
{
    let Some(relation) = relation else {
        return Ok(Axioms::new(alloc));
    };
    match relation {
        Relation::Equal => two(
            alloc,
            Axiom::SubClass(subject.expr(), object.expr()),
            Axiom::SubClass(object.expr(), subject.expr()),
        ),
        Relation::Below => one(alloc, Axiom::SubClass(subject.expr(), object.expr())),
        Relation::Above => one(alloc, Axiom::SubClass(object.expr(), subject.expr())),
    }
}

fn sub_role(alloc: Global, lower: u32, upper: u32) -> Result<Axiom, AllocError>
    ensures { IfOk result (λ found. found ≡ SubRole (lower ∷ []) upper) }
{
    let mut chain = Numbers::new(alloc);
    chain.push(lower)?;
    Ok(Axiom::SubRole(chain, upper))
}

fn property_axioms(
    alloc: Global,
    relation: Option<Relation>,
    subject: u32,
    object: u32,
) -> Result<Axioms, AllocError>
    ensures { IfOk result (λ axioms. axioms ≡ property_axioms relation subject object) }
{
    let Some(relation) = relation else {
        return Ok(Axioms::new(alloc));
    };
    match relation {
        Relation::Equal => two(
            alloc,
            sub_role(alloc, subject, object)?,
            sub_role(alloc, object, subject)?,
        ),
        Relation::Below => one(alloc, sub_role(alloc, subject, object)?),
        Relation::Above => one(alloc, sub_role(alloc, object, subject)?),
    }
}
