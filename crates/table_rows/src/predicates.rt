//! Rows of each predicate, between classes and properties.

use el_logic::{Axiom, Axioms, Expr};
use predicate_axioms::axioms_of_row;
use sssom_rows::read_table;
use std::alloc::Global;
use std::test::Fail;
use text_names::NameTable;

// A class as one letter: `T` and `B` are `owl:Thing` and `owl:Nothing`.
fn class_letter(class: &Expr) -> char {
    match class {
        Expr::Top => 'T',
        Expr::Bottom => 'B',
        Expr::Name(0) => 'a',
        Expr::Name(1) => 'b',
        _ => '?',
    }
}

fn property_letter(number: u32) -> char {
    match number {
        0 => 'p',
        1 => 'q',
        _ => '?',
    }
}

// The axioms in order, each as the lower name and the upper one.
fn spelled(alloc: Global, axioms: &Axioms) -> Result<String, Fail> {
    let mut text = String::new(alloc);
    for found in axioms.as_slice() {
        match found {
            Axiom::SubClass(lower, upper) => {
                text.push(class_letter(lower))?;
                text.push(class_letter(upper))?;
            }
            Axiom::SubRole(chain, upper) => {
                for lower in chain.as_slice() {
                    text.push(property_letter(*lower))?;
                }
                text.push(property_letter(*upper))?;
            }
            _ => text.push('?')?,
        }
        text.push(' ')?;
    }
    Ok(text)
}

// The axioms of a row, where `n:a`, `n:b` and `n:c` are classes and `n:p`, `n:q` and `n:c` are
// properties.
fn axioms(alloc: Global, row: &str) -> Result<String, Fail> {
    let mut classes = NameTable::new(alloc, 9);
    classes.number("http://n/a".as_bytes())?;
    classes.number("http://n/b".as_bytes())?;
    classes.number("http://n/c".as_bytes())?;
    let mut roles = NameTable::new(alloc, 9);
    roles.number("http://n/p".as_bytes())?;
    roles.number("http://n/q".as_bytes())?;
    roles.number("http://n/c".as_bytes())?;
    let text = format!(in alloc;
        "#curie_map:\n#  n: http://n/\nsubject_id\tpredicate_id\tobject_id\tpredicate_modifier\n{row}\n"
    )?;
    let bytes = text.as_str().as_bytes();
    if bytes.len() >= 0x8000_0000 {
        return Ok(text);
    }
    let table = read_table(alloc, bytes, 1)?;
    match table.rows.as_slice().first() {
        Some(row) => spelled(alloc, &axioms_of_row(alloc, row, &classes, &roles)?),
        None => Ok(String::from_str(alloc, "no row")?),
    }
}

// A row, and its axioms.
type Case = (&'static str, &'static str);

static OF_CLASSES: [Case; 11] = [
    ("n:a\towl:equivalentClass\tn:b\t", "ab ba "),
    ("n:a\tskos:exactMatch\tn:b\t", "ab ba "),
    ("n:a\trdfs:subClassOf\tn:b\t", "ab "),
    ("n:a\tskos:broadMatch\tn:b\t", "ab "),
    ("n:a\tskos:narrowMatch\tn:b\t", "ba "),
    ("n:a\towl:equivalentProperty\tn:b\t", ""),
    ("n:a\trdfs:subPropertyOf\tn:b\t", ""),
    ("n:a\tskos:closeMatch\tn:b\t", ""),
    ("n:a\tskos:broadMatch\towl:Nothing\t", "aB "),
    ("owl:Thing\tskos:broadMatch\tn:a\t", "Ta "),
    ("n:c\tskos:broadMatch\tn:a\t", "?a "),
];

static OF_PROPERTIES: [Case; 8] = [
    ("n:p\towl:equivalentClass\tn:q\t", ""),
    ("n:p\tskos:exactMatch\tn:q\t", "pq qp "),
    ("n:p\trdfs:subClassOf\tn:q\t", ""),
    ("n:p\tskos:broadMatch\tn:q\t", "pq "),
    ("n:p\tskos:narrowMatch\tn:q\t", "qp "),
    ("n:p\towl:equivalentProperty\tn:q\t", "pq qp "),
    ("n:p\trdfs:subPropertyOf\tn:q\t", "pq "),
    ("n:p\tskos:broadMatch\tn:c\t", ""),
];

static INERT: [Case; 8] = [
    ("n:a\tskos:broadMatch\tn:b\tNot", ""),
    ("n:a\tskos:broadMatch\tn:p\t", ""),
    ("n:p\tskos:exactMatch\tn:a\t", ""),
    ("n:a\tskos:broadMatch\tn:x\t", ""),
    ("n:x\tskos:broadMatch\tn:p\t", ""),
    ("\tskos:broadMatch\tn:b\t", ""),
    ("n:a\t\tn:b\t", ""),
    ("n:a\tskos:broadMatch\t\t", ""),
];

#[test]
fn gives_axioms_of_classes(rt: HostRuntime) -> Result<(), Fail> {
    for case in &OF_CLASSES {
        let found = axioms(rt.alloc(), case.0)?;
        assert_eq!(rt; found.as_str(), case.1, "{}", case.0);
    }
    Ok(())
}

#[test]
fn gives_axioms_of_properties(rt: HostRuntime) -> Result<(), Fail> {
    for case in &OF_PROPERTIES {
        let found = axioms(rt.alloc(), case.0)?;
        assert_eq!(rt; found.as_str(), case.1, "{}", case.0);
    }
    Ok(())
}

#[test]
fn keeps_inert_rows(rt: HostRuntime) -> Result<(), Fail> {
    for case in &INERT {
        let found = axioms(rt.alloc(), case.0)?;
        assert_eq!(rt; found.as_str(), case.1, "{}", case.0);
    }
    Ok(())
}
