//! The nodes and roles of small cases.

use crate::loads::{made, with_rows};
use case_file::Case;
use concept_store::{Node, RoleNode};
use ofn_axiom::Mode;
use std::alloc::Global;
use std::test::Fail;
use text_names::Limits;

// The nodes that are no names, in the order of their numbers.
fn compounds_of(alloc: Global, case: &Case) -> Result<String, Fail> {
    let store = case.store();
    let mut text = String::new(alloc);
    for n in 0..store.nodes() {
        match store.node(n) {
            Node::And(one, other) => {
                text.push_str(format!(in alloc; " and({one} {other})")?.as_str())?;
            }
            Node::Exists(role, filler) => {
                text.push_str(format!(in alloc; " some({role} {filler})")?.as_str())?;
            }
            _ => {}
        }
    }
    Ok(text)
}

// The parts of chains, in the order of their numbers: the side, the axiom and the length.
fn parts_of(alloc: Global, case: &Case) -> Result<String, Fail> {
    let store = case.store();
    let mut text = String::new(alloc);
    for r in 0..store.roles() {
        match store.role(r) {
            RoleNode::Named(_) => {}
            RoleNode::Part {
                side,
                axiom,
                length,
            } => {
                text.push_str(format!(in alloc; " {side:?}({axiom} {length})")?.as_str())?;
            }
        }
    }
    Ok(text)
}

// What a case with these axioms and no rows has beside names: nodes, and then roles.
fn shape_of(alloc: Global, left: &str, right: &str) -> Result<(u32, String, String), Fail> {
    let left = format!(in alloc; "Prefix(:=<http://l/>) Ontology({left})")?;
    let right = format!(in alloc; "Prefix(:=<http://r/>) Ontology({right})")?;
    let map = with_rows(alloc, "")?;
    let limits = Limits::standard();
    let loaded = made(
        alloc,
        left.as_str(),
        right.as_str(),
        map.as_str(),
        Mode::Strict,
        &limits,
    )?;
    let nodes = compounds_of(alloc, &loaded.case)?;
    let roles = parts_of(alloc, &loaded.case)?;
    Ok((loaded.case.store().nodes(), nodes, roles))
}

#[test]
fn nodes_of_small_cases(rt: HostRuntime) -> Result<(), Fail> {
    let rows = [
        ("Declaration(Class(:A))", "", 3, ""),
        (
            "SubClassOf(:A ObjectSomeValuesFrom(:r :B))
            SubObjectPropertyOf(ObjectPropertyChain(:r :s) :t)
            DisjointClasses(:A ObjectSomeValuesFrom(:t :C))",
            "SubClassOf(:X ObjectSomeValuesFrom(:u :Y))",
            10,
            " some(0 3) some(2 4) some(3 6)",
        ),
        (
            "ObjectPropertyDomain(:hasPart :Whole) DisjointClasses(:Whole :Atom)",
            "SubClassOf(:N ObjectSomeValuesFrom(:has :M))",
            7,
            " some(1 5)",
        ),
        (
            "SubClassOf(:A ObjectIntersectionOf(:B ObjectSomeValuesFrom(:r :C) :D))",
            "",
            9,
            " some(0 4) and(3 6) and(7 5)",
        ),
        (
            "SubClassOf(ObjectIntersectionOf(
            ObjectSomeValuesFrom(:r :B) ObjectIntersectionOf(:C :D) :B) :A)",
            "",
            10,
            " some(0 2) and(3 4) and(6 7) and(8 2)",
        ),
        (
            "SubClassOf(:A ObjectSomeValuesFrom(:r :B))",
            "SubClassOf(:X ObjectSomeValuesFrom(<http://l/r> <http://l/B>))",
            6,
            " some(0 3)",
        ),
    ];
    for (left, right, count, wanted) in rows {
        let (nodes, compounds, _) = shape_of(rt.alloc(), left, right)?;
        assert_eq!(rt; nodes, count, "{left}");
        assert_eq!(rt; compounds.as_str(), wanted, "{left}");
    }
    Ok(())
}

#[test]
fn parts_of_chains(rt: HostRuntime) -> Result<(), Fail> {
    let rows = [
        ("SubObjectPropertyOf(ObjectPropertyChain(:r :s) :t)", "", ""),
        (
            "SubObjectPropertyOf(ObjectPropertyChain(:r :s) :t)
            SubObjectPropertyOf(ObjectPropertyChain(:r :s :t) :r)
            SubObjectPropertyOf(ObjectPropertyChain(:r :s :t :t) :s)",
            "SubObjectPropertyOf(ObjectPropertyChain(:p :q :p) :q)",
            " Left(2 2) Left(3 2) Left(3 3) Right(1 2)",
        ),
    ];
    for (left, right, wanted) in rows {
        let (_, _, parts) = shape_of(rt.alloc(), left, right)?;
        assert_eq!(rt; parts.as_str(), wanted, "{left}");
    }
    Ok(())
}
