//! The ranks that are kept.

use crate::setting::{chosen, made};
use closed_model::ClosedTable;
use saturate::start;
use std::alloc::Global;
use std::test::Fail;

const HEADER: &str = "#curie_map:\n#  l: http://l/\n#  r: http://r/\n\
subject_id\tpredicate_id\tobject_id\tconfidence\n";

const APART: &str = "DisjointClasses(:A :B)";

const X_ALONE: &str = "Declaration(Class(:X))";

pub(crate) const CHAINED: &str = "SubClassOf(:A ObjectSomeValuesFrom(:r :B)) \
SubObjectPropertyOf(ObjectPropertyChain(:r :s) :t) \
DisjointClasses(:A ObjectSomeValuesFrom(:t :C))";

pub(crate) const LED: &str = "SubClassOf(:X ObjectSomeValuesFrom(:u :Y))";

/// The table of no ranks of two ontologies with these axioms and of a table with these rows.
pub(crate) fn first(
    alloc: Global,
    left: &str,
    right: &str,
    rows: &str,
) -> Result<ClosedTable, Fail> {
    let left = format!(in alloc; "Prefix(:=<http://l/>) Ontology({left})")?;
    let right = format!(in alloc; "Prefix(:=<http://r/>) Ontology({right})")?;
    let map = format!(in alloc; "{HEADER}{rows}")?;
    let loaded = made(alloc, left.as_str(), right.as_str(), map.as_str())?;
    match start(alloc, &loaded.case) {
        Ok(table) => Ok(table),
        Err(_) => Err("incoherent".into()),
    }
}

// The ranks that are kept.
fn kept(alloc: Global, left: &str, right: &str, rows: &str) -> Result<Vec<u32>, Fail> {
    let table = chosen(alloc, first(alloc, left, right, rows)?)?;
    Ok(Vec::from_slice(alloc, table.ranks())?)
}

#[test]
fn rows_about_classes(rt: HostRuntime) -> Result<(), Fail> {
    let alloc = rt.alloc();
    let whole = "l:A\tskos:exactMatch\tr:X\t0.9
l:B\tskos:exactMatch\tr:Y\t0.8
l:B\tskos:broadMatch\tr:Y\t0.7
";
    let tie = "r:X\tskos:broadMatch\tl:A\t0.850\nr:X\tskos:broadMatch\tl:B\t0.85\n";
    let repeat = "r:X\tskos:broadMatch\tl:A\t0.9
r:X\tskos:broadMatch\tl:B\t0.8
r:X\tskos:broadMatch\tl:B\t0.8
";
    let conflicts = "r:X\tskos:broadMatch\tl:A\t0.9
r:X\tskos:broadMatch\tl:B\t0.8
r:X\tskos:broadMatch\tl:C\t0.7
";
    let twice = "DisjointClasses(:A :B) DisjointClasses(:B :C)";
    let nothing = "l:A\tskos:broadMatch\towl:Nothing\t\n";
    let a_alone = "Declaration(Class(:A))";
    let cases: [(&str, &str, &str, &str, &[u32]); 6] = [
        ("whole", APART, "SubClassOf(:X :Y)", whole, &[0, 2]),
        ("empty", APART, "SubClassOf(:X :Y)", "", &[]),
        ("tie", APART, X_ALONE, tie, &[0]),
        ("repeat", APART, X_ALONE, repeat, &[0]),
        ("conflicts", twice, X_ALONE, conflicts, &[0, 2]),
        ("nothing", a_alone, "", nothing, &[]),
    ];
    for (name, left, right, rows, ranks) in cases {
        let found = kept(alloc, left, right, rows)?;
        assert!(rt; found.as_slice() == ranks, "{name}");
    }
    Ok(())
}

#[test]
fn rows_about_properties(rt: HostRuntime) -> Result<(), Fail> {
    let alloc = rt.alloc();
    let b = "l:B\tskos:broadMatch\tr:X\t0.9\n";
    let u = "r:u\trdfs:subPropertyOf\tl:s\t0.8\n";
    let y = "r:Y\tskos:broadMatch\tl:C\t0.7\n";
    let all = format!(in alloc; "{b}{u}{y}")?;
    let two = format!(in alloc; "{b}{u}")?;
    let ends = format!(in alloc; "{b}{y}")?;
    let later = format!(in alloc; "{u}{y}")?;
    let whole = "ObjectPropertyDomain(:hasPart :Whole) DisjointClasses(:Whole :Atom)";
    let has = "SubClassOf(:N ObjectSomeValuesFrom(:has :M))";
    let atoms = "l:Atom\tskos:exactMatch\tr:N\t0.9\nl:hasPart\tskos:exactMatch\tr:has\t0.8\n";
    let cases: [(&str, &str, &str, &str, &[u32]); 5] = [
        ("three", CHAINED, LED, all.as_str(), &[0, 1]),
        ("two", CHAINED, LED, two.as_str(), &[0, 1]),
        ("ends", CHAINED, LED, ends.as_str(), &[0, 1]),
        ("later", CHAINED, LED, later.as_str(), &[0, 1]),
        ("domain", whole, has, atoms, &[0]),
    ];
    for (name, left, right, rows, ranks) in cases {
        let found = kept(alloc, left, right, rows)?;
        assert!(rt; found.as_slice() == ranks, "{name}");
    }
    Ok(())
}

// A case: its name, LEFT, RIGHT, the rows, and the ranks that are kept.
type Rows = (
    &'static str,
    &'static str,
    &'static str,
    &'static str,
    &'static [u32],
);

static LATE: [Rows; 5] = [
    (
        "a domain over an old link",
        "SubClassOf(:A ObjectSomeValuesFrom(:r :B))",
        "ObjectPropertyDomain(:s :X) DisjointClasses(:X :Y)",
        "l:A\tskos:broadMatch\tr:Y\t0.9\nl:r\trdfs:subPropertyOf\tr:s\t0.8\n",
        &[0],
    ),
    (
        "a chain over old links",
        "SubClassOf(:A ObjectSomeValuesFrom(:r :B)) SubClassOf(:B ObjectSomeValuesFrom(:r :C))",
        "TransitiveObjectProperty(:s) DisjointClasses(:X ObjectSomeValuesFrom(:s :Y))",
        "l:A\tskos:broadMatch\tr:X\t0.9\nl:C\tskos:broadMatch\tr:Y\t0.8\n\
l:r\trdfs:subPropertyOf\tr:s\t0.7\n",
        &[0, 1],
    ),
    (
        "a reflexive property gets a domain",
        "ReflexiveObjectProperty(:r) SubClassOf(:A :B)",
        "ObjectPropertyDomain(:s :X) SubClassOf(:X :Y) DisjointClasses(:Y :Z)",
        "r:Z\tskos:broadMatch\tl:A\t0.9\nl:r\trdfs:subPropertyOf\tr:s\t0.8\n",
        &[0],
    ),
    (
        "the domain of a reflexive property is below a class",
        "ReflexiveObjectProperty(:r) ObjectPropertyDomain(:r :A)",
        "DisjointClasses(:X :Y)",
        "l:A\tskos:broadMatch\tr:X\t0.9\nr:X\tskos:broadMatch\tl:A\t0.8\n",
        &[1],
    ),
    (
        "ranks without axioms",
        "DisjointClasses(:A :B)",
        "Declaration(Class(:X))",
        "r:X\tskos:closeMatch\tl:A\t0.9\nr:X\tskos:broadMatch\tl:A\t0.8\n\
r:X\tskos:broadMatch\tl:B\t0.7\nr:X\tskos:broadMatch\tl:Q\t0.6\n",
        &[0, 1, 3],
    ),
];

#[test]
fn rows_that_meet_what_is_known(rt: HostRuntime) -> Result<(), Fail> {
    let alloc = rt.alloc();
    for (name, left, right, rows, ranks) in &LATE {
        let found = kept(alloc, left, right, rows)?;
        assert!(rt; found.as_slice() == *ranks, "{name}");
    }
    Ok(())
}
