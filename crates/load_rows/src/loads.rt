//! Limits, and the first fault where several stand.

use case_load::{LimitKind, LoadFault, Loaded, assemble, load};
use el_logic::Side;
use io_edge::{MemFolder, Role};
use ofn_axiom::{DocKind, Mode};
use ofn_heads::HeadId;
use sssom_rows::TableFault;
use std::alloc::Global;
use std::test::Fail;
use text_names::{Limits, Place, Text};

const COLUMNS: &str = "subject_id\tpredicate_id\tobject_id\tconfidence\n";

const DISJOINT: &str = "Prefix(:=<http://l/>) Ontology(DisjointClasses(:A :B))";

const BELOW: &str = "Prefix(:=<http://r/>) Ontology(SubClassOf(:X :Y))";

const MATCHES: &str = "l:A\tskos:exactMatch\tr:X\t0.8
l:B\tskos:exactMatch\tr:Y\t0.9
l:Q\tskos:broadMatch\tr:Y\t0.7
";

const CHAINED: &str = "Prefix(:=<http://l/>) Ontology(
SubClassOf(:A ObjectSomeValuesFrom(:r :B))
SubObjectPropertyOf(ObjectPropertyChain(:r :s) :t)
DisjointClasses(:A ObjectSomeValuesFrom(:t :C)))";

const USED: &str = "Prefix(:=<http://r/>) Ontology(SubClassOf(:X ObjectSomeValuesFrom(:u :Y)))";

const BROKEN: &str = "Ontology(";

const EMPTY: &str = "Ontology()";

const OUTSIDE: &str = "Ontology(ObjectPropertyRange(<r> <c>))";

const DEEP: &str = "Ontology(SubClassOf(<a>
ObjectSomeValuesFrom(<r> ObjectSomeValuesFrom(<r> <b>))))";

// In place of a text: there is no such file.
const NONE: &str = "-";

pub(crate) fn with_rows(alloc: Global, rows: &str) -> Result<String, Fail> {
    Ok(format!(in alloc; "#curie_map:\n#  l: http://l/\n#  r: http://r/\n{COLUMNS}{rows}")?)
}

pub(crate) fn made(
    alloc: Global,
    left: &str,
    right: &str,
    map: &str,
    mode: Mode,
    limits: &Limits,
) -> Result<Loaded, LoadFault> {
    let left = left.as_bytes();
    let right = right.as_bytes();
    let map = map.as_bytes();
    if left.len() >= 0x8000_0000 || right.len() >= 0x8000_0000 || map.len() >= 0x8000_0000 {
        return Err(LoadFault::OutOfMemory);
    }
    if limits.depth > 256 {
        return Err(LoadFault::OutOfMemory);
    }
    assemble(alloc, left, right, map, mode, limits)
}

fn limit(kind: LimitKind) -> Option<LoadFault> {
    Some(LoadFault::Limit { kind })
}

fn broken(side: Side) -> Option<LoadFault> {
    Some(LoadFault::Syntax {
        side,
        place: Place { line: 1, column: 9 },
        kind: DocKind::Unclosed,
    })
}

#[test]
fn one_case_of_three_texts(rt: HostRuntime) -> Result<(), Fail> {
    let map = with_rows(rt.alloc(), MATCHES)?;
    let limits = Limits::standard();
    let loaded = made(
        rt.alloc(),
        DISJOINT,
        BELOW,
        map.as_str(),
        Mode::Strict,
        &limits,
    )?;
    assert_eq!(rt; loaded.inert, 1);
    assert_eq!(rt; loaded.names.classes.len(), 4);
    assert_eq!(rt; loaded.table.rows.as_slice().len(), 3);
    assert_eq!(rt; loaded.omitted.left.len() + loaded.omitted.right.len(), 0);
    assert_eq!(rt; loaded.case.store().nodes(), 6);
    assert_eq!(rt; loaded.case.ranks(), 3);
    assert!(rt; 0 < loaded.case.ranks());
    assert_eq!(rt; loaded.case.row_of(0), 1);
    Ok(())
}

#[test]
fn nodes_and_then_roles_are_limited(rt: HostRuntime) -> Result<(), Fail> {
    let map = with_rows(rt.alloc(), MATCHES)?;
    let rows = [
        ("six nodes", DISJOINT, BELOW, 6, 0, None),
        ("five nodes", DISJOINT, BELOW, 5, 0, limit(LimitKind::Nodes)),
        ("four roles", CHAINED, USED, 10, 4, None),
        ("three roles", CHAINED, USED, 10, 3, limit(LimitKind::Roles)),
        ("neither", CHAINED, USED, 9, 3, limit(LimitKind::Nodes)),
    ];
    for (name, left, right, nodes, roles, wanted) in rows {
        let mut limits = Limits::standard();
        limits.nodes = nodes;
        limits.roles = roles;
        let fault = made(rt.alloc(), left, right, map.as_str(), Mode::Strict, &limits).err();
        assert_eq!(rt; fault, wanted, "{name}");
    }
    Ok(())
}

#[test]
fn first_fault_of_the_texts(rt: HostRuntime) -> Result<(), Fail> {
    let no_columns = Some(LoadFault::Table {
        fault: TableFault::NoColumns,
    });
    let whole = with_rows(rt.alloc(), MATCHES)?;
    let whole = whole.as_str();
    let rows = [
        ("all", BROKEN, BROKEN, "", 9, 9, broken(Side::Left)),
        ("right", DISJOINT, BROKEN, "", 9, 9, broken(Side::Right)),
        (
            "classes",
            DISJOINT,
            BELOW,
            "",
            3,
            9,
            limit(LimitKind::Classes(Side::Right)),
        ),
        ("map", DISJOINT, BELOW, "", 4, 2, no_columns),
        ("rows", DISJOINT, BELOW, whole, 4, 2, limit(LimitKind::Rows)),
        (
            "nodes",
            DISJOINT,
            BELOW,
            whole,
            4,
            3,
            limit(LimitKind::Nodes),
        ),
    ];
    for (name, left, right, map, classes, most_rows, wanted) in rows {
        let mut limits = Limits::standard();
        limits.classes = classes;
        limits.rows = most_rows;
        limits.nodes = 5;
        let fault = made(rt.alloc(), left, right, map, Mode::Strict, &limits).err();
        assert_eq!(rt; fault, wanted, "{name}");
    }
    Ok(())
}

fn outside(side: Side) -> Option<LoadFault> {
    Some(LoadFault::Profile {
        side,
        place: Place {
            line: 1,
            column: 10,
        },
        head: HeadId::ObjectPropertyRange,
    })
}

#[test]
fn each_fault_of_a_document(rt: HostRuntime) -> Result<(), Fail> {
    let (left, right) = (Side::Left, Side::Right);
    let depths = (
        limit(LimitKind::Depth(left)),
        limit(LimitKind::Depth(right)),
    );
    let classes = (
        limit(LimitKind::Classes(left)),
        limit(LimitKind::Classes(right)),
    );
    let properties = (
        limit(LimitKind::Properties(left)),
        limit(LimitKind::Properties(right)),
    );
    let rows = [
        ("syntax", BROKEN, 4, 2, 1, (broken(left), broken(right))),
        ("profile", OUTSIDE, 4, 2, 1, (outside(left), outside(right))),
        ("depth", DEEP, 3, 2, 1, depths),
        ("classes", DEEP, 4, 1, 1, classes),
        ("properties", DEEP, 4, 2, 0, properties),
    ];
    for (name, text, depth, classes, properties, wanted) in rows {
        let mut limits = Limits::standard();
        limits.depth = depth;
        limits.classes = classes;
        limits.properties = properties;
        let fault = made(rt.alloc(), text, BROKEN, "", Mode::Strict, &limits).err();
        assert_eq!(rt; fault, wanted.0, "{name} in LEFT");
        let fault = made(rt.alloc(), EMPTY, text, "", Mode::Strict, &limits).err();
        assert_eq!(rt; fault, wanted.1, "{name} in RIGHT");
    }
    Ok(())
}

#[test]
fn what_is_outside_is_left_out(rt: HostRuntime) -> Result<(), Fail> {
    let map = with_rows(rt.alloc(), "")?;
    let limits = Limits::standard();
    let loaded = made(
        rt.alloc(),
        OUTSIDE,
        EMPTY,
        map.as_str(),
        Mode::ElPart,
        &limits,
    )?;
    assert_eq!(rt; loaded.omitted.left.len(), 1);
    assert_eq!(rt; loaded.omitted.right.len(), 0);
    Ok(())
}

fn put(alloc: Global, folder: &mut MemFolder, name: &str, text: &str) -> Result<Text, Fail> {
    let name = Text::of(alloc, name.as_bytes())?;
    if text != NONE {
        folder.set(&name, text.as_bytes())?;
    }
    Ok(name)
}

// The fault of a folder with these files, in which one call fails.
fn fault_of_files(
    alloc: Global,
    left: &str,
    right: &str,
    map: &str,
    failing: u64,
    file_bytes: u64,
) -> Result<Option<LoadFault>, Fail> {
    let mut folder = MemFolder::new(alloc);
    let left = put(alloc, &mut folder, "LEFT", left)?;
    let right = put(alloc, &mut folder, "RIGHT", right)?;
    let map = put(alloc, &mut folder, "MAP", map)?;
    folder.fail(failing)?;
    let mut limits = Limits::standard();
    if file_bytes < limits.file_bytes {
        limits.file_bytes = file_bytes;
    }
    Ok(load(
        alloc,
        &mut folder,
        &left,
        &right,
        &map,
        Mode::Strict,
        &limits,
    )
    .err())
}

fn not_read(file: Role) -> Option<LoadFault> {
    Some(LoadFault::ReadFault { file })
}

#[test]
fn first_file_that_is_not_read(rt: HostRuntime) -> Result<(), Fail> {
    let map = with_rows(rt.alloc(), MATCHES)?;
    let map = map.as_str();
    let rows = [
        ("whole", DISJOINT, BELOW, map, 9, None),
        ("LEFT alone", DISJOINT, NONE, NONE, 9, not_read(Role::Right)),
        ("no MAP", BROKEN, BELOW, NONE, 9, not_read(Role::Map)),
        ("call 1", DISJOINT, BELOW, map, 1, not_read(Role::Left)),
        ("call 2", DISJOINT, BELOW, map, 2, not_read(Role::Right)),
        ("call 3", BROKEN, BELOW, map, 3, not_read(Role::Map)),
    ];
    for (name, left, right, map, failing, wanted) in rows {
        let fault = fault_of_files(rt.alloc(), left, right, map, failing, 1000)?;
        assert_eq!(rt; fault, wanted, "{name}");
    }
    Ok(())
}

#[test]
fn first_file_that_is_too_long(rt: HostRuntime) -> Result<(), Fail> {
    let map = with_rows(rt.alloc(), MATCHES)?;
    let map = map.as_str();
    let rows = [
        (DISJOINT, NONE, 53, limit(LimitKind::Bytes(Role::Left))),
        (BROKEN, BELOW, 48, limit(LimitKind::Bytes(Role::Right))),
        (BROKEN, BELOW, 49, limit(LimitKind::Bytes(Role::Map))),
        (BROKEN, BELOW, 1000, broken(Side::Left)),
    ];
    for (left, right, file_bytes, wanted) in rows {
        let fault = fault_of_files(rt.alloc(), left, right, map, 9, file_bytes)?;
        assert_eq!(rt; fault, wanted, "{file_bytes}");
    }
    Ok(())
}
