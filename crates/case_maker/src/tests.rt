//! Small made cases, byte for byte, and the size of a larger one.

use crate::make;
use std::test::Fail;

#[test]
fn one_group(rt: HostRuntime) -> Result<(), Fail> {
    let made = make(rt.alloc(), 1)?;
    assert_eq!(rt;
        made.left.as_slice(),
        b"Prefix(:=<http://example.org/left#>)
Ontology(<http://example.org/left>
DisjointClasses(:A1 :B1)
)
"
            .as_slice()
    );
    assert_eq!(rt;
        made.right.as_slice(),
        b"Prefix(:=<http://example.org/right#>)
Ontology(<http://example.org/right>
SubClassOf(:X1 :Y1)
)
"
            .as_slice()
    );
    assert_eq!(rt;
        made.table.as_slice(),
        b"#curie_map:
#  l: http://example.org/left#
#  r: http://example.org/right#
subject_id\tpredicate_id\tobject_id\tconfidence
l:A1\tskos:exactMatch\tr:X1\t0.9
l:B1\tskos:exactMatch\tr:Y1\t0.8
l:B1\tskos:broadMatch\tr:Y1\t0.7
"
            .as_slice()
    );
    Ok(())
}

#[test]
fn two_groups(rt: HostRuntime) -> Result<(), Fail> {
    let made = make(rt.alloc(), 2)?;
    assert_eq!(rt;
        made.left.as_slice(),
        b"Prefix(:=<http://example.org/left#>)
Ontology(<http://example.org/left>
DisjointClasses(:A1 :B1)
DisjointClasses(:A2 :B2)
SubClassOf(:A1 ObjectSomeValuesFrom(:p :A2))
)
"
            .as_slice()
    );
    assert_eq!(rt;
        made.right.as_slice(),
        b"Prefix(:=<http://example.org/right#>)
Ontology(<http://example.org/right>
SubClassOf(:X1 :Y1)
SubClassOf(:X2 :Y2)
)
"
            .as_slice()
    );
    assert_eq!(rt;
        made.table.as_slice(),
        b"#curie_map:
#  l: http://example.org/left#
#  r: http://example.org/right#
subject_id\tpredicate_id\tobject_id\tconfidence
l:A1\tskos:exactMatch\tr:X1\t0.9
l:B1\tskos:exactMatch\tr:Y1\t0.8
l:B1\tskos:broadMatch\tr:Y1\t0.7
l:A2\tskos:exactMatch\tr:X2\t0.9
l:B2\tskos:exactMatch\tr:Y2\t0.8
l:B2\tskos:broadMatch\tr:Y2\t0.7
"
            .as_slice()
    );
    Ok(())
}

#[test]
fn two_hundred_groups(rt: HostRuntime) -> Result<(), Fail> {
    let made = make(rt.alloc(), 200)?;
    let lengths = (made.left.len(), made.right.len(), made.table.len());
    assert_eq!(rt; lengths, (15195, 4660, 19872));
    Ok(())
}
