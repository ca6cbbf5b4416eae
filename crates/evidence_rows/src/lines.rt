//! Lines that take memory, written and read.

use el_logic::Side;
use evidence_lines::{
    NodeLine, RoleLine, members_of, node_of, pairs_of, put_members, put_node, put_pairs, put_role,
    role_of,
};
use line_fields::Fields;
use std::test::Fail;
use text_names::{Bytes, Text};

#[test]
fn names_have_lines(rt: HostRuntime) -> Result<(), Fail> {
    let alloc = rt.alloc();
    let mut text = Bytes::new(alloc);
    put_node(&mut text, &NodeLine::Class(Text::of(alloc, b"http://l/A")?))?;
    put_node(&mut text, &NodeLine::And(2, 3))?;
    put_role(&mut text, &RoleLine::Property(Text::of(alloc, b"p")?))?;
    let part = RoleLine::Part {
        side: Side::Right,
        axiom: 1,
        length: 2,
    };
    put_role(&mut text, &part)?;
    let wanted = b"class <http://l/A>\nand 2 3\nproperty <p>\npart right 1 2\n";
    assert_eq!(rt; text.as_slice(), wanted.as_slice());
    let node = node_of(alloc, Fields::of(b"class <http://l/A>"))?;
    assert!(rt; matches!(node, Some(NodeLine::Class(_))));
    let role = role_of(alloc, Fields::of(b"property <p>"))?;
    assert!(rt; matches!(role, Some(RoleLine::Property(_))));
    assert!(rt; node_of(alloc, Fields::of(b"class <\xff>"))?.is_none());
    Ok(())
}

#[test]
fn models_have_lines(rt: HostRuntime) -> Result<(), Fail> {
    let alloc = rt.alloc();
    let mut text = Bytes::new(alloc);
    put_members(&mut text, 0, &[0, 4])?;
    put_pairs(&mut text, 1, &[(0, 4), (1, 0)])?;
    assert_eq!(rt;
        text.as_slice(),
        b"class 2 0 4\nrole 1 0 4 1 0\n".as_slice()
    );
    let members = members_of(alloc, 0, Fields::of(b"class 2 0 4"))?.ok_or("no class")?;
    assert_eq!(rt; members.as_slice(), [0, 4].as_slice());
    let pairs = pairs_of(alloc, 1, Fields::of(b"role 1 0 4 1 0"))?.ok_or("no role")?;
    assert_eq!(rt; pairs.len(), 2);
    assert!(rt; members_of(alloc, 1, Fields::of(b"class 2 0 4"))?.is_none());
    Ok(())
}
