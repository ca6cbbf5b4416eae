//! Stores built with ample memory.

use crate::{Node, build_store};
use el_logic::{Axioms, Boxed, Expr};
use std::test::Fail;

#[test]
fn names_come_first(rt: HostRuntime) -> Result<(), Fail> {
    let alloc = rt.alloc();
    let left = Axioms::new(alloc);
    let right = Axioms::new(alloc);
    let store = build_store(alloc, &left, &right, 3, 2, 5, 2)?;
    assert_eq!(rt; store.nodes(), 5);
    assert_eq!(rt; store.roles(), 2);
    assert_eq!(rt; store.find(Node::Class(2)), Some(4));
    assert_eq!(rt; store.left().len(), 0);
    assert_eq!(rt; store.node_of(&Expr::Bottom), Some(1));
    let some = Expr::Exists(0, Boxed::new(alloc, Expr::Top)?);
    assert_eq!(rt; store.node_of(&some), None);
    Ok(())
}
