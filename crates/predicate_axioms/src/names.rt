//! The classes that IRIs name.

ghost use Rattle.std.specs.Prelude.{◌≡◌};
ghost use Rattle.std.specs.Option.{option_map};
ghost use Rattle.predicate_axioms.specs.RowAxioms.{class_of};
ghost use Rattle.predicate_axioms.specs.Inside.{expr_of};

use el_logic::Expr;
use text_names::NameTable;

/// A class that an IRI names.
#[derive(Clone, Copy)]
pub enum ClassName {
    Thing,
    Nothing,
    Class(u32),
}

impl ClassName {
    pub fn expr(self) -> Expr
        ensures { result ≡ expr_of self }
    {
        match self {
            ClassName::Thing => Expr::Top,
            ClassName::Nothing => Expr::Bottom,
            ClassName::Class(number) => Expr::Name(number),
        }
    }
}

/// The class that an IRI names, if it names one.
pub fn class_of(classes: &NameTable, iri: &[u8]) -> Option<ClassName>
    ensures { option_map expr_of result ≡ class_of classes.now.names iri.now }
{
    if iri == b"http://www.w3.org/2002/07/owl#Thing".as_slice() {
        return Some(ClassName::Thing);
    }
    if iri == b"http://www.w3.org/2002/07/owl#Nothing".as_slice() {
        return Some(ClassName::Nothing);
    }
    match classes.find(iri) {
        Some(number) => Some(ClassName::Class(number)),
        None => None,
    }
}
