//! New books, made from texts.

ghost use Rattle.std.specs.Prelude.{◌≡◌, [], IfOk};

use case_load::{LoadFault, Loaded, assemble};
use commit_book::Book;
use ofn_axiom::Mode;
use saturate::start;
use std::alloc::Global;
use std::sync::Arc;
use std::test::Fail;
use text_names::Limits;

const LEFT: &[u8] = b"Prefix(:=<http://l/>) Ontology(DisjointClasses(:A :B))";

const RIGHT: &[u8] = b"Prefix(:=<http://r/>) Ontology(SubClassOf(:X :Y))";

/// Three rows, of which the second is in conflict with the first.
pub(crate) const THREE_ROWS: &[u8] = b"#curie_map:
#  l: http://l/
#  r: http://r/
subject_id\tpredicate_id\tobject_id\tconfidence
l:A\tskos:exactMatch\tr:X\t0.9
l:B\tskos:exactMatch\tr:Y\t0.8
l:B\tskos:broadMatch\tr:Y\t0.7
";

/// The same table with no row.
pub(crate) const NO_ROWS: &[u8] = b"#curie_map:
#  l: http://l/
#  r: http://r/
subject_id\tpredicate_id\tobject_id\tconfidence
";

fn loaded(alloc: Global, map: &[u8]) -> Result<Loaded, LoadFault> {
    let limits = Limits::standard();
    let short = 0x8000_0000;
    if LEFT.len() >= short || RIGHT.len() >= short || map.len() >= short || limits.depth > 256 {
        return Err(LoadFault::OutOfMemory);
    }
    assemble(alloc, LEFT, RIGHT, map, Mode::Strict, &limits)
}

/// The book of the two ontologies and a table, in which nothing was told yet.
pub(crate) fn new_book(alloc: Global, map: &[u8]) -> Result<Book, Fail>
    ensures { IfOk result (λ book. book.entries ≡ []) }
{
    let loaded = loaded(alloc, map)?;
    let Ok(base) = start(alloc, &loaded.case) else {
        return Err("the ontologies are incoherent".into());
    };
    let case = Arc::try_clone(base.case())?;
    Ok(Book::new(alloc, case, base)?)
}
