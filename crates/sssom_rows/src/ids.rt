//! The IRIs that ids stand for.

ghost use Rattle.std.specs.Prelude.{◌≡◌, IsUtf8, IfOk};
ghost use Rattle.sssom_rows.specs.Ids.{has_scheme, expanded, whole_iri, id_in};

use byte_words::without_front;
use std::alloc::{AllocError, Global};
use text_names::{PrefixFault, PrefixMap, Text};

/// The IRI that an id stands for; none if the id is empty. An id that is not read gives no answer.
pub fn id_in(
    alloc: Global,
    prefixes: &PrefixMap,
    id: &[u8],
) -> Result<Option<Option<Text>>, AllocError>
    requires { IsUtf8 id.now }
    ensures { IfOk result (λ read. read ≡ id_in prefixes.now id.now) }
{
    if id.is_empty() {
        return Ok(Some(None));
    }
    match expanded(prefixes, id) {
        Ok(Some(iri)) => Ok(Some(Some(iri))),
        Ok(None) => whole_iri(alloc, id),
        Err(fault) => Err(fault),
    }
}

// The namespace of a known prefix and the rest.
fn expanded(prefixes: &PrefixMap, id: &[u8]) -> Result<Option<Text>, AllocError>
    requires { IsUtf8 id.now }
    ensures { IfOk result (λ iri. iri ≡ expanded prefixes.now id.now) }
{
    match prefixes.expand(id) {
        Ok(iri) => Ok(Some(iri)),
        Err(PrefixFault::NoColon) => Ok(None),
        Err(PrefixFault::Unknown) => Ok(None),
        Err(_) => Err(AllocError),
    }
}

fn whole_iri(alloc: Global, id: &[u8]) -> Result<Option<Option<Text>>, AllocError>
    requires { IsUtf8 id.now }
    ensures { IfOk result (λ read. read ≡ whole_iri id.now) }
{
    if !has_scheme(id) {
        return Ok(None);
    }
    match Text::of(alloc, id) {
        Ok(iri) => Ok(Some(Some(iri))),
        Err(_) => Err(AllocError),
    }
}

fn has_scheme(id: &[u8]) -> bool
    ensures { result ≡ has_scheme id.now }
{
    for place in 0..id.len() {
        match without_front(id.split_at(place).1, b"://") {
            Some(_) => return true,
            None => {}
        }
    }
    false
}
