//! The header of a table.

ghost use Rattle.std.specs.Prelude.{◌≡◌, ◌≤◌, [], length, IfOk, OnOk};
ghost use Rattle.text_names.specs.Prefixes.{with_prefix};
ghost use Rattle.sssom_head.specs.BuiltIn.{with_built_in};
ghost use Rattle.sssom_head.specs.Heads.{IsHeadRead, IsHeader};
ghost use Rattle.sssom_head.specs.Inside.HeadSteps.{AreRead};

use crate::MapPlace;
use crate::lines::{content_of, split_header_line};
use crate::reading::take_line;
use std::alloc::{AllocError, Global};
use text_names::PrefixMap;
use thiserror::Error;

/// Why a header was not read. Lines are counted from 1.
#[derive(Clone, Copy, Debug, PartialEq, Eq, Error)]
pub enum HeadFault {
    /// The line has no form that its place in the map `curie_map` allows: a first line of the map
    /// with other text after its colon than `{}`, a second first line, or an entry that is indented
    /// in another way than the first, is not spelled as one or is not UTF-8.
    #[error("line {line}: curie_map form")]
    MapForm { line: u64 },
    /// The line is an entry whose prefix has another IRI already.
    #[error("line {line}: prefix again")]
    Again { line: u64 },
    #[error("out of memory")]
    OutOfMemory,
}

/// A header: how many bytes its lines have, and the prefixes that hold in the table. These are
/// those of the header's map, and of the built-in ones `owl`, `rdf`, `rdfs`, `skos`, `semapv` and
/// `sssom` those that the map does not have.
#[derive(Debug, Drop)]
pub struct Head {
    pub length: usize,
    pub prefixes: PrefixMap,
}

/// Reads the header at the start of a table in SSSOM/TSV, in this project's profile: the lines from
/// the start on that begin with `#`, and in them the map `curie_map`. The bytes are those after a
/// byte order mark, if there is one (`byte_words::without_mark`). They may be any: the other lines
/// and the table are not read. The fault is that of the first line that is wrong.
#[tactic(auto, using(crate::proofs::HeaderLaws::header_is))]
pub fn read_head(alloc: Global, bytes: &[u8]) -> Result<Head, HeadFault>
    ensures answer { IsHeadRead bytes.now result }
    ensures header { IsHeader bytes.now result }
    ensures within { IfOk result (λ head. head.length ≤ length bytes.now) }
{
    let mut prefixes = PrefixMap::new(alloc);
    match read_lines(bytes, &mut prefixes) {
        Ok(length) => match add_built_in(&mut prefixes) {
            Ok(()) => Ok(Head { length, prefixes }),
            Err(_) => Err(HeadFault::OutOfMemory),
        },
        Err(fault) => Err(fault),
    }
}

// Takes in the header lines, and counts their bytes.
fn read_lines(bytes: &[u8], prefixes: &mut PrefixMap) -> Result<usize, HeadFault>
    requires { prefixes.old ≡ [] }
    ensures answer { AreRead bytes.now result prefixes.new }
    ensures within { IfOk result (λ len. len ≤ length bytes.now) }
{
    let mut place = MapPlace::Before;
    let mut rest = bytes;
    let mut line = 0u64;
    while let Some((first, behind)) = split_header_line(rest) {
        line += 1;
        place = match take_line(line, place, prefixes, content_of(first)) {
            Ok(place) => place,
            Err(fault) => return Err(fault),
        };
        rest = behind;
    }
    Ok(bytes.len() - rest.len())
}

fn add(prefixes: &mut PrefixMap, prefix: &str, iri: &str) -> Result<(), AllocError>
    ensures { OnOk result (prefixes.new ≡ with_prefix prefixes.old prefix.now iri.now) }
{
    prefixes.declare_if_new(prefix.as_bytes(), iri.as_bytes())
}

fn add_built_in(prefixes: &mut PrefixMap) -> Result<(), AllocError>
    ensures { OnOk result (prefixes.new ≡ with_built_in prefixes.old) }
{
    add(prefixes, "owl", "http://www.w3.org/2002/07/owl#")?;
    add(
        prefixes,
        "rdf",
        "http://www.w3.org/1999/02/22-rdf-syntax-ns#",
    )?;
    add(prefixes, "rdfs", "http://www.w3.org/2000/01/rdf-schema#")?;
    add(prefixes, "skos", "http://www.w3.org/2004/02/skos/core#")?;
    add(prefixes, "semapv", "https://w3id.org/semapv/vocab/")?;
    add(prefixes, "sssom", "https://w3id.org/sssom/")
}
