//! Headers of each form, and each fault.

use crate::{HeadFault, read_head};
use std::alloc::Global;
use std::test::Fail;
use text_names::PrefixFault;

// What a short name stands for by a header and the table after it.
fn expansion(alloc: Global, bytes: &[u8], short: &str) -> Result<String, Fail> {
    let head = read_head(alloc, bytes)?;
    match head.prefixes.expand(short.as_bytes()) {
        Ok(iri) => Ok(String::from_str(alloc, iri.as_str())?),
        Err(PrefixFault::Unknown) => Ok(String::from_str(alloc, "unknown")?),
        Err(fault) => Err(fault)?,
    }
}

#[test]
fn reads_prefixes(rt: HostRuntime) -> Result<(), Fail> {
    let rows = [
        ("", "skos:a", "http://www.w3.org/2004/02/skos/core#a"),
        ("", "owl:a", "http://www.w3.org/2002/07/owl#a"),
        ("", "rdf:a", "http://www.w3.org/1999/02/22-rdf-syntax-ns#a"),
        ("", "rdfs:a", "http://www.w3.org/2000/01/rdf-schema#a"),
        ("", "semapv:a", "https://w3id.org/semapv/vocab/a"),
        ("", "sssom:a", "https://w3id.org/sssom/a"),
        ("#curie_map:\n#  l: http://l/\n", "l:a", "http://l/a"),
        ("#curie_map:\n#  l: http://l/", "l:a", "http://l/a"),
        (
            "# x\n# curie_map: \t \n#   l: http://l/ \t\n",
            "l:a",
            "http://l/a",
        ),
        ("#curie_map:\r\n#  l: http://l/\r\n", "l:a", "http://l/a"),
        ("#curie_map:\n#  l: http://l/\r", "l:a", "http://l/\ra"),
        ("#curie_map:\n# skos: http://s/\n", "skos:a", "http://s/a"),
        ("#curie_map:\n# l: a\n#\n#   \n# # c\n# r: b\n", "r:x", "bx"),
        (
            "#curie_map:\n# l: a\n#license: x\n# r: b\n",
            "r:x",
            "unknown",
        ),
        ("#curie_map:\n# l: a\n#\tr: b\n#  r: b\n", "r:x", "unknown"),
        ("#curie_map: {}\n# l: a\n", "l:x", "unknown"),
        ("#curie_map:{}\r\n# l: a\n", "l:x", "unknown"),
        ("#  curie_map:\n#   l: a\n", "l:x", "unknown"),
        ("#license: [\n#a: 'b\n", "l:x", "unknown"),
        ("#curie_map:\n# l-_.9Z: a\n", "l-_.9Z:x", "ax"),
        ("#curie_map:\n# 'l \\ \"': a\n", "l \\ \":x", "ax"),
        (
            "#curie_map:\n# l:   \"a 'b' # {\"  # c\n",
            "l:x",
            "a 'b' # {x",
        ),
        ("#curie_map:\n# l: 'a\\'\n", "l:x", "a\\x"),
        ("#curie_map:\n# '': \"\"\n", ":x", "x"),
        (
            "#curie_map:\n# l: a#b\"c'd[\te #f\n",
            "l:x",
            "a#b\"c'd[\tex",
        ),
        ("#curie_map:\n# l: \ta\n", "l:x", "\tax"),
        ("#curie_map:\n# l: a\n# l: 'a'\n", "l:x", "ax"),
        ("#curie_map:\n#  curie_map: a\n", "curie_map:x", "ax"),
    ];
    for (header, short, iri) in rows {
        let wanted = header.len();
        let text = format!(in rt.alloc(); "{header}")?;
        let bytes = text.as_str().as_bytes();
        assert_eq!(rt; read_head(rt.alloc(), bytes)?.length, wanted, "{header}");
        let found = expansion(rt.alloc(), bytes, short)?;
        assert_eq!(rt; found.as_str(), iri, "{header}");
    }
    Ok(())
}

#[test]
fn ends_with_the_last_line_that_begins_with_hash(rt: HostRuntime) -> Result<(), Fail> {
    let sample =
        "# curie_map:\n#   l: http://l/\n#   r: \"http://r/\"\n# license: \"https://creativecommons.org/publicdomain/zero/1.0/\"\n# mapping_set_id: https://example.org/sets/1\n";
    let rows = [
        (b"".as_slice(), 0),
        (b"#", 1),
        (b"#\n", 2),
        (b"#\xff\n#\rx\n\n#curie_map: x\n", 7),
        (b"a\n#curie_map: x\n", 0),
        ("\u{feff}#curie_map: x\n".as_bytes(), 0),
        (sample.as_bytes(), 158),
    ];
    for (bytes, length) in rows {
        assert_eq!(rt; read_head(rt.alloc(), bytes)?.length, length);
    }
    let found = expansion(rt.alloc(), sample.as_bytes(), "r:X")?;
    assert_eq!(rt; found.as_str(), "http://r/X");
    Ok(())
}

#[test]
fn refuses_lines_that_begin_no_map(rt: HostRuntime) -> Result<(), Fail> {
    let rows = [
        (b"#curie_map: x\n".as_slice(), 1),
        (b"#curie_map: # c\n", 1),
        (b"#curie_map:\t{}\n", 1),
        (b"#\n#curie_map:\n# l: a\n#curie_map:\n", 4),
        (b"#curie_map: {}\n# curie_map: {}\n", 2),
        (b"#curie_map:\n# curie_map: x\n", 2),
    ];
    for (bytes, line) in rows {
        let fault = read_head(rt.alloc(), bytes).err();
        assert_eq!(rt; fault, Some(HeadFault::MapForm { line }), "{line}");
    }
    Ok(())
}

#[test]
fn refuses_entries_of_another_form(rt: HostRuntime) -> Result<(), Fail> {
    let entries = [
        b" \tl: a".as_slice(),
        b" l:a",
        b" l : a",
        b" l:",
        b" : a",
        b" l: a b",
        b" l: # c",
        b" l: `a",
        b" l: 'a'#c",
        b" l: 'a",
        b" l: \"a\\\\\"",
        b" \"l\\n\": a",
        b" \xc3\xa9: a",
        b" l: \xff",
        b" l: a # \xff",
    ];
    for entry in entries {
        let mut bytes = Vec::from_slice(rt.alloc(), b"#curie_map:\n#".as_slice())?;
        bytes.extend_from_slice(entry)?;
        let fault = read_head(rt.alloc(), bytes.as_slice()).err();
        assert_eq!(rt; fault, Some(HeadFault::MapForm { line: 2 }));
    }
    Ok(())
}

#[test]
fn finds_the_first_fault(rt: HostRuntime) -> Result<(), Fail> {
    let (form, again) = (HeadFault::MapForm { line: 3 }, HeadFault::Again { line: 3 });
    let rows = [
        (b"#curie_map:\n# l: a\n#  r: b\n".as_slice(), form),
        (b"#curie_map:\n#  l: a\n# r: b\n", form),
        (b"#curie_map:\n# l: a\n#  l: b\n", form),
        (b"#curie_map:\n# l: a\n# l: b\n", again),
        (b"#curie_map:\n# l: a\n# l: b\n# [\n", again),
        (
            b"#curie_map:\n# l: [\n# l: b\n",
            HeadFault::MapForm { line: 2 },
        ),
    ];
    for (bytes, fault) in rows {
        assert_eq!(rt; read_head(rt.alloc(), bytes).err(), Some(fault), "{fault}");
    }
    Ok(())
}
