//! Tables of each form, and each fault.

use sssom_rows::{Column, Row, Table, TableFault, read_table};
use std::alloc::Global;
use std::test::Fail;
use text_names::Text;

fn read(alloc: Global, text: &[u8], most: u32) -> Result<Table, TableFault> {
    if text.len() >= 0x8000_0000 {
        return Err(TableFault::OutOfMemory);
    }
    read_table(alloc, text, most)
}

// How many rows a text has, or its fault.
fn answer(alloc: Global, text: &[u8], most: u32) -> Result<String, Fail> {
    match read(alloc, text, most) {
        Ok(table) => Ok(format!(in alloc; "{} rows", table.rows.as_slice().len())?),
        Err(fault) => Ok(format!(in alloc; "{fault}")?),
    }
}

// The header and the columns of the rows below, and these rows.
fn with_rows(alloc: Global, rows: &str) -> Result<String, Fail> {
    Ok(format!(in alloc;
        "#curie_map:\n#  l: http://l/\n#  r: http://r/\nsubject_id\tpredicate_id\tobject_id\tconfidence\n{rows}"
    )?)
}

#[test]
fn finds_faults_before_the_rows(rt: HostRuntime) -> Result<(), Fail> {
    let rows = [
        (b"".as_slice(), "no columns"),
        (b"#curie_map: {}", "no columns"),
        (b"#curie_map: {}\n\n\r\n", "no columns"),
        (b"#curie_map: x\n", "line 1: curie_map form"),
        (
            b"#curie_map:\n#  l: a\n#curie_map: {}\nx\n\xff",
            "line 3: curie_map form",
        ),
        (b"#curie_map:\n#  l: a\n#  l: b\n", "line 3: prefix again"),
        (b"\xff\tsubject_id\n", "row 0: not UTF-8"),
        (b"x\n", "no column subject_id"),
        (b"subject_id\tobject_id\n\xff", "no column predicate_id"),
        (
            b"subject_id\tpredicate_id\tsubject_id\n",
            "no column object_id",
        ),
        (
            b"object_id\tsubject_id\tpredicate_id\tobject_id\nx",
            "column object_id twice",
        ),
        (
            b"subject_id\tpredicate_id\tobject_id\tconfidence\tconfidence\n",
            "column confidence twice",
        ),
        (
            b"predicate_modifier\tsubject_id\tpredicate_id\tobject_id\tpredicate_modifier\n",
            "column predicate_modifier twice",
        ),
        (
            b"# \xff\nx\tsubject_id\tpredicate_id\tobject_id\tx\n",
            "0 rows",
        ),
    ];
    for (text, wanted) in rows {
        let found = answer(rt.alloc(), text, 9)?;
        assert_eq!(rt; found.as_str(), wanted, "{wanted}");
    }
    Ok(())
}

#[test]
fn finds_the_first_faulty_row(rt: HostRuntime) -> Result<(), Fail> {
    let rows = [
        ("", "0 rows"),
        (
            "l:A\tskos:exactMatch\tr:X\t0.9\nl:A\tskos:exactMatch\tr:X\t0.9\n",
            "2 rows",
        ),
        ("l:A\tskos:exactMatch\tr:X\n", "row 1: number of fields"),
        (
            "l:A\tskos:exactMatch\tr:X\t0.9\tx\n",
            "row 1: number of fields",
        ),
        ("q:Z\tskos:exactMatch\n", "row 1: number of fields"),
        ("q:Z\tskos:exactMatch\tl:A\t0.5\n", "row 1: subject_id"),
        ("q:Z\tq:Z\tq:Z\t2\n", "row 1: subject_id"),
        ("l:A\texactMatch\tq:Z\t2\n", "row 1: predicate_id"),
        ("l:A\tskos:exactMatch\tA\t2\n", "row 1: object_id"),
        ("l:A\tskos:exactMatch\tr:X\t2\nq:Z\n", "row 1: confidence"),
        (
            "l:A\tskos:exactMatch\tr:X\t1\nq:Z\n",
            "row 2: number of fields",
        ),
        (
            "l:A\tskos:exactMatch\tr:X\t1\nq:Z\tx\tx\tx\n",
            "row 2: subject_id",
        ),
        (
            "l:A\tskos:exactMatch\tr:X\t1\nl:A\tskos:exactMatch\tr:X\t1\nq:Z\n",
            "too many rows",
        ),
        (
            "l:A\tskos:exactMatch\tr:X\t1\nl:A\tskos:exactMatch\tr:X\t-1\nq:Z\n",
            "row 2: confidence",
        ),
    ];
    for (lines, wanted) in rows {
        let text = with_rows(rt.alloc(), lines)?;
        let found = answer(rt.alloc(), text.as_str().as_bytes(), 2)?;
        assert_eq!(rt; found.as_str(), wanted, "{lines}");
    }
    let bytes = b"subject_id\tpredicate_id\tobject_id\tx\nq:Z\t\t\t\xff\n".as_slice();
    assert_eq!(rt; answer(rt.alloc(), bytes, 1)?.as_str(), "row 1: not UTF-8");
    assert_eq!(rt; answer(rt.alloc(), bytes, 0)?.as_str(), "too many rows");
    Ok(())
}

#[test]
fn reads_confidences(rt: HostRuntime) -> Result<(), Fail> {
    let one = 1_000_000_000_000_000_000_000_000_000_000_000_000;
    let rows = [
        ("", Some(one)),
        ("1e-36", Some(1)),
        ("10e-1", Some(one)),
        (".5", Some(one / 2)),
        ("0.500", Some(one / 2)),
        ("0e-99", Some(0)),
        ("1e-37", None),
        ("1.01", None),
        ("+0.5", None),
        ("nan", None),
        ("e5", None),
        (" 1", None),
    ];
    for (confidence, units) in rows {
        let line = format!(in rt.alloc(); "l:A\tskos:exactMatch\tr:X\t{confidence}\n")?;
        let text = with_rows(rt.alloc(), line.as_str())?;
        let found = match read(rt.alloc(), text.as_str().as_bytes(), 9) {
            Ok(table) => table
                .rows
                .as_slice()
                .first()
                .map(|row| row.confidence.units()),
            Err(fault) => {
                assert_eq!(rt; fault, TableFault::Confidence { row: 1 });
                None
            }
        };
        assert_eq!(rt; found, units, "{confidence}");
    }
    Ok(())
}

fn name_of(iri: &Option<Text>) -> &str {
    match iri {
        Some(iri) => iri.as_str(),
        None => "-",
    }
}

// The three ids of a row, and whether it has a modifier.
fn ids_of(alloc: Global, row: &Row) -> Result<String, Fail> {
    let (subject, object) = (name_of(&row.subject), name_of(&row.object));
    let predicate = name_of(&row.predicate);
    let modified = row.modified;
    Ok(format!(in alloc; "{subject} {predicate} {object} {modified}")?)
}

#[test]
fn reads_ids(rt: HostRuntime) -> Result<(), Fail> {
    let header =
        "#curie_map:\n#  l: http://l/\n#  owl: http://o/\nobject_id\tpredicate_modifier\tpredicate_id\tsubject_id\n";
    let rows = [
        ("\t\t\t", "- - - false"),
        (
            "l:A\tNot\tskos:a\tl:b:c",
            "http://l/b:c http://www.w3.org/2004/02/skos/core#a http://l/A true",
        ),
        (
            "l:\t \towl:a\trdfs:a",
            "http://www.w3.org/2000/01/rdf-schema#a http://o/a http://l/ true",
        ),
        ("http://x/y\t\tq://\tx:a://", "x:a:// q:// http://x/y false"),
        ("l://x\t0\t://\t:a://b", ":a://b :// http://l///x true"),
    ];
    for (line, wanted) in rows {
        let text = format!(in rt.alloc(); "{header}{line}\n")?;
        let table = read(rt.alloc(), text.as_str().as_bytes(), 1)?;
        assert_eq!(rt; table.rows.as_slice().len(), 1);
        for row in table.rows.as_slice() {
            assert_eq!(rt; ids_of(rt.alloc(), row)?.as_str(), wanted, "{line}");
        }
    }
    Ok(())
}

// The fields of a table's rows, those of a row between commas and a semicolon after each row.
fn fields_of(alloc: Global, table: &Table) -> Result<Vec<u8>, Fail> {
    let mut text = Vec::new(alloc);
    for row in table.rows.as_slice() {
        for place in 0..row.fields.len() {
            if let Some(field) = row.fields.get(place) {
                text.extend_from_slice(field)?;
            }
            text.push(b',')?;
        }
        text.push(b';')?;
    }
    Ok(text)
}

#[test]
fn splits_records(rt: HostRuntime) -> Result<(), Fail> {
    let rows = [
        (
            b"a\tb\tc\nd\te\tf\n".as_slice(),
            b"a://,b://,c://,;d://,e://,f://,;".as_slice(),
        ),
        (b"a\tb\tc", b"a://,b://,c://,;"),
        (b"a\tb\tc\rd\te\tf\r\n", b"a://,b://,c://,;d://,e://,f://,;"),
        (b"\n\r\n\"a\"\t\"b\"\tc\n\n\n", b"a://,b://,c://,;"),
        (b"\t\t\n", b",,,;"),
        (
            b"\"a\tb\nc\r\"\t\"\"\"d\"\tc\n",
            b"a://\tb://\nc://\r,\"d://,c://,;",
        ),
    ];
    for (lines, wanted) in rows {
        let mut text = Vec::from_slice(
            rt.alloc(),
            b"subject_id\tpredicate_id\tobject_id\n".as_slice(),
        )?;
        for byte in lines {
            if matches!(*byte, b'a'..=b'f') {
                text.push(*byte)?;
                text.extend_from_slice(b"://".as_slice())?;
            } else {
                text.push(*byte)?;
            }
        }
        let table = read(rt.alloc(), text.as_slice(), 9)?;
        assert_eq!(rt; fields_of(rt.alloc(), &table)?.as_slice(), wanted);
    }
    Ok(())
}

#[test]
fn keeps_the_header_without_a_mark(rt: HostRuntime) -> Result<(), Fail> {
    let columns = "subject_id\tpredicate_id\tobject_id\r\n";
    let rows = [
        ("", "", 0),
        ("\u{feff}", "", 0),
        ("\u{feff}#curie_map: {}\r\n", "", 16),
        ("#a\n", "\u{feff}", 3),
        ("\u{feff}#a\n# b\n", "\u{feff}", 7),
    ];
    for (header, mark, length) in rows {
        let text = format!(in rt.alloc(); "{header}{mark}{columns}")?;
        let table = read(rt.alloc(), text.as_str().as_bytes(), 0)?;
        assert_eq!(rt; table.head.len(), length, "{header}");
        assert_eq!(rt; table.columns.len(), 3);
        assert_eq!(rt;
            table.columns.get(0),
            Some("subject_id".as_bytes()),
            "{header}"
        );
    }
    let twice = format!(in rt.alloc(); "\u{feff}\u{feff}#a\n{columns}")?;
    let found = answer(rt.alloc(), twice.as_str().as_bytes(), 0)?;
    assert_eq!(rt; found.as_str(), "no column subject_id");
    Ok(())
}

#[test]
fn reads_the_sample(rt: HostRuntime) -> Result<(), Fail> {
    let text =
        "# curie_map:\n#   l: http://l/\n#   r: \"http://r/\"\n# license: \"https://creativecommons.org/publicdomain/zero/1.0/\"\n# mapping_set_id: https://example.org/sets/1\nsubject_id\tsubject_label\tpredicate_id\tobject_id\tmapping_justification\tconfidence\nl:A\t\"A \"\"one\"\"\"\tskos:exactMatch\tr:X\tsemapv:LexicalMatching\t0.85\n";
    let table = read(rt.alloc(), text.as_bytes(), 1)?;
    assert_eq!(rt; table.head.len(), 158);
    assert_eq!(rt; table.rows.as_slice().len(), 1);
    for row in table.rows.as_slice() {
        assert_eq!(rt; row.fields.get(1), Some(b"A \"one\"".as_slice()));
        let units = row.confidence.units();
        assert_eq!(rt; units, 850_000_000_000_000_000_000_000_000_000_000_000);
        let wanted = "http://l/A http://www.w3.org/2004/02/skos/core#exactMatch http://r/X false";
        assert_eq!(rt; ids_of(rt.alloc(), row)?.as_str(), wanted);
    }
    Ok(())
}

#[test]
fn names_columns(rt: HostRuntime) {
    assert_eq!(rt; Column::Modifier.name(), "predicate_modifier");
}
