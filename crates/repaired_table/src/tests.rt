//! Tables that are written with some of their rows.

use crate::write_table;
use sssom_rows::read_table;
use std::alloc::Global;
use std::test::Fail;

// The repaired text of a table, without the row of this number, counted from 1.
fn repaired(alloc: Global, text: &[u8], number: usize) -> Result<Vec<u8>, Fail> {
    if text.len() >= 0x8000_0000 {
        return Ok(Vec::new(alloc));
    }
    let table = read_table(alloc, text, 9)?;
    let mut keep = Vec::new(alloc);
    for place in 0..table.rows.as_slice().len() {
        keep.push(place != number.wrapping_sub(1))?;
    }
    if keep.len() != table.rows.as_slice().len() {
        return Ok(Vec::new(alloc));
    }
    let bytes = write_table(alloc, &table, keep.as_slice())?;
    Ok(Vec::from_slice(alloc, bytes.as_slice())?)
}

#[test]
fn writes_the_kept_rows(rt: HostRuntime) -> Result<(), Fail> {
    let rows = [
        (
            b"subject_id\tpredicate_id\tobject_id\n\t\t1://\n\t\t2://\n\t\t3://\n".as_slice(),
            2,
            b"subject_id\tpredicate_id\tobject_id\n\t\t1://\n\t\t3://\n".as_slice(),
        ),
        (
            b"\xef\xbb\xbf#a\r\n#b \r\nsubject_id\tpredicate_id\tobject_id\r\n\t\t1://\r\n\t\t2://\r\n",
            1,
            b"#a\r\n#b \r\nsubject_id\tpredicate_id\tobject_id\n\t\t2://\n",
        ),
        (
            b"#a\n\xef\xbb\xbfsubject_id\tpredicate_id\tobject_id",
            1,
            b"#a\nsubject_id\tpredicate_id\tobject_id\n",
        ),
        (
            b"subject_id\tpredicate_id\tobject_id\t\"a b\"\n\n\t\"\"\t\t\"x\"\r\t\t\t\"a\tb\"\"\nc\"\n",
            0,
            b"subject_id\tpredicate_id\tobject_id\ta b\n\t\t\tx\n\t\t\t\"a\tb\"\"\nc\"\n",
        ),
        (
            b"subject_id\tpredicate_id\tobject_id\n\t\t1://\n",
            1,
            b"subject_id\tpredicate_id\tobject_id\n",
        ),
    ];
    for (text, number, wanted) in rows {
        let found = repaired(rt.alloc(), text, number)?;
        assert_eq!(rt; found.as_slice(), wanted);
    }
    Ok(())
}

#[test]
fn writes_the_sample_again(rt: HostRuntime) -> Result<(), Fail> {
    let text =
        "# curie_map:\n#   l: http://l/\n#   r: \"http://r/\"\n# license: \"https://creativecommons.org/publicdomain/zero/1.0/\"\n# mapping_set_id: https://example.org/sets/1\nsubject_id\tsubject_label\tpredicate_id\tobject_id\tmapping_justification\tconfidence\nl:A\t\"A \"\"one\"\"\"\tskos:exactMatch\tr:X\tsemapv:LexicalMatching\t0.85\n";
    let found = repaired(rt.alloc(), text.as_bytes(), 0)?;
    assert_eq!(rt; found.as_slice(), text.as_bytes());
    Ok(())
}
