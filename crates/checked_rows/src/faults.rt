//! Words that are refused, files with a fault, and calls that fail.

use crate::setting::{APART, BELOW, Files, HEADER, NAMES, answers, check_over, folder_of};
use io_edge::MemSink;
use std::test::Fail;

// A table without rows, and evidence that nothing goes.
const NOTHING: &str = "alod evidence 1\ndiagnosis\nomitted 0\nnodes 6\ntop\nbottom\n\
class <http://l/A>\nclass <http://l/B>\nclass <http://r/X>\nclass <http://r/Y>\nroles 0\n\
removed 0\nmodel 3\nclass 2 0\nclass 3 1\nclass 4 2\nclass 5 2\njournal 1\n0 front done\nend\n";

fn files() -> Files<'static> {
    Files {
        left: APART.as_bytes(),
        right: BELOW.as_bytes(),
        map: HEADER.as_bytes(),
        out: HEADER.as_bytes(),
        evidence: NOTHING.as_bytes(),
    }
}

#[test]
fn refuses_wrong_words(rt: HostRuntime) -> Result<(), Fail> {
    let alloc = rt.alloc();
    let cases: [&[&str]; 6] = [
        &[],
        &["LEFT", "RIGHT", "MAP", "OUT"],
        &["LEFT", "RIGHT", "EVIDENCE"],
        &["--refused", "LEFT", "RIGHT", "MAP", "OUT", "EVIDENCE"],
        &["LEFT", "RIGHT", "MAP", "OUT", ""],
        &["--workers", "2", "LEFT", "RIGHT", "MAP", "OUT", "EVIDENCE"],
    ];
    let usage = "alodcheck: usage: alodcheck [--el-part] LEFT RIGHT MAP OUT EVIDENCE, or alodcheck \
--refused [--el-part] LEFT RIGHT EVIDENCE\n";
    for words in cases {
        assert!(rt; answers(alloc, words, &files(), 2, usage)?);
    }
    Ok(())
}

// The number of the call of the folder that fails, the status and the printed line.
const CALLS: [(u64, u8, &str); 6] = [
    (1, 7, "alodcheck: cannot read LEFT\n"),
    (2, 7, "alodcheck: cannot read RIGHT\n"),
    (3, 7, "alodcheck: cannot read MAP\n"),
    (4, 7, "alodcheck: cannot read OUT\n"),
    (5, 7, "alodcheck: cannot read EVIDENCE\n"),
    (6, 0, "alodcheck: yes\n"),
];

#[test]
fn tells_of_failing_calls(rt: HostRuntime) -> Result<(), Fail> {
    let alloc = rt.alloc();
    for (call, number, line) in CALLS {
        let mut folder = folder_of(alloc, &files())?;
        folder.fail(call)?;
        let mut sink = MemSink::new(alloc);
        let found = check_over(alloc, &NAMES, &mut folder, &mut sink)?;
        assert!(rt; found == number, "{call}");
        assert!(rt; sink.bytes() == line.as_bytes(), "{call}");
    }
    Ok(())
}

#[test]
fn tells_of_a_failing_output(rt: HostRuntime) -> Result<(), Fail> {
    let alloc = rt.alloc();
    let mut folder = folder_of(alloc, &files())?;
    let mut sink = MemSink::new(alloc);
    sink.fail(1)?;
    assert!(rt; check_over(alloc, &NAMES, &mut folder, &mut sink)? == 8);
    assert!(rt; sink.bytes().is_empty());
    Ok(())
}

#[test]
fn tells_of_faults_in_order(rt: HostRuntime) -> Result<(), Fail> {
    let alloc = rt.alloc();
    let mut wrong = files();
    wrong.evidence = b"";
    assert!(rt; answers(alloc, &NAMES, &wrong, 1, "alodcheck: no: evidence line 1\n")?);
    wrong.map = b"";
    assert!(rt; answers(alloc, &NAMES, &wrong, 3, "alodcheck: MAP: no columns\n")?);
    wrong.right = b"Ontology(";
    let right = "alodcheck: RIGHT:1:9: opening bracket without partner\n";
    assert!(rt; answers(alloc, &NAMES, &wrong, 3, right)?);
    wrong.left = &[255];
    assert!(rt; answers(alloc, &NAMES, &wrong, 3, "alodcheck: LEFT:1:1: not UTF-8\n")?);
    let words = ["--refused", "LEFT", "RIGHT", "EVIDENCE"];
    assert!(rt; answers(alloc, &words, &files(), 1, "alodcheck: no: evidence kind\n")?);
    Ok(())
}
