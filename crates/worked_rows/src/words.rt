//! Words: options and names, made cases, and what is left out.

use crate::setting::{HEADER, KEPT, Ran, TWO_OF_THREE, files, run_over, worked};
use io_edge::{MemFolder, MemSink};
use std::alloc::Global;
use std::sync::Wait;
use std::test::Fail;
use std::thread::Threads;
use text_names::Limits;

const USAGE: &str = "alod: usage: alod [--workers N] [--el-part] LEFT RIGHT MAP OUT EVIDENCE, or \
alod --made N [--workers N]\n";

// Runs with these words, with a space after each but the last.
fn run_words<R: Threads + Wait + Sync>(
    rt: &R,
    alloc: Global,
    line: &str,
    folder: &mut MemFolder,
) -> Result<Ran, Fail> {
    let mut words = Vec::new(alloc);
    for word in line.split(' ') {
        words.push(word)?;
    }
    let mut sink = MemSink::new(alloc);
    let limits = Limits::standard();
    run_over(rt, alloc, words.as_slice(), &limits, folder, &mut sink)
}

// Words that ask for the first worked case.
const TAKEN: [&str; 11] = [
    "LEFT RIGHT MAP OUT EVIDENCE",
    "--workers 1 LEFT RIGHT MAP OUT EVIDENCE",
    "--workers 2 LEFT RIGHT MAP OUT EVIDENCE",
    "LEFT RIGHT --workers=16 MAP OUT EVIDENCE",
    "LEFT RIGHT MAP OUT EVIDENCE --workers 000000004",
    "--el-part LEFT RIGHT MAP OUT EVIDENCE",
    "LEFT --el-part RIGHT MAP --workers 3 OUT EVIDENCE",
    "-- LEFT RIGHT MAP OUT EVIDENCE",
    "LEFT RIGHT -- MAP OUT EVIDENCE",
    "--workers=1 LEFT RIGHT MAP OUT EVIDENCE --",
    "LEFT RIGHT MAP OUT -",
];

#[test]
fn takes_options(rt: HostRuntime) -> Result<(), Fail> {
    let alloc = rt.alloc();
    let wanted = format!(in alloc; "{HEADER}{KEPT}")?;
    for line in TAKEN {
        let mut folder = worked(alloc)?;
        let ran = run_words(&rt, alloc, line, &mut folder)?;
        assert!(rt; ran.number == 0, "{line}");
        assert!(rt; ran.line.as_slice() == TWO_OF_THREE.as_bytes(), "{line}");
        assert!(rt; ran.out.as_slice() == wanted.as_bytes(), "{line}");
    }
    Ok(())
}

// Words that are no command.
const REFUSED: [&str; 24] = [
    "",
    "LEFT RIGHT MAP OUT",
    "LEFT RIGHT MAP OUT EVIDENCE MORE",
    "LEFT RIGHT  OUT EVIDENCE",
    "-h RIGHT MAP OUT EVIDENCE",
    "--help",
    "LEFT RIGHT MAP MAP EVIDENCE",
    "LEFT RIGHT MAP OUT LEFT",
    "LEFT RIGHT MAP OUT OUT",
    "--workers 0 LEFT RIGHT MAP OUT EVIDENCE",
    "--workers 17 LEFT RIGHT MAP OUT EVIDENCE",
    "--workers=+4 LEFT RIGHT MAP OUT EVIDENCE",
    "--workers -- LEFT RIGHT MAP OUT EVIDENCE",
    "LEFT RIGHT MAP OUT EVIDENCE --workers",
    "--workers 2 --workers=2 LEFT RIGHT MAP OUT EVIDENCE",
    "--el-part --el-part LEFT RIGHT MAP OUT EVIDENCE",
    "--refused LEFT RIGHT MAP OUT EVIDENCE",
    "-- --workers 2 LEFT RIGHT MAP OUT EVIDENCE",
    "--made",
    "--made 0",
    "--made 10001",
    "--made 3 --made 3",
    "--made 3 --el-part",
    "--made 3 LEFT RIGHT MAP OUT EVIDENCE",
];

#[test]
fn refuses_wrong_words(rt: HostRuntime) -> Result<(), Fail> {
    let alloc = rt.alloc();
    for line in REFUSED {
        let mut folder = worked(alloc)?;
        let ran = run_words(&rt, alloc, line, &mut folder)?;
        assert!(rt; ran.number == 2, "{line}");
        assert!(rt; ran.line.as_slice() == USAGE.as_bytes(), "{line}");
        assert!(rt; ran.out.is_empty() && ran.evidence.is_empty(), "{line}");
    }
    Ok(())
}

// Words that ask for a made case, and the printed line.
const MADE: [(&str, &str); 5] = [
    (
        "--made 3",
        "alod: rows 9 kept 6 removed 3 inert 0 omitted 0\n",
    ),
    (
        "--made=3 --workers 2 --",
        "alod: rows 9 kept 6 removed 3 inert 0 omitted 0\n",
    ),
    (
        "--workers 1 --made 200",
        "alod: rows 600 kept 400 removed 200 inert 0 omitted 0\n",
    ),
    (
        "--made 200 --workers 4",
        "alod: rows 600 kept 400 removed 200 inert 0 omitted 0\n",
    ),
    (
        "--made 200 --workers=16",
        "alod: rows 600 kept 400 removed 200 inert 0 omitted 0\n",
    ),
];

#[test]
fn repairs_made_cases(rt: HostRuntime) -> Result<(), Fail> {
    let alloc = rt.alloc();
    for (words, line) in MADE {
        let mut folder = MemFolder::new(alloc);
        let ran = run_words(&rt, alloc, words, &mut folder)?;
        assert!(rt; ran.number == 0, "{words}");
        assert!(rt; ran.line.as_slice() == line.as_bytes(), "{words}");
        assert!(rt; ran.out.is_empty() && ran.evidence.is_empty(), "{words}");
    }
    Ok(())
}

#[test]
fn leaves_out_what_is_outside(rt: HostRuntime) -> Result<(), Fail> {
    let alloc = rt.alloc();
    let left = b"Ontology(ObjectPropertyRange(<r> <c>))";
    let mut folder = files(alloc, left, b"Ontology()", HEADER.as_bytes())?;
    let words = "--el-part LEFT RIGHT MAP OUT EVIDENCE";
    let ran = run_words(&rt, alloc, words, &mut folder)?;
    let line = b"alod: rows 0 kept 0 removed 0 inert 0 omitted 1\n".as_slice();
    let evidence = b"alod evidence 1\ndiagnosis\nomitted 1\nleft 1 10 ObjectPropertyRange\n";
    assert!(rt; ran.number == 0);
    assert!(rt; ran.line.as_slice() == line);
    assert!(rt; ran.out.as_slice() == HEADER.as_bytes());
    assert!(rt; ran.evidence.starts_with(evidence));
    Ok(())
}
