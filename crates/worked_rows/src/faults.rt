//! Calls that fail.

use crate::setting::{BELOW, HEADER, KEPT, NAMES, TWO_OF_THREE, files, run_over, worked};
use io_edge::{MemFolder, MemSink};
use std::test::Fail;
use text_names::Limits;

#[test]
fn tells_of_failing_calls(rt: HostRuntime) -> Result<(), Fail> {
    let alloc = rt.alloc();
    let cases = [
        (1, 7, "alod: cannot read LEFT\n"),
        (2, 7, "alod: cannot read RIGHT\n"),
        (3, 7, "alod: cannot read MAP\n"),
        (4, 8, "alod: cannot write EVIDENCE\n"),
        (5, 8, "alod: cannot write OUT\n"),
        (6, 0, TWO_OF_THREE),
    ];
    for (call, number, line) in cases {
        let mut folder = worked(alloc)?;
        folder.fail(call)?;
        let mut sink = MemSink::new(alloc);
        let limits = Limits::standard();
        let ran = run_over(&rt, alloc, &NAMES, &limits, &mut folder, &mut sink)?;
        assert!(rt; ran.number == number, "{call}");
        assert!(rt; ran.line.as_slice() == line.as_bytes(), "{call}");
        assert!(rt; ran.out.is_empty() == (number != 0), "{call}");
        assert!(rt; ran.evidence.ends_with(b"\nend\n") == (call > 4), "{call}");
    }
    Ok(())
}

#[test]
fn tells_of_missing_files(rt: HostRuntime) -> Result<(), Fail> {
    let alloc = rt.alloc();
    let mut folder = MemFolder::new(alloc);
    let mut sink = MemSink::new(alloc);
    let limits = Limits::standard();
    let ran = run_over(&rt, alloc, &NAMES, &limits, &mut folder, &mut sink)?;
    assert!(rt; ran.number == 7);
    assert!(rt; ran.line.as_slice() == b"alod: cannot read LEFT\n".as_slice());
    Ok(())
}

#[test]
fn writes_before_it_tells(rt: HostRuntime) -> Result<(), Fail> {
    let alloc = rt.alloc();
    let mut folder = worked(alloc)?;
    let mut sink = MemSink::new(alloc);
    sink.fail(1)?;
    let limits = Limits::standard();
    let ran = run_over(&rt, alloc, &NAMES, &limits, &mut folder, &mut sink)?;
    let wanted = format!(in alloc; "{HEADER}{KEPT}")?;
    assert!(rt; ran.number == 8);
    assert!(rt; ran.line.is_empty());
    assert!(rt; ran.out.as_slice() == wanted.as_bytes());
    assert!(rt; ran.evidence.ends_with(b"\nend\n"));
    Ok(())
}

// A fault of the output while the line of a refusal is put changes neither the answer nor the
// files.
#[test]
fn answers_without_its_line(rt: HostRuntime) -> Result<(), Fail> {
    let alloc = rt.alloc();
    let mut folder = files(alloc, b"Ontology(", BELOW.as_bytes(), HEADER.as_bytes())?;
    let mut sink = MemSink::new(alloc);
    sink.fail(1)?;
    let limits = Limits::standard();
    let ran = run_over(&rt, alloc, &NAMES, &limits, &mut folder, &mut sink)?;
    assert!(rt; ran.number == 3);
    assert!(rt; ran.line.is_empty());
    assert!(rt; ran.out.is_empty());
    Ok(())
}
