//! One run over files in memory.

use io_edge::{Gate, MemFolder, MemSink, OpenGate};
use repair_run::repair;
use std::alloc::Global;
use std::sync::Wait;
use std::test::Fail;
use std::thread::Threads;
use text_names::{Limits, Text};

pub const HEADER: &str = "#curie_map:\n#  l: http://l/\n#  r: http://r/\n\
subject_id\tpredicate_id\tobject_id\tconfidence\n";

pub const APART: &str = "Prefix(:=<http://l/>) Ontology(DisjointClasses(:A :B))";

pub const BELOW: &str = "Prefix(:=<http://r/>) Ontology(SubClassOf(:X :Y))";

pub const X_ALONE: &str = "Prefix(:=<http://r/>) Ontology(Declaration(Class(:X)))";

/// The rows of the first worked case.
pub const ROWS: &str = "l:A\tskos:exactMatch\tr:X\t0.9\nl:B\tskos:exactMatch\tr:Y\t0.8\n\
l:B\tskos:broadMatch\tr:Y\t0.7\n";

/// The rows of the first worked case that are kept.
pub const KEPT: &str = "l:A\tskos:exactMatch\tr:X\t0.9\nl:B\tskos:broadMatch\tr:Y\t0.7\n";

/// The names that the words give the files.
pub const NAMES: [&str; 5] = ["LEFT", "RIGHT", "MAP", "OUT", "EVIDENCE"];

/// The summary of the first worked case.
pub const TWO_OF_THREE: &str = "alod: rows 3 kept 2 removed 1 inert 0 omitted 0\n";

/// A run as its caller sees it.
#[derive(Drop)]
pub struct Ran {
    pub number: u8,
    /// What was printed.
    pub line: Vec<u8>,
    /// What OUT holds, if there is such a file.
    pub out: Vec<u8>,
    /// What EVIDENCE holds, if there is such a file.
    pub evidence: Vec<u8>,
}

fn text(alloc: Global, name: &str) -> Result<Text, Fail> {
    Ok(Text::of(alloc, name.as_bytes())?)
}

// What a file holds, if it is there.
fn held(alloc: Global, folder: &MemFolder, name: &str) -> Result<Vec<u8>, Fail> {
    let bytes = folder.file(&text(alloc, name)?).unwrap_or(b"");
    Ok(Vec::from_slice(alloc, bytes)?)
}

/// Runs over a folder and an output, with a gate.
pub fn run_past<R: Threads + Wait + Sync, G: Gate>(
    rt: &R,
    alloc: Global,
    words: &[&str],
    limits: &Limits,
    folder: &mut MemFolder,
    sink: &mut MemSink,
    gate: &G,
) -> Result<Ran, Fail> {
    if limits.file_bytes >= 0x8000_0000 || limits.depth > 256 {
        return Err("limits".into());
    }
    let mut given = Vec::new(alloc);
    for word in words {
        given.push(text(alloc, word)?)?;
    }
    let status = repair(rt, alloc, given.as_slice(), limits, folder, sink, gate);
    let line = Vec::from_slice(alloc, sink.bytes())?;
    let out = held(alloc, folder, "OUT")?;
    let evidence = held(alloc, folder, "EVIDENCE")?;
    Ok(Ran {
        number: status.number(),
        line,
        out,
        evidence,
    })
}

/// Runs over a folder and an output.
pub fn run_over<R: Threads + Wait + Sync>(
    rt: &R,
    alloc: Global,
    words: &[&str],
    limits: &Limits,
    folder: &mut MemFolder,
    sink: &mut MemSink,
) -> Result<Ran, Fail> {
    run_past(rt, alloc, words, limits, folder, sink, &OpenGate)
}

/// The files of a run.
pub fn files(alloc: Global, left: &[u8], right: &[u8], map: &[u8]) -> Result<MemFolder, Fail> {
    let mut folder = MemFolder::new(alloc);
    folder.set(&text(alloc, "LEFT")?, left)?;
    folder.set(&text(alloc, "RIGHT")?, right)?;
    folder.set(&text(alloc, "MAP")?, map)?;
    Ok(folder)
}

/// The files of the first worked case.
pub fn worked(alloc: Global) -> Result<MemFolder, Fail> {
    let map = format!(in alloc; "{HEADER}{ROWS}")?;
    files(alloc, APART.as_bytes(), BELOW.as_bytes(), map.as_bytes())
}

/// Runs over three texts, within limits.
pub fn run_within<R: Threads + Wait + Sync>(
    rt: &R,
    alloc: Global,
    left: &[u8],
    right: &[u8],
    map: &[u8],
    limits: &Limits,
) -> Result<Ran, Fail> {
    let mut folder = files(alloc, left, right, map)?;
    let mut sink = MemSink::new(alloc);
    run_over(rt, alloc, &NAMES, limits, &mut folder, &mut sink)
}

/// Runs over three texts.
pub fn run<R: Threads + Wait + Sync>(
    rt: &R,
    alloc: Global,
    left: &str,
    right: &str,
    map: &str,
) -> Result<Ran, Fail> {
    let limits = Limits::standard();
    run_within(
        rt,
        alloc,
        left.as_bytes(),
        right.as_bytes(),
        map.as_bytes(),
        &limits,
    )
}
