//! One check over files in memory.

use check_run::check_files;
use io_edge::{MemFolder, MemSink};
use std::alloc::Global;
use std::test::Fail;
use text_names::{Limits, Text};

pub const HEADER: &str = "#curie_map:\n#  l: http://l/\n#  r: http://r/\n\
subject_id\tpredicate_id\tobject_id\tconfidence\n";

pub const APART: &str = "Prefix(:=<http://l/>) Ontology(DisjointClasses(:A :B))";

pub const BELOW: &str = "Prefix(:=<http://r/>) Ontology(SubClassOf(:X :Y))";

/// The three rows of a small case. The second goes.
pub const ROWS: [&str; 3] = [
    "l:A\tskos:exactMatch\tr:X\t0.9\n",
    "l:B\tskos:exactMatch\tr:Y\t0.8\n",
    "l:B\tskos:broadMatch\tr:Y\t0.7\n",
];

/// Evidence of that.
pub const SHOWN: &str = "alod evidence 1\ndiagnosis\nomitted 0\nnodes 6\ntop\nbottom\n\
class <http://l/A>\nclass <http://l/B>\nclass <http://r/X>\nclass <http://r/Y>\nroles 0\n\
removed 1\nrow 2 steps 5\nsub 2 2 self\nsub 2 4 incl 1 row 1 1\nsub 2 5 incl 2 right 1\n\
sub 2 3 incl 3 row 2 2\nsub 2 1 disj 1 4 left 1\nmodel 5\nclass 2 1 3\nclass 3 2\nclass 4 1 3\n\
class 5 1 2 3 4\njournal 7\n0 front 0 0\n0 yes 0 0 kept\n0 front 1 1\n0 no 1 1 marked\n\
0 front 2 1\n0 yes 2 1 kept\n0 front done\nend\n";

/// The files of a check.
#[derive(Clone, Copy)]
pub struct Files<'a> {
    pub left: &'a [u8],
    pub right: &'a [u8],
    pub map: &'a [u8],
    pub out: &'a [u8],
    pub evidence: &'a [u8],
}

/// The words that name them.
pub const NAMES: [&str; 5] = ["LEFT", "RIGHT", "MAP", "OUT", "EVIDENCE"];

fn text(alloc: Global, name: &str) -> Result<Text, Fail> {
    Ok(Text::of(alloc, name.as_bytes())?)
}

/// A folder that has the files.
pub fn folder_of(alloc: Global, files: &Files<'_>) -> Result<MemFolder, Fail> {
    let mut folder = MemFolder::new(alloc);
    folder.set(&text(alloc, "LEFT")?, files.left)?;
    folder.set(&text(alloc, "RIGHT")?, files.right)?;
    folder.set(&text(alloc, "MAP")?, files.map)?;
    folder.set(&text(alloc, "OUT")?, files.out)?;
    folder.set(&text(alloc, "EVIDENCE")?, files.evidence)?;
    Ok(folder)
}

/// Checks over a folder and an output, and gives the status.
pub fn check_over(
    alloc: Global,
    words: &[&str],
    folder: &mut MemFolder,
    sink: &mut MemSink,
) -> Result<u8, Fail> {
    let limits = Limits::standard();
    let mut names = Vec::new(alloc);
    for word in words {
        names.push(text(alloc, word)?)?;
    }
    Ok(check_files(alloc, names.as_slice(), &limits, folder, sink).number())
}

/// Whether the check of the files ends with a status and prints a line.
pub fn answers(
    alloc: Global,
    words: &[&str],
    files: &Files<'_>,
    number: u8,
    line: &str,
) -> Result<bool, Fail> {
    let mut folder = folder_of(alloc, files)?;
    let mut sink = MemSink::new(alloc);
    let found = check_over(alloc, words, &mut folder, &mut sink)?;
    Ok(found == number && sink.bytes() == line.as_bytes())
}

/// A text with one part changed, which it has to have.
pub fn changed(alloc: Global, text: &str, part: &str, by: &str) -> Result<String, Fail> {
    let Some((front, back)) = text.split_once(part) else {
        return Err("the text has no such part".into());
    };
    Ok(format!(in alloc; "{front}{by}{back}")?)
}
