//! Command lines, and what they ask for.
use crate::{CheckWords, FileNames, RepairWords, WordsFault, read_check_words, read_repair_words};
use std::alloc::{AllocError, Global};
use std::test::Fail;
use text_names::Text;

// What a line of words asks for, or `usage`.
type Case = (&'static str, &'static str);

static REPAIR: [Case; 60] = [
    ("a b c d e", "files 4 a b c d e"),
    ("--workers 2 a b c d e", "files 2 a b c d e"),
    ("a b --workers=16 c d e", "files 16 a b c d e"),
    ("a b c d e --workers 000000001", "files 1 a b c d e"),
    (
        "--el-part --workers 3 a b c d e",
        "el-part files 3 a b c d e",
    ),
    ("a --el-part b c d e", "el-part files 4 a b c d e"),
    ("--made 3", "made 3 4"),
    ("--made=10000 --workers=1", "made 10000 1"),
    ("--workers 5 --made 1", "made 1 5"),
    ("--made 3 --", "made 3 4"),
    ("-- a b c d e", "files 4 a b c d e"),
    ("a b -- c d e", "files 4 a b c d e"),
    ("a b c d e --", "files 4 a b c d e"),
    ("a b c d -- --el-part", "files 4 a b c d --el-part"),
    ("a b c d -- --", "files 4 a b c d --"),
    (
        "--el-part -- -- -x --made d e",
        "el-part files 4 -- -x --made d e",
    ),
    ("- b c d e", "files 4 - b c d e"),
    ("a a a d e", "files 4 a a a d e"),
    ("help é c d e", "files 4 help é c d e"),
    ("", "usage"),
    ("a b c d", "usage"),
    ("a b c d e f", "usage"),
    ("a b c c e", "usage"),
    ("a b c a e", "usage"),
    ("a b c b e", "usage"),
    ("a b c d d", "usage"),
    ("a b c d a", "usage"),
    ("a b c d b", "usage"),
    ("a b c d c", "usage"),
    ("a b  d e", "usage"),
    ("--workers 0 a b c d e", "usage"),
    ("--workers 17 a b c d e", "usage"),
    ("--workers=0000000001 a b c d e", "usage"),
    ("--workers= a b c d e", "usage"),
    ("--workers +1 a b c d e", "usage"),
    ("--workers -1 a b c d e", "usage"),
    ("--workers 1e0 a b c d e", "usage"),
    ("--workers -- a b c d e", "usage"),
    ("--workers --el-part a b c d e", "usage"),
    ("--workers 1 --workers 1 a b c d e", "usage"),
    ("--workers=1 --workers 1 a b c d e", "usage"),
    ("--el-part --el-part a b c d e", "usage"),
    ("--el-part=1 a b c d e", "usage"),
    ("a b c d e --workers", "usage"),
    ("--made 0", "usage"),
    ("--made 10001", "usage"),
    ("--made", "usage"),
    ("--made 1 --made 1", "usage"),
    ("--made 1 a b c d e", "usage"),
    ("--made 1 --el-part", "usage"),
    ("--refused a b c d e", "usage"),
    ("-w a b c d e", "usage"),
    ("-é a b c d e", "usage"),
    ("--- a b c d e", "usage"),
    ("--=1 a b c d e", "usage"),
    ("--work=1 a b c d e", "usage"),
    ("--el-part= a b c d e", "usage"),
    ("--workers=1=1 a b c d e", "usage"),
    ("--workers --workers 1 a b c d e", "usage"),
    ("--help", "usage"),
];

static CHECK: [Case; 20] = [
    ("a b c d e", "files a b c d e"),
    ("a a a a a", "files a a a a a"),
    ("a b --el-part c d e", "el-part files a b c d e"),
    ("--refused a b e", "refused a b e"),
    ("a b e --refused", "refused a b e"),
    ("--el-part --refused a a a", "el-part refused a a a"),
    (
        "--refused -- - --refused --el-part",
        "refused - --refused --el-part",
    ),
    ("a b c d", "usage"),
    ("a b e", "usage"),
    ("--refused a b c d e", "usage"),
    ("--refused a b ", "usage"),
    ("--refused a b", "usage"),
    ("a  c d e", "usage"),
    ("--refused --refused a b e", "usage"),
    ("--el-part a b c d e --el-part", "usage"),
    ("--workers 1 a b c d e", "usage"),
    ("--workers=1 a b c d e", "usage"),
    ("--made 1", "usage"),
    ("-h", "usage"),
    ("", "usage"),
];

// The words between spaces. The empty line has none.
fn words_of(alloc: Global, line: &str) -> Result<Vec<Text>, Fail> {
    let mut words = Vec::new(alloc);
    if line.is_empty() {
        return Ok(words);
    }
    for word in line.split(' ') {
        words.push(Text::of(alloc, word.as_bytes())?)?;
    }
    Ok(words)
}

fn mode(el_part: bool) -> &'static str {
    if el_part { "el-part " } else { "" }
}

fn five(alloc: Global, names: &FileNames) -> Result<String, AllocError> {
    let FileNames {
        left,
        right,
        map,
        out,
        evidence,
    } = names;
    let (left, right, map) = (left.as_str(), right.as_str(), map.as_str());
    let (out, evidence) = (out.as_str(), evidence.as_str());
    format!(in alloc; "{left} {right} {map} {out} {evidence}")
}

fn repair_told(
    alloc: Global,
    read: &Result<RepairWords, WordsFault>,
) -> Result<String, AllocError> {
    match read {
        Ok(
            RepairWords::Files {
                el_part,
                workers,
                names,
            },
        ) => {
            let names = five(alloc, names)?;
            format!(in alloc; "{}files {workers} {names}", mode(*el_part))
        }
        Ok(RepairWords::Made { size, workers }) => format!(in alloc; "made {size} {workers}"),
        Err(WordsFault::Usage) => format!(in alloc; "usage"),
        Err(WordsFault::OutOfMemory) => format!(in alloc; "out of memory"),
    }
}

fn check_told(alloc: Global, read: &Result<CheckWords, WordsFault>) -> Result<String, AllocError> {
    match read {
        Ok(CheckWords::Repair { el_part, names }) => {
            let names = five(alloc, names)?;
            format!(in alloc; "{}files {names}", mode(*el_part))
        }
        Ok(
            CheckWords::Refusal {
                el_part,
                left,
                right,
                evidence,
            },
        ) => {
            let (left, right, evidence) = (left.as_str(), right.as_str(), evidence.as_str());
            format!(in alloc; "{}refused {left} {right} {evidence}", mode(*el_part))
        }
        Err(WordsFault::Usage) => format!(in alloc; "usage"),
        Err(WordsFault::OutOfMemory) => format!(in alloc; "out of memory"),
    }
}

fn repair_line(alloc: Global, line: &str) -> Result<String, Fail> {
    let words = words_of(alloc, line)?;
    Ok(repair_told(alloc, &read_repair_words(alloc, words.as_slice()))?)
}

fn check_line(alloc: Global, line: &str) -> Result<String, Fail> {
    let words = words_of(alloc, line)?;
    Ok(check_told(alloc, &read_check_words(alloc, words.as_slice()))?)
}

#[test]
fn reads_words_of_alod(rt: HostRuntime) -> Result<(), Fail> {
    for case in &REPAIR {
        let told = repair_line(rt.alloc(), case.0)?;
        assert_eq!(rt; told.as_str(), case.1, "{}", case.0);
    }
    Ok(())
}

#[test]
fn reads_words_of_alodcheck(rt: HostRuntime) -> Result<(), Fail> {
    for case in &CHECK {
        let told = check_line(rt.alloc(), case.0)?;
        assert_eq!(rt; told.as_str(), case.1, "{}", case.0);
    }
    Ok(())
}
