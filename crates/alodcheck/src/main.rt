//! alodcheck LEFT RIGHT MAP OUT EVIDENCE: says whether EVIDENCE shows that OUT is the mapping table
//! MAP between the ontologies LEFT and RIGHT without the rows that leave a class without any
//! possible member. alodcheck --refused LEFT RIGHT EVIDENCE: says whether EVIDENCE shows that the
//! ontologies leave a class so without any row.
#![tactic(auto)]

ghost use Rattle.std.specs.Prelude.{◌≡◌};
ghost use Rattle.std.specs.Process.{exit_status};
ghost use Rattle.check_run.specs.Lines.{check_number};

use check_run::{CheckStatus, check_files};
use io_edge::{RealFolder, StdSink};
use std::alloc::Global;
use std::env;
use std::io::ErrorKind;
use std::process::ExitCode;
use text_names::{Limits, Text, TextFault};

// Exit statuses where the words themselves can't be handed on; nothing is printed then.
const WORDS: u8 = 2;

const OUT_OF_MEMORY: u8 = 9;

// The words behind the program's own name.
fn words(alloc: Global, args: env::Args) -> Result<Vec<Text>, u8> {
    let mut words = Vec::new(alloc);
    for word in args.skip(1) {
        let word = Text::of(alloc, word.as_bytes()).map_err(|fault| match fault {
            TextFault::NotUtf8 { .. } => WORDS,
            TextFault::OutOfMemory => OUT_OF_MEMORY,
        })?;
        words.push(word).map_err(|_| OUT_OF_MEMORY)?;
    }
    Ok(words)
}

// How the program ends after an answer: with its number.
fn ended_with(status: &CheckStatus) -> ExitCode
    ensures { exit_status result ≡ check_number status.now }
{
    ExitCode::from(status.number())
}

fn main(rt: HostRuntime) -> ExitCode {
    let alloc = rt.alloc();
    let args = match env::args(&rt) {
        Ok(args) => args,
        Err(fault) if fault.kind() == ErrorKind::OutOfMemory => {
            return ExitCode::from(OUT_OF_MEMORY);
        }
        Err(_) => return ExitCode::from(WORDS),
    };
    let words = match words(alloc, args) {
        Ok(words) => words,
        Err(status) => return ExitCode::from(status),
    };
    let mut folder = RealFolder::new(&rt, alloc);
    let mut out = StdSink::new(&rt);
    let limits = Limits::standard();
    let status = check_files(alloc, words.as_slice(), &limits, &mut folder, &mut out);
    ended_with(&status)
}
