//! alod [--workers N] [--el-part] LEFT RIGHT MAP OUT EVIDENCE: writes to OUT the mapping table MAP
//! between the ontologies LEFT and RIGHT, without the rows that leave a class without any possible
//! member, and to EVIDENCE why. alod --made N [--workers N]: does the same with a made case, without
//! files.
#![tactic(auto)]

ghost use Rattle.std.specs.Prelude.{◌≡◌};
ghost use Rattle.std.specs.Process.{exit_status};
ghost use Rattle.status_lines.specs.Lines.{status_number};

use io_edge::{OpenGate, RealFolder, StdSink};
use repair_run::{Status, repair};
use std::alloc::Global;
use std::env;
use std::io::ErrorKind;
use std::process::ExitCode;
use text_names::{Limits, Text, TextFault};

// Exit statuses where the words themselves can't be handed on; nothing is printed then.
const WORDS: u8 = 2;

const OUT_OF_MEMORY: u8 = 9;

// The words behind the program's own name.
fn words(alloc: Global, args: env::Args) -> Result<Vec<Text>, u8> {
    let mut words = Vec::new(alloc);
    for word in args.skip(1) {
        let word = Text::of(alloc, word.as_bytes()).map_err(|fault| match fault {
            TextFault::NotUtf8 { .. } => WORDS,
            TextFault::OutOfMemory => OUT_OF_MEMORY,
        })?;
        words.push(word).map_err(|_| OUT_OF_MEMORY)?;
    }
    Ok(words)
}

// How the program ends after an answer: with its number.
fn ended_with(status: &Status) -> ExitCode
    ensures { exit_status result ≡ status_number status.now }
{
    ExitCode::from(status.number())
}

fn main(rt: HostRuntime) -> ExitCode {
    let alloc = rt.alloc();
    let args = match env::args(&rt) {
        Ok(args) => args,
        Err(fault) if fault.kind() == ErrorKind::OutOfMemory => {
            return ExitCode::from(OUT_OF_MEMORY);
        }
        Err(_) => return ExitCode::from(WORDS),
    };
    let words = match words(alloc, args) {
        Ok(words) => words,
        Err(status) => return ExitCode::from(status),
    };
    let mut folder = RealFolder::new(&rt, alloc);
    let mut out = StdSink::new(&rt);
    let limits = Limits::standard();
    let words = words.as_slice();
    let status = repair(&rt, alloc, words, &limits, &mut folder, &mut out, &OpenGate);
    ended_with(&status)
}
