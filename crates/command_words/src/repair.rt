//! The words of `alod`.
ghost use Rattle.std.specs.Prelude.{◌≡◌, IfOk, None, Some, unwrap_or};
ghost use Rattle.command_words.specs.Commands.{IsRepair, repair_of, workers_of};
ghost use Rattle.command_words.specs.Inside.Seen.{seen};
ghost use Rattle.command_words.specs.declared.types.RepairWords.{RepairWords};

use crate::names::{file_names, has_own_outputs};
use crate::reading::{GivenWords, read_given, texts_of};
use crate::{Program, RepairWords, WordsFault};
use std::alloc::Global;
use text_names::Text;

// What the options and names ask for.
fn repair_of(alloc: Global, given: &GivenWords<'_>) -> Result<RepairWords, WordsFault>
    ensures ok { let given = seen given.now in
        IfOk result (λ command. repair_of given.options.made given ≡ Some command) }
    ensures err { let given = seen given.now in
        result ≡ Err WordsFault.Usage → repair_of given.options.made given ≡ None }
{
    let el_part = given.options.el_part;
    let workers = given.options.workers.unwrap_or(4);
    if let Some(size) = given.options.made {
        if el_part || !given.names.is_empty() {
            return Err(WordsFault::Usage);
        }
        return Ok(RepairWords::Made { size, workers });
    }
    let names = match file_names(alloc, given.names.as_slice()) {
        Ok(names) => names,
        Err(fault) => return Err(fault),
    };
    if !has_own_outputs(&names) {
        return Err(WordsFault::Usage);
    }
    Ok(RepairWords::Files {
        el_part,
        workers,
        names,
    })
}

/// Reads the words of `alod`, without the program's own name: `[--workers N] [--el-part] LEFT RIGHT
/// MAP OUT EVIDENCE`, or `--made N [--workers N]`.
pub fn read_repair_words(alloc: Global, words: &[Text]) -> Result<RepairWords, WordsFault>
    ensures ok { IfOk result (λ command. IsRepair words.now command) }
    ensures usage { result ≡ Err WordsFault.Usage
        → (command : RepairWords) → ¬ IsRepair words.now command }
{
    let Ok(texts) = texts_of(alloc, words) else {
        return Err(WordsFault::OutOfMemory);
    };
    let given = match read_given(alloc, Program::Repair, texts.as_slice()) {
        Ok(given) => given,
        Err(fault) => return Err(fault),
    };
    repair_of(alloc, &given)
}
