//! The words of `alodcheck`.
ghost use Rattle.std.specs.Prelude.{◌≡◌, IfOk, None, Some, map};
ghost use Rattle.command_words.specs.Commands.{IsCheck, check_of, refusal_named};
ghost use Rattle.command_words.specs.Inside.Seen.{seen};
ghost use Rattle.command_words.specs.declared.types.CheckWords.{CheckWords};

use crate::names::{file_names, filled_name};
use crate::reading::{GivenWords, read_given, texts_of};
use crate::{CheckWords, Program, WordsFault};
use std::alloc::Global;
use text_names::Text;

// The three names of a refusal, copied.
fn refusal_named(alloc: Global, el_part: bool, names: &[&str]) -> Result<CheckWords, WordsFault>
    ensures ok { IfOk result (λ command.
        refusal_named el_part (map (λ name. name.now) names.now) ≡ Some command) }
    ensures err { result ≡ Err WordsFault.Usage →
        refusal_named el_part (map (λ name. name.now) names.now) ≡ None }
{
    let [left, right, evidence] = names else {
        return Err(WordsFault::Usage);
    };
    Ok(CheckWords::Refusal {
        el_part,
        left: filled_name(alloc, left)?,
        right: filled_name(alloc, right)?,
        evidence: filled_name(alloc, evidence)?,
    })
}

// What the options and names ask for.
fn check_of(alloc: Global, given: &GivenWords<'_>) -> Result<CheckWords, WordsFault>
    ensures ok { let given = seen given.now in
        IfOk result (λ command. check_of given.options.refused given ≡ Some command) }
    ensures err { let given = seen given.now in
        result ≡ Err WordsFault.Usage → check_of given.options.refused given ≡ None }
{
    let el_part = given.options.el_part;
    if given.options.refused {
        return refusal_named(alloc, el_part, given.names.as_slice());
    }
    match file_names(alloc, given.names.as_slice()) {
        Ok(names) => Ok(CheckWords::Repair { el_part, names }),
        Err(fault) => Err(fault),
    }
}

/// Reads the words of `alodcheck`, without the program's own name: `[--el-part] LEFT RIGHT MAP OUT
/// EVIDENCE`, or `--refused [--el-part] LEFT RIGHT EVIDENCE`.
pub fn read_check_words(alloc: Global, words: &[Text]) -> Result<CheckWords, WordsFault>
    ensures ok { IfOk result (λ command. IsCheck words.now command) }
    ensures usage { result ≡ Err WordsFault.Usage
        → (command : CheckWords) → ¬ IsCheck words.now command }
{
    let Ok(texts) = texts_of(alloc, words) else {
        return Err(WordsFault::OutOfMemory);
    };
    let given = match read_given(alloc, Program::Check, texts.as_slice()) {
        Ok(given) => given,
        Err(fault) => return Err(fault),
    };
    check_of(alloc, &given)
}
