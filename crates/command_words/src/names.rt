//! The names of files.
ghost use Rattle.std.specs.Prelude.{◌≡◌, ◌∷◌, [], IfOk, map, None, Some, true, false, ◌||◌, bytes_eq};
ghost use Rattle.command_words.specs.Commands.{files_named, has_own_outputs, is_filled, is_input};

use crate::{FileNames, WordsFault};
use std::alloc::Global;
use text_names::Text;

/// A copy of a name that is not empty.
pub fn filled_name(alloc: Global, name: &str) -> Result<Text, WordsFault>
    ensures copy { IfOk result (λ copy. copy ≡ name.now) }
    ensures filled { IfOk result (λ copy. is_filled name.now ≡ true) }
    ensures empty { result ≡ Err WordsFault.Usage → is_filled name.now ≡ false }
{
    if name.is_empty() {
        return Err(WordsFault::Usage);
    }
    // A `str` is UTF-8, so that only memory can be short.
    match Text::of(alloc, name.as_bytes()) {
        Ok(copy) => Ok(copy),
        Err(_) => Err(WordsFault::OutOfMemory),
    }
}

// Copies of five names that are not empty.
fn filled_names(
    alloc: Global,
    left: &str,
    right: &str,
    map: &str,
    out: &str,
    evidence: &str,
) -> Result<FileNames, WordsFault>
    ensures ok { let names = left.now ∷ right.now ∷ map.now ∷ out.now ∷ evidence.now ∷ [] in
        IfOk result (λ files. files_named names ≡ Some files) }
    ensures err { let names = left.now ∷ right.now ∷ map.now ∷ out.now ∷ evidence.now ∷ [] in
        result ≡ Err WordsFault.Usage → files_named names ≡ None }
{
    Ok(FileNames {
        left: filled_name(alloc, left)?,
        right: filled_name(alloc, right)?,
        map: filled_name(alloc, map)?,
        out: filled_name(alloc, out)?,
        evidence: filled_name(alloc, evidence)?,
    })
}

/// The five names, copied.
pub fn file_names(alloc: Global, names: &[&str]) -> Result<FileNames, WordsFault>
    ensures ok { IfOk result (λ files.
        files_named (map (λ name. name.now) names.now) ≡ Some files) }
    ensures err { result ≡ Err WordsFault.Usage →
        files_named (map (λ name. name.now) names.now) ≡ None }
{
    match names {
        [left, right, map, out, evidence] => filled_names(alloc, left, right, map, out, evidence),
        _ => Err(WordsFault::Usage),
    }
}

fn is_input(name: &Text, names: &FileNames) -> bool
    ensures { result ≡ is_input name.now names.now }
{
    let name = name.bytes();
    name == names.left.bytes() || name == names.right.bytes() || name == names.map.bytes()
}

/// Whether neither OUT nor EVIDENCE has the name of another file.
pub fn has_own_outputs(names: &FileNames) -> bool
    ensures { result ≡ has_own_outputs names.now }
{
    if is_input(&names.out, names) || is_input(&names.evidence, names) {
        return false;
    }
    names.out.bytes() != names.evidence.bytes()
}
