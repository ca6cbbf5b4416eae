//! What is asked of a run over files.

ghost use Rattle.std.specs.Prelude.{◌≡◌};
ghost use Rattle.status_lines.specs.Runs.{mode_if};

use command_words::FileNames;
use ofn_axiom::Mode;

/// The names of the files, and what is done with axioms outside the fragment.
#[derive(Drop)]
pub struct Request {
    pub names: FileNames,
    pub mode: Mode,
}

/// What is done with axioms outside the fragment.
pub fn mode_if(el_part: bool) -> Mode
    ensures { result ≡ mode_if el_part }
{
    if el_part { Mode::ElPart } else { Mode::Strict }
}
