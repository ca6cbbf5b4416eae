//! Two documents with one list of names.

ghost use Rattle.std.specs.Prelude.{◌≡◌, ◌≤◌, ◌<◌, ◌^◌, length, false, IfOk, IfErr};
ghost use Rattle.byte_words.specs.Faults.{OrOutOfMemory};
ghost use Rattle.ofn_axiom.specs.declared.types.Mode.TheVariants.{ElPart};
ghost use Rattle.case_load.specs.Loads.{AreRead};
ghost use Rattle.case_load.specs.Faults.{load_ran_out, is_outside};
ghost use Rattle.case_load.specs.Inside.Stages.{IsDocumentStop, AreBothOver};

use crate::LoadFault;
use crate::fault::of_document;
use crate::laws::readings_are_over_their_names;
use el_logic::Side;
use ofn_axiom::{Document, Mode, Names, read_document};
use std::alloc::Global;
use text_names::{Limits, NameTable};

/// Two ontologies, and the names of both.
#[derive(Debug, Drop)]
pub struct Documents {
    pub left: Document,
    pub right: Document,
    pub names: Names,
}

/// Reads LEFT, and then RIGHT.
pub fn read_documents(
    alloc: Global,
    left: &[u8],
    right: &[u8],
    mode: Mode,
    limits: &Limits,
) -> Result<Documents, LoadFault>
    requires depth { limits.now.depth ≤ 256 }
    requires left { length left.now < 2 ^ 31 }
    requires right { length right.now < 2 ^ 31 }
    ensures read { IfOk result (AreRead left.now right.now mode limits.now) }
    ensures over { IfOk result AreBothOver }
    ensures fault { IfErr result (OrOutOfMemory load_ran_out
        (IsDocumentStop left.now right.now mode limits.now)) }
    ensures profile { mode ≡ ElPart → IfErr result (λ fault. is_outside fault ≡ false) }
{
    let mut names = Names {
        classes: NameTable::new(alloc, limits.classes),
        roles: NameTable::new(alloc, limits.properties),
    };
    let left = match read_document(alloc, left, mode, limits, &mut names) {
        Ok(document) => document,
        Err(fault) => return Err(of_document(Side::Left, fault)),
    };
    let right = match read_document(alloc, right, mode, limits, &mut names) {
        Ok(document) => document,
        Err(fault) => return Err(of_document(Side::Right, fault)),
    };
    readings_are_over_their_names();
    Ok(Documents { left, right, names })
}
