//! One case from the files of a folder.

ghost use Rattle.std.specs.Prelude.{◌≡◌, ◌≤◌, ◌<◌, ◌^◌, length, false, IfOk, IfErr};
ghost use Rattle.byte_words.specs.Faults.{OrOutOfMemory};
ghost use Rattle.io_edge.specs.Outside.{FaultsNeverFall};
ghost use Rattle.ofn_axiom.specs.declared.types.Mode.TheVariants.{ElPart};
ghost use Rattle.case_load.specs.Loads.{inputs};
ghost use Rattle.case_load.specs.Faults.{load_ran_out, is_outside};
ghost use Rattle.case_load.specs.Folders.{IsFile, AreFiles, IsLoadedFrom, IsFirstFileFault};
ghost use Rattle.case_load.specs.Inside.Reads.{inputs_of, IsReadStop, IsFilesStop};

use crate::texts::{Loaded, assemble};
use crate::{LimitKind, LoadFault};
use io_edge::{Folder, ReadAnswer, Role};
use ofn_axiom::Mode;
use std::alloc::Global;
use text_names::{Bytes, Limits, Text};

// The texts of the three files.
#[derive(Drop)]
struct Texts {
    left: Bytes,
    right: Bytes,
    map: Bytes,
}

fn read_file<F: Folder>(
    alloc: Global,
    folder: &mut F,
    name: &Text,
    most: u64,
    file: Role,
) -> Result<Bytes, LoadFault>
    ensures files { (F.seen folder.new).files ≡ (F.seen folder.old).files }
    ensures later { FaultsNeverFall (F.seen folder.old) (F.seen folder.new) }
    ensures ok { IfOk result (IsFile (F.seen folder.old) name.now most) }
    ensures err { IfErr result
        (IsReadStop (F.seen folder.old) (F.seen folder.new) name.now most file) }
{
    match folder.read(alloc, name, most) {
        ReadAnswer::Whole(bytes) => Ok(bytes),
        ReadAnswer::TooLong => Err(LoadFault::Limit {
            kind: LimitKind::Bytes(file),
        }),
        ReadAnswer::Failed => Err(LoadFault::ReadFault { file }),
        ReadAnswer::OutOfMemory => Err(LoadFault::OutOfMemory),
    }
}

// Reads LEFT, RIGHT and MAP, in this order.
fn read_files<F: Folder>(
    alloc: Global,
    folder: &mut F,
    left: &Text,
    right: &Text,
    map: &Text,
    most: u64,
) -> Result<Texts, LoadFault>
    ensures files { (F.seen folder.new).files ≡ (F.seen folder.old).files }
    ensures later { FaultsNeverFall (F.seen folder.old) (F.seen folder.new) }
    ensures read { let names = inputs left.now right.now map.now in
        IfOk result (λ texts. AreFiles (F.seen folder.old) names most (inputs_of texts)) }
    ensures fault { let names = inputs left.now right.now map.now in
        IfErr result (IsFilesStop (F.seen folder.old) (F.seen folder.new) names most) }
{
    let left = match read_file(alloc, folder, left, most, Role::Left) {
        Ok(bytes) => bytes,
        Err(fault) => return Err(fault),
    };
    let right = match read_file(alloc, folder, right, most, Role::Right) {
        Ok(bytes) => bytes,
        Err(fault) => return Err(fault),
    };
    let map = match read_file(alloc, folder, map, most, Role::Map) {
        Ok(bytes) => bytes,
        Err(fault) => return Err(fault),
    };
    Ok(Texts { left, right, map })
}

/// The case of the files LEFT, RIGHT and MAP, or the first fault. First the files are read, in this
/// order: one may be missing, fail or be too long. Then their texts are looked at.
pub fn load<F: Folder>(
    alloc: Global,
    folder: &mut F,
    left: &Text,
    right: &Text,
    map: &Text,
    mode: Mode,
    limits: &Limits,
) -> Result<Loaded, LoadFault>
    requires bytes { limits.now.file_bytes < 2 ^ 31 }
    requires depth { limits.now.depth ≤ 256 }
    ensures files { (F.seen folder.new).files ≡ (F.seen folder.old).files }
    ensures later { FaultsNeverFall (F.seen folder.old) (F.seen folder.new) }
    ensures loaded { let names = inputs left.now right.now map.now in
        IfOk result (IsLoadedFrom (F.seen folder.old) names mode limits.now) }
    ensures fault { let names = inputs left.now right.now map.now in
        IfErr result (OrOutOfMemory load_ran_out
        (IsFirstFileFault (F.seen folder.old) (F.seen folder.new) names mode limits.now)) }
    ensures profile { mode ≡ ElPart → IfErr result (λ fault. is_outside fault ≡ false) }
{
    let texts = match read_files(alloc, folder, left, right, map, limits.file_bytes) {
        Ok(texts) => texts,
        Err(fault) => return Err(fault),
    };
    let left = texts.left.as_slice();
    let right = texts.right.as_slice();
    let map = texts.map.as_slice();
    match assemble(alloc, left, right, map, mode, limits) {
        Ok(loaded) => Ok(loaded),
        Err(fault) => Err(fault),
    }
}
