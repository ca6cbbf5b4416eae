//! The files of a check.

ghost use Rattle.std.specs.Prelude.{◌≡◌, ◌<◌, ◌^◌, Bool, IfOk, IfErr};
ghost use Rattle.io_edge.specs.Outside.{FaultsNeverFall};
ghost use Rattle.command_words.specs.declared.types.CheckWords.TheVariants as check;
ghost use Rattle.case_load.specs.Folders.{IsFile};
ghost use Rattle.check_run.specs.Files.{bare_table, AreTextsFor, AreRunTexts, AreRefusalTexts};
ghost use Rattle.check_run.specs.Inside.Reads.{IsFileStop, IsTextsStop, AreShort};

use case_load::{LimitKind, LoadFault};
use command_words::{CheckWords, FileNames};
use io_edge::{Folder, ReadAnswer, Role};
use std::alloc::Global;
use text_names::{Bytes, Text};

/// The texts of the files.
#[derive(Drop)]
pub struct CheckTexts {
    pub left: Bytes,
    pub right: Bytes,
    /// A table without rows, if the check is that of a refusal.
    pub map: Bytes,
    /// Empty if the check is that of a refusal.
    pub out: Bytes,
    pub evidence: Bytes,
}

fn read_file<F: Folder>(
    alloc: Global,
    folder: &mut F,
    name: &Text,
    most: u64,
    file: Role,
) -> Result<Bytes, LoadFault>
    ensures files { (F.seen folder.new).files ≡ (F.seen folder.old).files }
    ensures later { FaultsNeverFall (F.seen folder.old) (F.seen folder.new) }
    ensures ok { IfOk result (IsFile (F.seen folder.old) name.now most) }
    ensures err { IfErr result
        (IsFileStop (F.seen folder.old) (F.seen folder.new) name.now most file) }
{
    match folder.read(alloc, name, most) {
        ReadAnswer::Whole(bytes) => Ok(bytes),
        ReadAnswer::TooLong => Err(LoadFault::Limit {
            kind: LimitKind::Bytes(file),
        }),
        ReadAnswer::Failed => Err(LoadFault::ReadFault { file }),
        ReadAnswer::OutOfMemory => Err(LoadFault::OutOfMemory),
    }
}

// Reads LEFT, RIGHT, MAP, OUT and EVIDENCE, in this order.
fn read_run<F: Folder>(
    alloc: Global,
    folder: &mut F,
    names: &FileNames,
    most: u64,
) -> Result<CheckTexts, LoadFault>
    requires { most < 2 ^ 31 }
    ensures files { (F.seen folder.new).files ≡ (F.seen folder.old).files }
    ensures later { FaultsNeverFall (F.seen folder.old) (F.seen folder.new) }
    ensures read { IfOk result (AreRunTexts (F.seen folder.old) names.now most) }
    ensures short { IfOk result AreShort }
    ensures fault { (el_part : Bool) → let command = check.Repair el_part names.now in
        IfErr result (IsTextsStop (F.seen folder.old) (F.seen folder.new) command most) }
{
    let left = match read_file(alloc, folder, &names.left, most, Role::Left) {
        Ok(bytes) => bytes,
        Err(fault) => return Err(fault),
    };
    let right = match read_file(alloc, folder, &names.right, most, Role::Right) {
        Ok(bytes) => bytes,
        Err(fault) => return Err(fault),
    };
    let map = match read_file(alloc, folder, &names.map, most, Role::Map) {
        Ok(bytes) => bytes,
        Err(fault) => return Err(fault),
    };
    let out = match read_file(alloc, folder, &names.out, u64::MAX, Role::Out) {
        Ok(bytes) => bytes,
        Err(fault) => return Err(fault),
    };
    let evidence = match read_file(alloc, folder, &names.evidence, u64::MAX, Role::Evidence) {
        Ok(bytes) => bytes,
        Err(fault) => return Err(fault),
    };
    Ok(CheckTexts {
        left,
        right,
        map,
        out,
        evidence,
    })
}

// A table that has no rows.
fn bare_table(alloc: Global) -> Result<Bytes, LoadFault>
    ensures ok { IfOk result (λ table. table ≡ bare_table) }
    ensures err { IfErr result (λ fault. fault ≡ LoadFault.OutOfMemory) }
{
    let table = b"subject_id\tpredicate_id\tobject_id\tconfidence\n";
    match Bytes::copy_of(alloc, table) {
        Ok(bytes) => Ok(bytes),
        Err(_) => Err(LoadFault::OutOfMemory),
    }
}

// Reads LEFT, RIGHT and EVIDENCE, in this order.
fn read_refusal<F: Folder>(
    alloc: Global,
    folder: &mut F,
    left: &Text,
    right: &Text,
    evidence: &Text,
    most: u64,
) -> Result<CheckTexts, LoadFault>
    requires { most < 2 ^ 31 }
    ensures files { (F.seen folder.new).files ≡ (F.seen folder.old).files }
    ensures later { FaultsNeverFall (F.seen folder.old) (F.seen folder.new) }
    ensures read { IfOk result
        (AreRefusalTexts (F.seen folder.old) left.now right.now evidence.now most) }
    ensures short { IfOk result AreShort }
    ensures fault { (el_part : Bool) →
        let command = check.Refusal el_part left.now right.now evidence.now in
        IfErr result (IsTextsStop (F.seen folder.old) (F.seen folder.new) command most) }
{
    let left = match read_file(alloc, folder, left, most, Role::Left) {
        Ok(bytes) => bytes,
        Err(fault) => return Err(fault),
    };
    let right = match read_file(alloc, folder, right, most, Role::Right) {
        Ok(bytes) => bytes,
        Err(fault) => return Err(fault),
    };
    let evidence = match read_file(alloc, folder, evidence, u64::MAX, Role::Evidence) {
        Ok(bytes) => bytes,
        Err(fault) => return Err(fault),
    };
    let map = match bare_table(alloc) {
        Ok(bytes) => bytes,
        Err(fault) => return Err(fault),
    };
    Ok(CheckTexts {
        left,
        right,
        map,
        out: Bytes::new(alloc),
        evidence,
    })
}

/// The texts of the files of a command, or the first file that is not read or too long.
pub fn read_texts<F: Folder>(
    alloc: Global,
    folder: &mut F,
    command: &CheckWords,
    most: u64,
) -> Result<CheckTexts, LoadFault>
    requires { most < 2 ^ 31 }
    ensures files { (F.seen folder.new).files ≡ (F.seen folder.old).files }
    ensures later { FaultsNeverFall (F.seen folder.old) (F.seen folder.new) }
    ensures read { IfOk result (AreTextsFor (F.seen folder.old) command.now most) }
    ensures short { IfOk result AreShort }
    ensures fault { IfErr result
        (IsTextsStop (F.seen folder.old) (F.seen folder.new) command.now most) }
{
    match command {
        CheckWords::Repair { names, .. } => read_run(alloc, folder, names, most),
        CheckWords::Refusal {
            left,
            right,
            evidence,
            ..
        } => read_refusal(alloc, folder, left, right, evidence, most),
    }
}
