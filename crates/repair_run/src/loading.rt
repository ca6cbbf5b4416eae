//! What a run is over: files, or a made case.

ghost use Rattle.std.specs.Prelude.{◌≡◌, ◌≤◌, ◌<◌, ◌^◌, IfErr, IfOk};
ghost use Rattle.io_edge.specs.Outside.{FaultsNeverFall};
ghost use Rattle.command_words.specs.Commands.{IsFromOneTo};
ghost use Rattle.repair_run.specs.Outcomes.{AreLoaded};
ghost use Rattle.repair_run.specs.Made.{IsMadeCase, IsMadeFault};
ghost use Rattle.repair_run.specs.Inside.Choices.{IsPlain};
ghost use Rattle.repair_run.specs.Inside.Stops.{IsFileStop, IsLoadStop};

use crate::request::Request;
use case_load::{Loaded, assemble, load};
use case_maker::{made_texts_are_short, make};
use io_edge::Folder;
use ofn_axiom::Mode;
use rank_order::ranking_has_each_row_once;
use run_evidence::runs_are_tellable;
use status_lines::{Status, status_of};
use std::alloc::Global;
use text_names::Limits;

/// What LEFT, RIGHT and MAP say, or the answer of a run over files with a fault.
pub fn loaded<F: Folder>(
    alloc: Global,
    asked: &Request,
    limits: &Limits,
    folder: &mut F,
) -> Result<Loaded, Status>
    requires bytes { limits.now.file_bytes < 2 ^ 31 }
    requires depth { limits.now.depth ≤ 256 }
    ensures files { (F.seen folder.new).files ≡ (F.seen folder.old).files }
    ensures later { FaultsNeverFall (F.seen folder.old) (F.seen folder.new) }
    ensures loaded { IfOk result (AreLoaded (F.seen folder.old) asked.now limits.now) }
    ensures plain { IfOk result IsPlain }
    ensures stop { IfErr result (IsLoadStop
        (IsFileStop (F.seen folder.old) (F.seen folder.new) asked.now limits.now)) }
{
    ranking_has_each_row_once();
    let names = &asked.names;
    match load(
        alloc,
        folder,
        &names.left,
        &names.right,
        &names.map,
        asked.mode,
        limits,
    ) {
        Ok(loaded) => {
            runs_are_tellable(&loaded);
            Ok(loaded)
        }
        Err(fault) => Err(status_of(fault)),
    }
}

/// What the texts of a made case say, or the answer of a run over texts with a fault.
pub fn made_case(alloc: Global, size: u32, limits: &Limits) -> Result<Loaded, Status>
    requires size { IsFromOneTo 10000 size }
    requires depth { limits.now.depth ≤ 256 }
    ensures loaded { IfOk result (IsMadeCase size limits.now) }
    ensures plain { IfOk result IsPlain }
    ensures stop { IfErr result (IsLoadStop (IsMadeFault size limits.now)) }
{
    ranking_has_each_row_once();
    made_texts_are_short();
    let Ok(made) = make(alloc, size) else {
        return Err(Status::OutOfMemory);
    };
    let (left, right) = (made.left.as_slice(), made.right.as_slice());
    match assemble(
        alloc,
        left,
        right,
        made.table.as_slice(),
        Mode::Strict,
        limits,
    ) {
        Ok(loaded) => {
            runs_are_tellable(&loaded);
            Ok(loaded)
        }
        Err(fault) => Err(status_of(fault)),
    }
}
