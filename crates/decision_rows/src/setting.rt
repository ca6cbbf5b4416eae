//! Cases that are made from texts, and tests down their ranks.

ghost use Rattle.std.specs.Prelude.{IsTrue, All, ◌<◌};

use case_load::{LoadFault, Loaded, assemble};
use closed_model::ClosedTable;
use ofn_axiom::Mode;
use saturate::{Verdict, test};
use std::alloc::Global;
use std::test::Fail;
use text_names::Limits;

pub fn made(alloc: Global, left: &str, right: &str, map: &str) -> Result<Loaded, LoadFault> {
    let limits = Limits::standard();
    let left = left.as_bytes();
    let right = right.as_bytes();
    let map = map.as_bytes();
    if left.len() >= 0x8000_0000 || right.len() >= 0x8000_0000 || map.len() >= 0x8000_0000 {
        return Err(LoadFault::OutOfMemory);
    }
    if limits.depth > 256 {
        return Err(LoadFault::OutOfMemory);
    }
    assemble(alloc, left, right, map, Mode::Strict, &limits)
}

// All of these ranks are below one.
fn are_before(ranks: &[u32], rank: u32) -> bool
    ensures { IsTrue result → All (λ old. old < rank) ranks.now }
{
    for old in ranks {
        if *old >= rank {
            return false;
        }
    }
    true
}

// The verdict on one more rank.
pub fn tested(alloc: Global, table: &ClosedTable, rank: u32) -> Result<Verdict, Fail> {
    if rank >= table.case().ranks() {
        return Err("no such rank".into());
    }
    if !are_before(table.ranks(), rank) {
        return Err("ranks that don't ascend".into());
    }
    Ok(test(alloc, table, rank)?)
}

/// The table of the ranks that are kept, going down all ranks.
pub fn chosen(alloc: Global, first: ClosedTable) -> Result<ClosedTable, Fail> {
    let mut table = first;
    for rank in 0..table.case().ranks() {
        match tested(alloc, &table, rank)? {
            Verdict::Yes(next) => table = next,
            Verdict::No(_) => {}
        }
    }
    Ok(table)
}
