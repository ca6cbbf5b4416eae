//! Walks down the chains of cells.

ghost use Rattle.std.specs.Prelude.{◌≡◌, ◌-◌, ◌<◌, ◌≤◌, IsTrue, false, length};
ghost use Rattle.fact_table.specs.Groups.{group_at};
ghost use Rattle.fact_table.specs.Places.{IsFoundAt, IsLastBelow};
ghost use Rattle.fact_table.specs.Inside.Buckets.{bucket_of, head_at, head_of};
ghost use Rattle.fact_table.specs.Inside.Chains.{IsWalked};
ghost use Rattle.fact_table.specs.Inside.Cells.{AreCellsBy, cell_facts, link_at, same_link};

use crate::buckets::{bucket, group_at, head};
use crate::cells::Cell;
use crate::types::{Fact, FactGroup, FactSide};

#[inline(always)]
fn has_fact(cell: Cell, fact: Fact) -> bool
    ensures yes { IsTrue result → cell.fact ≡ fact }
    ensures no { result ≡ false → cell.fact ≡ fact → ⊥ }
{
    cell.fact == fact
}

#[inline(always)]
fn same_link(cell: Cell) -> usize
    ensures { result ≡ same_link cell }
{
    cell.same as usize
}

#[inline(always)]
fn link_at(side: FactSide, cell: Cell) -> usize
    ensures { result ≡ link_at side cell }
{
    match side {
        FactSide::From => cell.from as usize,
        FactSide::Into => cell.into as usize,
    }
}

/// The place of a fact, along the chain of its bucket.
pub fn seek(cells: &[Cell], heads: &[u32], fact: Fact) -> Option<usize>
    requires { AreCellsBy bucket_of same_link cells.now heads.now }
    ensures { IsFoundAt (cell_facts cells.now) fact result }
{
    if heads.is_empty() {
        return None;
    }
    let mut past = heads[bucket(fact, (heads.len() - 1) as u64)] as usize;
    while past > 0 {
        let cell = cells[past - 1];
        if has_fact(cell, fact) {
            return Some(past - 1);
        }
        past = same_link(cell);
    }
    None
}

// Whether the walk ends at this place.
#[inline(always)]
fn is_wanted(side: FactSide, cell: Cell, group: FactGroup, place: usize, below: usize) -> bool
    ensures yes { IsTrue result → (place < below) × (group_at side cell.fact ≡ group) }
    ensures no { result ≡ false → place < below → group_at side cell.fact ≡ group → ⊥ }
{
    if place < below {
        group_at(side, cell.fact) == group
    } else {
        false
    }
}

/// The last place below a bound whose fact is of the group.
#[inline(always)]
pub fn walk(
    cells: &[Cell],
    heads: &[u32],
    side: FactSide,
    group: FactGroup,
    below: usize,
) -> Option<usize>
    requires { AreCellsBy (head_at side) (link_at side) cells.now heads.now }
    ensures { IsLastBelow (group_at side) (cell_facts cells.now) group below result }
{
    if heads.is_empty() {
        return None;
    }
    let mut past = begin(cells, heads, side, group, below);
    while past > 0 {
        let cell = cells[past - 1];
        if is_wanted(side, cell, group, past - 1, below) {
            return Some(past - 1);
        }
        past = link_at(side, cell);
    }
    None
}

// Where the walk begins: at the place that bounds it if that is in the chain, or else at the head.
#[inline(always)]
fn begin(cells: &[Cell], heads: &[u32], side: FactSide, group: FactGroup, below: usize) -> usize
    requires chained { AreCellsBy (head_at side) (link_at side) cells.now heads.now }
    requires some { 0 < length heads.now }
    ensures walked { IsWalked (head_of (length heads.now - 1)) (group_at side)
        (cell_facts cells.now) group below result }
    ensures within { result ≤ length cells.now }
{
    let mask = (heads.len() - 1) as u64;
    let at = head(group, mask);
    if below < cells.len() {
        let cell = cells[below];
        if head(group_at(side, cell.fact), mask) == at {
            return link_at(side, cell);
        }
    }
    heads[at] as usize
}
