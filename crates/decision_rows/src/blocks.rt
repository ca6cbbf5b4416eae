//! Several ranks that are tested at once.

ghost use Rattle.std.specs.Prelude.{IsTrue, All, ◌<◌};
ghost use Rattle.std.specs.List.Sorted.{IsStrictlyIncreasing};

use crate::kept::{CHAINED, LED, first};
use closed_model::ClosedTable;
use saturate::{Verdict, test_block};
use std::alloc::Global;
use std::test::Fail;

fn are_ascending(ranks: &[u32]) -> bool
    ensures { IsTrue result → IsStrictlyIncreasing ranks.now }
{
    for next in 1..ranks.len() {
        if ranks[next - 1] >= ranks[next] {
            return false;
        }
    }
    true
}

fn are_below(ranks: &[u32], count: u32) -> bool
    ensures { IsTrue result → All (λ rank. rank < count) ranks.now }
{
    ranks.iter().all(|rank| *rank < count)
}

fn are_above(ranks: &[u32], least: u32) -> bool
    ensures { IsTrue result → All (λ rank. least < rank) ranks.now }
{
    ranks.iter().all(|rank| least < *rank)
}

// Each of these ranks comes after each of the earlier ones.
fn follow(earlier: &[u32], ranks: &[u32]) -> bool
    ensures { IsTrue result → All (λ old. All (λ rank. old < rank) ranks.now) earlier.now }
{
    for old in earlier {
        if !are_above(ranks, *old) {
            return false;
        }
    }
    true
}

// The verdict on these ranks together, after those of a table.
fn tested(alloc: Global, table: &ClosedTable, ranks: &[u32]) -> Result<Verdict, Fail> {
    if !are_ascending(ranks) || !are_below(ranks, table.case().ranks()) {
        return Err("no ascending ranks of the case".into());
    }
    if !follow(table.ranks(), ranks) {
        return Err("ranks that don't follow".into());
    }
    Ok(test_block(alloc, table, ranks)?)
}

// Ranks that are tested first, ranks that are tested after these, and the ranks of the table then:
// none, if they can't be added.
type Block = (&'static [u32], &'static [u32], Option<&'static [u32]>);

const APART: &str = "DisjointClasses(:A :B) DisjointClasses(:B :C)";

const ABOVE_X: &str = "r:X\tskos:broadMatch\tl:A\t0.9
r:X\tskos:broadMatch\tl:B\t0.8
r:X\tskos:broadMatch\tl:C\t0.7
r:X\tskos:closeMatch\tl:C\t0.6
";

// The second row can't be kept with the first or the third.
static IN_PAIRS: [Block; 12] = [
    (&[], &[], Some(&[])),
    (&[], &[1], Some(&[1])),
    (&[], &[0, 2], Some(&[0, 2])),
    (&[], &[0, 2, 3], Some(&[0, 2, 3])),
    (&[], &[0, 1], None),
    (&[], &[0, 1, 3], None),
    (&[], &[0, 1, 2, 3], None),
    (&[0], &[], Some(&[0])),
    (&[0], &[2, 3], Some(&[0, 2, 3])),
    (&[0], &[1, 3], None),
    (&[1], &[2], None),
    (&[1], &[3], Some(&[1, 3])),
];

const IN_CHAIN: &str = "l:B\tskos:broadMatch\tr:X\t0.9
r:u\trdfs:subPropertyOf\tl:s\t0.8
r:Y\tskos:broadMatch\tl:C\t0.7
";

// Any two of the three rows can be kept.
static IN_THREES: [Block; 6] = [
    (&[], &[0, 1], Some(&[0, 1])),
    (&[], &[1, 2], Some(&[1, 2])),
    (&[], &[0, 1, 2], None),
    (&[0], &[1, 2], None),
    (&[0, 1], &[2], None),
    (&[1], &[2], Some(&[1, 2])),
];

// Whether the ranks of the table are the wanted ones.
fn is_answered(alloc: Global, table: &ClosedTable, block: &Block) -> Result<bool, Fail> {
    let (earlier, ranks, wanted) = *block;
    let Verdict::Yes(snapshot) = tested(alloc, table, earlier)? else {
        return Err("ranks that can't be added".into());
    };
    Ok(match tested(alloc, &snapshot, ranks)? {
        Verdict::Yes(later) => wanted == Some(later.ranks()),
        Verdict::No(derivation) => wanted.is_none() && !derivation.is_empty(),
    })
}

#[test]
fn ranks_are_added_together(rt: HostRuntime) -> Result<(), Fail> {
    let alloc = rt.alloc();
    let in_pairs = first(alloc, APART, "Declaration(Class(:X))", ABOVE_X)?;
    for block in &IN_PAIRS {
        let answered = is_answered(alloc, &in_pairs, block)?;
        assert!(rt; answered, "in pairs: {:?} {:?}", block.0, block.1);
    }
    let in_threes = first(alloc, CHAINED, LED, IN_CHAIN)?;
    for block in &IN_THREES {
        let answered = is_answered(alloc, &in_threes, block)?;
        assert!(rt; answered, "in threes: {:?} {:?}", block.0, block.1);
    }
    Ok(())
}
