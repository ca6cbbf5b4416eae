//! Cases that are made from texts, and derivations over them.

ghost use Rattle.std.specs.Prelude.{IsTrue};
ghost use Rattle.case_file.specs.Cases.{AreRanksOf};

use case_file::Case;
use case_load::{LoadFault, Loaded, assemble};
use derivation::{BadStep, Derivation, Step, check_derivation};
use el_logic::Part;
use fact_table::{Fact, Rule, Source};
use ofn_axiom::Mode;
use std::alloc::{AllocError, Global};
use std::test::Fail;
use text_names::Limits;

pub(crate) const HEADER: &str = "#curie_map:\n#  l: http://l/\n#  r: http://r/\n\
subject_id\tpredicate_id\tobject_id\tconfidence\n";

pub(crate) fn made(alloc: Global, left: &str, right: &str, map: &str) -> Result<Loaded, LoadFault> {
    let limits = Limits::standard();
    let left = left.as_bytes();
    let right = right.as_bytes();
    let map = map.as_bytes();
    if left.len() >= 0x8000_0000 || right.len() >= 0x8000_0000 || map.len() >= 0x8000_0000 {
        return Err(LoadFault::OutOfMemory);
    }
    if limits.depth > 256 {
        return Err(LoadFault::OutOfMemory);
    }
    assemble(alloc, left, right, map, Mode::Strict, &limits)
}

// The ranks ascend and are those of rows.
pub(crate) fn are_ranks(case: &Case, ranks: &[u32]) -> bool
    ensures { IsTrue result → AreRanksOf case.now ranks.now }
{
    let mut least = 0;
    for rank in ranks {
        if u64::from(*rank) < least || *rank >= case.ranks() {
            return false;
        }
        least = u64::from(*rank) + 1;
    }
    true
}

/// A step as the tables have it: its fact, its rule, its premises and its source.
pub(crate) type Line = (Fact, Rule, usize, usize, Source);

pub(crate) fn steps(alloc: Global, lines: &[Line]) -> Result<Derivation, AllocError> {
    let mut derivation = Derivation::new(alloc);
    for line in lines {
        derivation.push(Step {
            first: line.2,
            second: line.3,
            fact: line.0,
            source: line.4,
            rule: line.1,
        })?;
    }
    Ok(derivation)
}

pub(crate) fn checked(
    alloc: Global,
    case: &Case,
    part: Part,
    ranks: &[u32],
    lines: &[Line],
) -> Result<Result<(), BadStep>, Fail> {
    let derivation = steps(alloc, lines)?;
    if !are_ranks(case, ranks) {
        return Err("no ranks of this case".into());
    }
    Ok(check_derivation(case, &derivation, part, ranks))
}
