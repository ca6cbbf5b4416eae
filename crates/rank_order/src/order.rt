//! The order of rows by confidence.

ghost use Rattle.std.specs.Prelude.{◌≡◌, ◌↔◌, ◌<◌, ◌^◌, length, map, IfOk};
ghost use Rattle.std.specs.List.{range_with_len};
ghost use Rattle.std.specs.Ordering.{is_lt};
ghost use Rattle.rank_order.specs.Order.{IsBefore, is_before, key_at, IsRanking};

use crate::Confidence;
use crate::ranks::Ranks;
use std::alloc::{AllocError, Global};
use std::cmp::Ordering;

/// A row, by its number, with its confidence.
#[derive(Clone, Copy, Debug, PartialEq, Eq)]
pub struct RankKey {
    pub confidence: Confidence,
    pub row: u32,
}

/// Less if row `a` stands before row `b`: it has the greater confidence, or both have the same and
/// `a` is the earlier row (for the order see Meilicke 2011; the rule for ties is this project's).
pub fn compare(a: RankKey, b: RankKey) -> Ordering
    ensures before { (result ≡ Ordering.Less) ↔ IsBefore a b }
    ensures after { (result ≡ Ordering.Greater) ↔ IsBefore b a }
    ensures same { (result ≡ Ordering.Equal) ↔ (a ≡ b) }
    ensures test { is_lt result ≡ is_before a b }
{
    let by_confidence = b.confidence.units().cmp(&a.confidence.units());
    by_confidence.then(a.row.cmp(&b.row))
}

fn row_numbers(alloc: Global, count: u32) -> Result<Vec<u32>, AllocError>
    ensures { IfOk result (λ rows. rows.items ≡ range_with_len 0 count) }
{
    (0..count).collect(alloc)
}

fn key_at(confidences: &[Confidence], row: u32) -> RankKey
    ensures { result ≡ key_at confidences.now row }
{
    RankKey {
        confidence: confidences
            .get(row as usize)
            .copied()
            .unwrap_or(Confidence::from_units(0)),
        row,
    }
}

fn keys_of(
    alloc: Global,
    confidences: &[Confidence],
    rows: &[u32],
) -> Result<Vec<RankKey>, AllocError>
    ensures { IfOk result (λ keys. keys.items ≡ map (key_at confidences.now) rows.now) }
{
    rows.iter()
        .map(|row| key_at(confidences, *row))
        .collect(alloc)
}

fn rows_of(alloc: Global, keys: &[RankKey]) -> Result<Vec<u32>, AllocError>
    ensures { IfOk result (λ rows. rows.items ≡ map (λ key. key.row) keys.now) }
{
    keys.iter().map(|key| key.row).collect(alloc)
}

/// The row numbers in the order of their ranks: the greater confidence first, and at equal
/// confidence the earlier row. It sorts once, so the time grows as n log n.
pub fn rank(alloc: Global, confidences: &[Confidence]) -> Result<Ranks, AllocError>
    requires { length confidences.now < 2 ^ 31 }
    ensures { IfOk result (λ rows. IsRanking confidences.now rows) }
{
    let numbers = row_numbers(alloc, confidences.len() as u32)?;
    // The keys are sorted in place, which is faster than to look each up at each comparison.
    let mut keys = keys_of(alloc, confidences, numbers.as_slice())?;
    keys.sort_by(|a, b| compare(*a, *b))?;
    let rows = rows_of(alloc, keys.as_slice())?;
    Ok(Ranks::from_vec(rows))
}
