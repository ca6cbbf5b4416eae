//! Confidences and ranks of small tables.

use crate::{Confidence, RankKey, compare, rank};
use std::alloc::{AllocError, Global};
use std::cmp::Ordering;
use std::test::Fail;

const ONE: u128 = 1_000_000_000_000_000_000_000_000_000_000_000_000;

fn units_of(text: &[u8]) -> Option<u128> {
    match Confidence::read(text) {
        Some(confidence) => Some(confidence.units()),
        None => None,
    }
}

#[test]
fn reads_what_is_a_whole_number_of_units(rt: HostRuntime) -> Result<(), Fail> {
    let rows = [
        ("1e-36", Some(1)),
        ("10e-1", Some(ONE)),
        (".5", Some(ONE / 2)),
        ("0.500", Some(ONE / 2)),
        ("0e-99", Some(0)),
        ("0", Some(0)),
        ("1", Some(ONE)),
        ("1.", Some(ONE)),
        ("1e+0", Some(ONE)),
        ("5E-1", Some(ONE / 2)),
        ("0.05e01", Some(ONE / 2)),
        ("00000000000000000000000000000000000000000001", Some(ONE)),
        ("0.000000000000000000000000000000000001", Some(1)),
        ("0.0000000000000000000000000000000000010", Some(1)),
        (
            "0.999999999999999999999999999999999999",
            Some(999_999_999_999_999_999_999_999_999_999_999_999),
        ),
        (
            "123456789012345678901234567890123456e-36",
            Some(123_456_789_012_345_678_901_234_567_890_123_456),
        ),
        ("0e123456789012345678901234567890", Some(0)),
        ("1e-000000000000000000000000000000001", Some(ONE / 10)),
        ("1e-37", None),
        ("1.01", None),
        ("+0.5", None),
        ("nan", None),
        ("e5", None),
        ("", None),
        (".", None),
        (".e1", None),
        ("0e", None),
        ("0e+", None),
        ("0e1.", None),
        ("0.5.", None),
        ("0.5 ", None),
        ("-0", None),
        ("2", None),
        ("0.0000000000000000000000000000000000001", None),
        ("1.000000000000000000000000000000000001", None),
        ("340282366920938463463374607431768211456", None),
        ("1e123456789012345678901234567890", None),
        ("1e-123456789012345678901234567890", None),
    ];
    for (text, units) in rows {
        assert_eq!(rt; units_of(text.as_bytes()), units, "{text}");
    }
    Ok(())
}

// A point, this number of zeros, a one, and an exponent that takes the zeros back.
fn small_one(alloc: Global, zeros: usize) -> Result<String, AllocError> {
    let mut text = String::from_str(alloc, ".")?;
    for _ in 0..zeros {
        text.push_str("0")?;
    }
    text.push_str("1e10000")?;
    Ok(text)
}

#[test]
fn reads_long_texts(rt: HostRuntime) -> Result<(), Fail> {
    for (zeros, units) in [
        (9_998, None),
        (9_999, Some(ONE)),
        (10_035, Some(1)),
        (10_036, None),
    ] {
        let text = small_one(rt.alloc(), zeros)?;
        assert_eq!(rt; units_of(text.as_str().as_bytes()), units, "{zeros}");
    }
    Ok(())
}

// The confidences that these texts stand for.
fn confidences(alloc: Global, texts: &[&str]) -> Result<Vec<Confidence>, AllocError> {
    let mut confidences = Vec::new(alloc);
    for text in texts {
        match Confidence::read(text.as_bytes()) {
            Some(confidence) => confidences.push(confidence)?,
            None => {}
        }
    }
    Ok(confidences)
}

#[test]
fn ranks_the_greater_confidence_first(rt: HostRuntime) -> Result<(), Fail> {
    for (texts, rows) in [
        (["0.9", "0.8", "0.7"], [0, 1, 2]),
        (["0.850", "0.85", "85e-2"], [0, 1, 2]),
        (["0.8", "0.9", "0.80"], [1, 0, 2]),
        (["0.7", ".70", "1"], [2, 0, 1]),
        (["1e-36", "0", "2e-36"], [2, 0, 1]),
    ] {
        let confidences = confidences(rt.alloc(), texts.as_slice())?;
        assert_eq!(rt; confidences.len(), 3);
        let ranks = rank(rt.alloc(), confidences.as_slice())?;
        assert_eq!(rt; ranks.as_slice(), rows.as_slice());
    }
    Ok(())
}

#[test]
fn compares_ties_by_row(rt: HostRuntime) -> Result<(), Fail> {
    let half = Confidence::read(b"0.5").ok_or("0.5")?;
    let less = Confidence::read(b"0.49").ok_or("0.49")?;
    for (confidence, row, wanted) in [
        (half, 1, Ordering::Less),
        (half, 3, Ordering::Greater),
        (half, 2, Ordering::Equal),
        (less, 1, Ordering::Greater),
    ] {
        let key = RankKey { confidence, row };
        let other = RankKey {
            confidence: half,
            row: 2,
        };
        assert_eq!(rt; compare(key, other), wanted);
    }
    Ok(())
}
