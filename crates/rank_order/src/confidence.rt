//! Exact confidences.

ghost use Rattle.std.specs.Prelude.{◌≡◌, ◌≤◌, ◌^◌, ℕ, IfSome, IfNone, ◌<◌};
ghost use Rattle.rank_order.specs.Decimal.{AreDigits, IsConfidence};
ghost use Rattle.rank_order.specs.Inside.Scale.{IsTooFine, IsShort, value_of, joined_number, IsScaledBy, AreScaledBy};

use crate::decimal::read_decimal;
use crate::number::{Number, scaled, small_number, with_digits};
use std::marker::Model;

/// How sure a mapping is, from 0 to 1, exact to 36 decimal places.
#[derive(Clone, Copy, Debug, PartialEq, Eq)]
pub struct Confidence {
    units: u128,
}

impl Model for Confidence {
    ghost use Rattle.std.specs.Prelude.{ℕ, ◌≤◌, ◌^◌};

    ghost Value = { ℕ };

    ghost view = { λ c. c.units };

    ghost invariant = { λ c. c.units ≤ 10 ^ 36 };

    ghost inverse = { λ units. record { units = units } };
}

impl Confidence {
    /// The confidence with this many units, of which 10^36 are 1.
    pub fn from_units(units: u128) -> Confidence
        requires { units ≤ 10 ^ 36 }
        ensures { result ≡ units }
    {
        Confidence { units }
    }

    /// The confidence that a text stands for: digits, perhaps with a point among them or at an end,
    /// and perhaps an exponent, as `0.85`, `.5`, `1.` or `5e-1`. None if the text has another
    /// form, or its value is above 1 or no whole number of units, of which 10^36 are 1.
    pub fn read(text: &[u8]) -> Option<Confidence>
        ensures read { IfSome result (IsConfidence text.now) }
        ensures refused { IfNone result ((units : ℕ) → IsConfidence text.now units → ⊥) }
    {
        let Some(decimal) = read_decimal(text) else {
            return None;
        };
        let exponent = decimal.exponent;
        match units_of(
            decimal.whole,
            decimal.fraction,
            exponent.lowers,
            exponent.digits,
        ) {
            Some(units) => Some(Confidence { units }),
            None => None,
        }
    }

    /// The whole number of units of 10^-36, from 0 to 10^36.
    pub fn units(&self) -> u128
        ensures units { result ≡ self.now }
        ensures most { result ≤ 10 ^ 36 }
    {
        self.units
    }
}

// The units of a number with these digits before the point, after it and in its exponent.
fn units_of(whole: &[u8], fraction: &[u8], lowers: bool, exponent: &[u8]) -> Option<u128>
    requires whole { AreDigits whole.now }
    requires fraction { AreDigits fraction.now }
    requires exponent { AreDigits exponent.now }
    ensures units { IfSome result (AreScaledBy whole.now fraction.now lowers exponent.now) }
    ensures none { IfNone result ((units : ℕ) →
        AreScaledBy whole.now fraction.now lowers exponent.now units → ⊥) }
{
    match digits_of(whole, fraction) {
        Some(number) => by_exponent(number, fraction.len(), lowers, exponent),
        None => None,
    }
}

// The number whose digits stand in two rows.
fn digits_of(whole: &[u8], fraction: &[u8]) -> Option<Number>
    requires whole { AreDigits whole.now }
    requires fraction { AreDigits fraction.now }
    ensures value { IfSome result (λ n. value_of n ≡ joined_number whole.now fraction.now) }
    ensures short { IfSome result IsShort }
    ensures zeros { IfSome result (λ n. n.zeros < 2 ^ 64) }
    ensures fine { IfNone result (IsTooFine (joined_number whole.now fraction.now)) }
{
    let nothing = Number {
        significant: 0,
        zeros: 0,
    };
    match with_digits(nothing, whole) {
        Some(number) => with_digits(number, fraction),
        None => None,
    }
}

// The units of a number with this number of digits after the point.
fn by_exponent(number: Number, places: usize, lowers: bool, exponent: &[u8]) -> Option<u128>
    requires short { IsShort number }
    requires zeros { number.zeros < 2 ^ 64 }
    requires places { places < 2 ^ 63 }
    requires exponent { AreDigits exponent.now }
    ensures units { IfSome result (IsScaledBy (value_of number) places lowers exponent.now) }
    ensures none { IfNone result ((units : ℕ) →
        IsScaledBy (value_of number) places lowers exponent.now units → ⊥) }
{
    let Some(size) = small_number(exponent) else {
        return if number.significant == 0 {
            Some(0)
        } else {
            None
        };
    };
    if lowers {
        scaled(number, 36, places as u128 + size)
    } else {
        scaled(number, 36 + size, places as u128)
    }
}
