//! Whole numbers of any length, by their significant digits.

ghost use Rattle.std.specs.Prelude.{◌≡◌, ◌≤◌, ◌<◌, ◌+◌, ◌-◌, ◌*◌, ◌^◌, ℕ, true, length, SomeIff, IfSome, IfNone};
ghost use Rattle.rank_order.specs.Decimal.{AreDigits, is_digit, digits_value};
ghost use Rattle.rank_order.specs.Inside.Scale.{IsScaled, IsTooFine, IsShort, value_of};

/// As many units as a confidence may have.
pub const MOST_UNITS: u128 = 1_000_000_000_000_000_000_000_000_000_000_000_000;

const SMALL_BOUND: u128 = 100_000_000_000_000_000_000;

/// The number whose digits are those of `significant` and as many zeros.
#[derive(Clone, Copy, Debug)]
pub struct Number {
    pub significant: u128,
    pub zeros: u64,
}

// The number with more zeros, if that is not too large.
fn with_zeros(number: u128, zeros: u128) -> Option<u128>
    requires { number ≤ 10 ^ 36 }
    ensures { SomeIff result (number * 10 ^ zeros ≤ 10 ^ 36) (number * 10 ^ zeros) }
{
    if number == 0 {
        return Some(0);
    }
    if zeros > 36 {
        return None;
    }
    match number.checked_mul(10u128.pow(zeros as u32)) {
        Some(product) if product <= MOST_UNITS => Some(product),
        _ => None,
    }
}

// The number with one more digit.
fn with_digit(number: Number, digit: u8) -> Option<Number>
    requires short { IsShort number }
    requires digit { is_digit digit ≡ true }
    requires zeros { number.zeros + 1 < 2 ^ 64 }
    ensures value { IfSome result (λ n. value_of n ≡ 10 * value_of number + (digit - 48)) }
    ensures short { IfSome result IsShort }
    ensures zeros { IfSome result (λ n. n.zeros ≤ number.zeros + 1) }
    ensures fine { IfNone result (IsTooFine (10 * value_of number + (digit - 48))) }
{
    let zeros = number.zeros + 1;
    if digit == b'0' {
        return Some(Number {
            significant: number.significant,
            zeros,
        });
    }
    let Some(shifted) = with_zeros(number.significant, zeros as u128) else {
        return None;
    };
    let significant = shifted + (digit - b'0') as u128;
    if significant > MOST_UNITS {
        return None;
    }
    Some(Number {
        significant,
        zeros: 0,
    })
}

/// The number with more digits, or none if more than 36 digits are significant and no power of ten
/// makes units of it.
pub fn with_digits(number: Number, digits: &[u8]) -> Option<Number>
    requires short { IsShort number }
    requires digits { AreDigits digits.now }
    requires zeros { number.zeros + length digits.now < 2 ^ 64 }
    ensures value { IfSome result (λ n.
        value_of n ≡ value_of number * 10 ^ length digits.now + digits_value digits.now) }
    ensures short { IfSome result IsShort }
    ensures zeros { IfSome result (λ n. n.zeros ≤ number.zeros + length digits.now) }
    ensures fine { IfNone result
        (IsTooFine (value_of number * 10 ^ length digits.now + digits_value digits.now)) }
{
    let mut whole = number;
    for digit in digits {
        let Some(more) = with_digit(whole, *digit) else {
            return None;
        };
        whole = more;
    }
    Some(whole)
}

/// The units of which this number with `up` more zeros has as many as `down` zeros after them.
pub fn scaled(number: Number, up: u128, down: u128) -> Option<u128>
    requires short { IsShort number }
    requires up { up < 2 ^ 127 }
    ensures units { IfSome result (IsScaled (value_of number) up down) }
    ensures none { IfNone result ((units : ℕ) → IsScaled (value_of number) up down units → ⊥) }
{
    if number.significant == 0 {
        return Some(0);
    }
    match (number.zeros as u128 + up).checked_sub(down) {
        Some(zeros) => with_zeros(number.significant, zeros),
        // A digit that is not 0 stands after the last place of the units.
        None => None,
    }
}

/// The number that digits stand for, if it is below 10^20.
pub fn small_number(digits: &[u8]) -> Option<u128>
    requires { AreDigits digits.now }
    ensures { SomeIff result (digits_value digits.now < 10 ^ 20) (digits_value digits.now) }
{
    let mut number = 0u128;
    for digit in digits {
        number = number * 10 + (*digit - b'0') as u128;
        if number >= SMALL_BOUND {
            return None;
        }
    }
    Some(number)
}
