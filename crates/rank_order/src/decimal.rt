//! The parts of a decimal number.

ghost use Rattle.std.specs.Prelude.{◌≡◌, ◌≤◌, ℕ, length};
ghost use Rattle.std.specs.List.{prefix_len};
ghost use Rattle.rank_order.specs.Decimal.{Sign, has_minus, is_digit, is_exponent_letter, fraction_digits};
ghost use Rattle.rank_order.specs.DecimalTexts.{front_digits, past_digits, fraction_in, past_fraction, are_digits, exponent_with, signed_in, exponent_in, decimal_of};
ghost use Rattle.rank_order.specs.Inside.Parts.{IsExponentText, IsDecimalText};

/// The digits of an exponent, and whether a minus stands before them. Without an exponent there are
/// no digits.
#[derive(Clone, Copy, Debug)]
pub struct ExponentText<'a> {
    pub lowers: bool,
    pub digits: &'a [u8],
}

/// The digits of a decimal number before its point and after it, and its exponent.
#[derive(Clone, Copy, Debug)]
pub struct DecimalText<'a> {
    pub whole: &'a [u8],
    pub fraction: &'a [u8],
    pub exponent: ExponentText<'a>,
}

fn is_digit(byte: u8) -> bool
    ensures { result ≡ is_digit byte }
{
    byte.is_ascii_digit()
}

fn is_exponent_letter(byte: u8) -> bool
    ensures { result ≡ is_exponent_letter byte }
{
    matches!(byte, b'e' | b'E')
}

fn are_digits(bytes: &[u8]) -> bool
    ensures { result ≡ are_digits bytes.now }
{
    bytes.iter().all(|byte| is_digit(*byte))
}

fn digits_len(text: &[u8]) -> usize
    ensures len { result ≡ prefix_len is_digit text.now }
    ensures within { result ≤ length text.now }
{
    text.iter().take_while(|byte| is_digit(**byte)).count()
}

// The longest front of digits, and the rest.
#[tactic(auto, using(crate::proofs::DigitLaws::take_front, crate::proofs::DigitLaws::drop_front))]
fn split_digits(text: &[u8]) -> (&[u8], &[u8])
    ensures front { result.0.now ≡ front_digits text.now }
    ensures rest { result.1.now ≡ past_digits text.now }
{
    text.split_at(digits_len(text))
}

// The digits after a point, if a point comes first, and the rest.
fn split_fraction(text: &[u8]) -> (&[u8], &[u8])
    ensures digits { result.0.now ≡ fraction_digits (fraction_in text.now) }
    ensures rest { result.1.now ≡ past_fraction text.now }
{
    let [first, rest @ ..] = text else {
        return (&[], text);
    };
    if *first == b'.' {
        split_digits(rest)
    } else {
        (&[], text)
    }
}

/// The decimal number that is the whole text.
pub fn read_decimal(text: &[u8]) -> Option<DecimalText<'_>>
    ensures { IsDecimalText (decimal_of text.now) result }
{
    let (whole, rest) = split_digits(text);
    let (fraction, rest) = split_fraction(rest);
    let Some(exponent) = read_exponent(rest) else {
        return None;
    };
    if whole.is_empty() && fraction.is_empty() {
        return None;
    }
    Some(DecimalText {
        whole,
        fraction,
        exponent,
    })
}

// The exponent that is the whole text, if it is one or the text is empty.
fn read_exponent(text: &[u8]) -> Option<ExponentText<'_>>
    ensures { IsExponentText (exponent_in text.now) result }
{
    let [first, rest @ ..] = text else {
        return Some(ExponentText {
            lowers: false,
            digits: text,
        });
    };
    if is_exponent_letter(*first) {
        read_signed(rest)
    } else {
        None
    }
}

fn read_signed(text: &[u8]) -> Option<ExponentText<'_>>
    ensures { (letter : ℕ) → IsExponentText (signed_in letter text.now) result }
{
    let [first, rest @ ..] = text else {
        return None;
    };
    match *first {
        b'+' => exponent_with(false, rest),
        b'-' => exponent_with(true, rest),
        _ => exponent_with(false, text),
    }
}

fn exponent_with(lowers: bool, digits: &[u8]) -> Option<ExponentText<'_>>
    ensures { (letter : ℕ) (sign : Sign) → lowers ≡ has_minus sign →
        IsExponentText (exponent_with letter sign digits.now) result }
{
    if digits.is_empty() || !are_digits(digits) {
        return None;
    }
    Some(ExponentText { lowers, digits })
}
