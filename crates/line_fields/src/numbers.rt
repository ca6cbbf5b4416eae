//! Numbers in decimal without leading zeros.

ghost use Rattle.std.specs.Prelude.{◌≡◌, ◌^◌};
ghost use Rattle.line_fields.specs.Numbers.{digits_from, after_zero, long_number, short_number};

fn digits(field: &[u8]) -> Option<u64>
    ensures { result ≡ digits_from (2 ^ 64) 0 field.now }
{
    let mut number = 0u64;
    for byte in field {
        if !byte.is_ascii_digit() {
            return None;
        }
        let Some(shifted) = number.checked_mul(10) else {
            return None;
        };
        let Some(next) = shifted.checked_add(u64::from(*byte - b'0')) else {
            return None;
        };
        number = next;
    }
    Some(number)
}

/// The number of 64 bits that a field is.
pub fn long_number(field: &[u8]) -> Option<u64>
    ensures { result ≡ long_number field.now }
{
    match field {
        [] => None,
        [b'0'] => Some(0),
        [b'0', ..] => None,
        _ => digits(field),
    }
}

/// The number of 32 bits that a field is.
pub fn short_number(field: &[u8]) -> Option<u32>
    ensures { result ≡ short_number field.now }
{
    let Some(number) = long_number(field) else {
        return None;
    };
    if number <= u64::from(u32::MAX) {
        Some(number as u32)
    } else {
        None
    }
}
