//! Numbers of one to nine digits.
ghost use Rattle.std.specs.Prelude.{◌≡◌, ◌<◌, ◌^◌};
ghost use Rattle.command_words.specs.Words.{number_up_to};
ghost use Rattle.command_words.specs.Inside.Numbers.{digits_after};

// The number that the digits write after these, unless it is greater than `most`.
fn digits_number(most: u32, digits: &[u8]) -> Option<u32>
    requires { most < 2 ^ 20 }
    ensures { result ≡ digits_after most 0 digits.now }
{
    let mut number = 0u32;
    for digit in digits {
        if !digit.is_ascii_digit() {
            return None;
        }
        number = number * 10 + u32::from(*digit - b'0');
        if number > most {
            return None;
        }
    }
    Some(number)
}

#[tactic(auto, using(crate::proofs::NumberLaws::long_is_none, crate::proofs::NumberLaws::none_is_none, crate::proofs::NumberLaws::zero_is_none, crate::proofs::NumberLaws::some_is_some))]
/// The number from 1 to `most` that one to nine digits write.
pub fn number_up_to(most: u32, text: &[u8]) -> Option<u32>
    requires { most < 2 ^ 20 }
    ensures { result ≡ number_up_to most text.now }
{
    if text.len() > 9 {
        return None;
    }
    let Some(number) = digits_number(most, text) else {
        return None;
    };
    if number == 0 {
        return None;
    }
    Some(number)
}
