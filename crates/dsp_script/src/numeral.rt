//! Numerals.

ghost use Rattle.std.specs.Prelude.{◌≡◌, ℕ, pos, ◌<◌, ◌≤◌, ◌^◌, true, length, IfSome};
ghost use Rattle.std.specs.List.{list_all};
ghost use Rattle.std.specs.Char.{is_ascii_digit};
ghost use Rattle.std.specs.Str.Parse.{digits_value};
ghost use Rattle.dsp_defs.specs.Numeral.{natural_of, value_of};

/// The value of up to 20 digits.
fn digits_value(digits: &[u8]) -> u128
    requires digits { list_all is_ascii_digit digits.now ≡ true }
    requires short { length digits.now ≤ 20 }
    ensures value { result ≡ digits_value 10 digits.now }
    ensures bound { result < 10 ^ 20 }
{
    let mut value = 0;
    for digit in digits {
        value = value * 10 + u128::from(*digit - b'0');
    }
    value
}

fn all_digits(run: &[u8]) -> bool
    ensures { result ≡ list_all is_ascii_digit run.now }
{
    run.iter().all(|byte| byte.is_ascii_digit())
}

/// The value of 1 to 20 digits.
fn natural(digits: &[u8]) -> Option<u128>
    ensures value { result ≡ natural_of digits.now }
    ensures bound { IfSome result (λ n. n < 10 ^ 20) }
{
    if !digits.is_empty() && digits.len() <= 20 && all_digits(digits) {
        Some(digits_value(digits))
    } else {
        None
    }
}

/// The value of a numeral.
#[tactic(auto, unfolding(dsp_defs::specs::Numeral::value_of))]
pub fn value(run: &[u8]) -> Option<i128>
    ensures { result ≡ value_of run.now }
{
    match run {
        [b'-', digits @ ..] => match natural(digits) {
            Some(value) => Some(-(value as i128)),
            None => None,
        },
        digits => match natural(digits) {
            Some(value) => Some(value as i128),
            None => None,
        },
    }
}
