//! The digits of a number.
ghost use Rattle.std.specs.Prelude.{◌≡◌, ◌<◌, ◌^◌, true};
ghost use Rattle.std.specs.Option.{SomeIff};
ghost use Rattle.std.specs.Str.Parse.{AllDigits, digits_value};
ghost use Rattle.sim_io.specs.Words.{is_decimal};
ghost use Rattle.run_save.specs.Rests.{digit_count};

use sim_io::is_decimal;

/// How many digits stand at the front.
pub(crate) fn digit_count(bytes: &[u8]) -> usize
    ensures { result ≡ digit_count bytes.now }
{
    for (i, byte) in bytes.iter().enumerate() {
        if !byte.is_ascii_digit() {
            return i;
        }
    }
    bytes.len()
}

/// The value of digits, where 64 bits hold it.
fn value_of(digits: &[u8]) -> Option<u64>
    requires { AllDigits 10 digits.now }
    ensures { SomeIff result (digits_value 10 digits.now < 2 ^ 64) (digits_value 10 digits.now) }
{
    let mut value = 0u64;
    for digit in digits {
        let next = u64::from(*digit - b'0');
        value = value.checked_mul(10)?.checked_add(next)?;
    }
    Some(value)
}

/// The number that digits write, where they are written as numbers are and 64 bits hold it.
pub(crate) fn decimal_value(digits: &[u8]) -> Option<u64>
    requires { AllDigits 10 digits.now }
    ensures { SomeIff result ((is_decimal digits.now ≡ true) × (digits_value 10 digits.now < 2 ^ 64)) (digits_value 10 digits.now) }
{
    if !is_decimal(digits) {
        return None;
    }
    value_of(digits)
}
