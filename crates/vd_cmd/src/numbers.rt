//! Numbers of a command line.

ghost use Rattle.std.specs.Prelude.{◌≡◌, ◌≤◌, ◌^◌, IfSome};
ghost use Rattle.vd_cmd.specs.Numbers.{number_within, value_below};

use vd_base::{Text, is_numeral};

/// The value of a decimal number of at most 64 bits.
fn value(text: &[u8]) -> Option<u64>
    ensures { result ≡ value_below (2 ^ 64) text.now }
{
    if !is_numeral(text) {
        return None;
    }
    let mut value: u64 = 0;
    for digit in text {
        value = value
            .checked_mul(10)?
            .checked_add(u64::from(*digit - b'0'))?;
    }
    Some(value)
}

/// The number that a text is, if it is one from `least` to `most`.
pub(crate) fn number_within(least: u64, most: u64, text: &Text) -> Option<u64>
    ensures number { result ≡ number_within least most text.now }
    ensures within { IfSome result (λ n. (least ≤ n) × (n ≤ most)) }
{
    let number = value(text.as_str().as_bytes())?;
    if least <= number && number <= most {
        Some(number)
    } else {
        None
    }
}
