//! The word that a cell comes to.

ghost use Rattle.std.specs.Prelude.{◌≡◌, ◌≤◌, IfSome, length};
ghost use Rattle.std.specs.List.{prefix_len};
ghost use Rattle.vd_base.specs.Lexical.{is_digit};
ghost use Rattle.vd_cmd_data.specs.Cells as cells;

use vd_base::{digits_len, number};
use vd_cmd_plan::TableFault;

/// How many zeros digits begin with.
#[tactic(auto, using(crate::proofs::Places::zeros_fit))]
fn zeros_len(digits: &[u8]) -> usize
    ensures is { result ≡ prefix_len cells.is_zero digits.now }
    ensures fits { result ≤ length digits.now }
{
    digits.iter().take_while(|byte| **byte == b'0').count()
}

/// The number that digits write, zeros at their front included, if it is a word.
#[tactic(auto, using(crate::proofs::Places::behind_is))]
fn value_in(digits: &[u8]) -> Option<u32>
    ensures { result ≡ cells.value_in digits.now }
{
    let zeros = zeros_len(digits);
    if zeros == digits.len() {
        Some(0)
    } else {
        number(&digits[zeros..])
    }
}

/// The power of ten for so many decimals, which are at most nine.
fn power_of_ten(decimals: usize) -> Option<u64>
    ensures power { result ≡ cells.power_of_ten decimals }
    ensures bounds { IfSome result (λ power. (1 ≤ power) × (power ≤ 1000000000)) }
{
    match decimals {
        0 => Some(1),
        1 => Some(10),
        2 => Some(100),
        3 => Some(1_000),
        4 => Some(10_000),
        5 => Some(100_000),
        6 => Some(1_000_000),
        7 => Some(10_000_000),
        8 => Some(100_000_000),
        9 => Some(1_000_000_000),
        _ => None,
    }
}

/// The value over the scale, times the factor, where that is whole and a word.
fn scaled(factor: u32, value: u64, scale: u64) -> Result<u32, TableFault>
    requires { 1 ≤ scale }
    ensures { result ≡ cells.scaled factor value scale }
{
    if value > u64::from(u32::MAX) {
        return Err(TableFault::Large);
    }
    let product = value * u64::from(factor);
    if product % scale != 0 {
        return Err(TableFault::Fraction);
    }
    let word = product / scale;
    if word > u64::from(u32::MAX) {
        return Err(TableFault::Large);
    }
    Ok(word as u32)
}

/// The same of a whole part and decimals, where both are words and there are not too many decimals.
fn scaled_by(
    factor: u32,
    whole: Option<u32>,
    decimals: Option<u32>,
    scale: Option<u64>,
) -> Result<u32, TableFault>
    requires { IfSome scale (λ power. (1 ≤ power) × (power ≤ 1000000000)) }
    ensures { result ≡ cells.scaled_by factor whole decimals scale }
{
    match (whole, decimals, scale) {
        (Some(whole), Some(decimals), Some(scale)) => {
            let value = u64::from(whole) * scale + u64::from(decimals);
            scaled(factor, value, scale)
        }
        _ => Err(TableFault::Large),
    }
}

/// Whether there are some digits, and nothing else.
fn are_digits(bytes: &[u8]) -> bool
    ensures { result ≡ cells.are_digits bytes.now }
{
    let digits = digits_len(bytes);
    digits > 0 && digits == bytes.len()
}

/// How many digits bytes begin with.
#[tactic(auto, using(crate::proofs::Places::digits_fit))]
fn whole_len(bytes: &[u8]) -> usize
    ensures is { result ≡ prefix_len is_digit bytes.now }
    ensures fits { result ≤ length bytes.now }
{
    digits_len(bytes)
}

/// The word of digits, and of what stands behind them.
fn number_word(factor: u32, whole: &[u8], behind: &[u8]) -> Result<u32, TableFault>
    ensures { result ≡ cells.number_word factor whole.now behind.now }
{
    match behind {
        [] => scaled_by(factor, value_in(whole), Some(0), Some(1)),
        [point, decimals @ ..] => {
            if *point == b'.' && are_digits(decimals) {
                let scale = power_of_ten(decimals.len());
                scaled_by(factor, value_in(whole), value_in(decimals), scale)
            } else {
                Err(TableFault::NoNumber)
            }
        }
    }
}

/// The word of a cell that is not empty and has no sign.
#[tactic(auto, using(crate::proofs::Places::behind_is))]
fn unsigned_word(factor: u32, cell: &[u8]) -> Result<u32, TableFault>
    ensures { result ≡ cells.unsigned_word factor cell.now }
{
    let whole = whole_len(cell);
    if whole == 0 {
        return Err(TableFault::NoNumber);
    }
    number_word(factor, &cell[..whole], &cell[whole..])
}

/// The word that a cell comes to, times a factor: a decimal number without a sign, which the factor makes whole.
pub(crate) fn cell_word(factor: u32, cell: &[u8]) -> Result<u32, TableFault>
    ensures { result ≡ cells.cell_word factor cell.now }
{
    match cell {
        [] => Err(TableFault::Empty),
        [first, ..] => {
            if *first == b'+' || *first == b'-' {
                Err(TableFault::Sign)
            } else {
                unsigned_word(factor, cell)
            }
        }
    }
}
