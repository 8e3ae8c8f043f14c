//! Bytes as hexadecimal digits.

ghost use Rattle.std.specs.Prelude.{◌≡◌, ◌<◌, ◌++◌, OnOk, IfOk};
ghost use Rattle.vd_base_codec.specs.Reading.{Gives};
ghost use Rattle.vd_base_codec.specs.Digits as digits;

use crate::{Cursor, Stopped};
use std::alloc::AllocError;
use vd_base::Bytes;

/// What a hexadecimal digit stands for.
fn hex_value(byte: u8) -> Option<u8>
    ensures { result ≡ digits.hex_value byte }
{
    match byte {
        b'0'..=b'9' => Some(byte - b'0'),
        b'a'..=b'f' => Some(byte - b'a' + 10),
        _ => None,
    }
}

/// Takes a hexadecimal digit.
#[tactic(auto, using(crate::proofs::KeySteps::digit_none, crate::proofs::KeySteps::digit_other, crate::proofs::KeySteps::digit_found, crate::proofs::KeySteps::digit_there))]
fn read_digit(cursor: &mut Cursor) -> Result<u8, Stopped>
    ensures digit { Gives result cursor.new (digits.digit_at cursor.old) }
    ensures small { IfOk result (λ digit. digit < 16) }
{
    let Some(byte) = cursor.first() else {
        return Err(Stopped);
    };
    let Some(digit) = hex_value(byte) else {
        return Err(Stopped);
    };
    cursor.skip(1);
    Ok(digit)
}

/// Takes a byte, as two hexadecimal digits.
#[tactic(auto, unfolding(crate::specs::Digits::hex_at))]
fn read_hex(cursor: &mut Cursor) -> Result<u8, Stopped>
    ensures { Gives result cursor.new (digits.hex_at cursor.old) }
{
    let high = read_digit(cursor)?;
    let low = read_digit(cursor)?;
    Ok(high * 16 + low)
}

/// Takes 32 bytes, as 64 hexadecimal digits.
pub fn read_key(cursor: &mut Cursor) -> Result<[u8; 32], Stopped>
    ensures { Gives result cursor.new (digits.key_at cursor.old) }
{
    let mut bytes = [0; 32];
    for place in 0..32 {
        bytes[place] = read_hex(cursor)?;
    }
    Ok(bytes)
}

/// A hexadecimal digit.
fn hex_digit(digit: u8) -> u8
    requires { digit < 16 }
    ensures { result ≡ digits.hex_digit digit }
{
    if digit < 10 {
        b'0' + digit
    } else {
        b'a' - 10 + digit
    }
}

/// Puts two hexadecimal digits at the end.
#[tactic(auto, unfolding(crate::specs::Digits::hex_byte))]
fn push_hex(bytes: &mut Bytes, byte: u8) -> Result<(), AllocError>
    ensures { OnOk result (bytes.new ≡ bytes.old ++ digits.hex_byte byte) }
{
    bytes.push(hex_digit(byte / 16))?;
    bytes.push(hex_digit(byte % 16))
}

/// Puts bytes at the end, as hexadecimal digits.
pub fn push_key(bytes: &mut Bytes, key: &[u8]) -> Result<(), AllocError>
    ensures { OnOk result (bytes.new ≡ bytes.old ++ digits.key_text key.now) }
{
    for byte in key {
        push_hex(bytes, *byte)?;
    }
    Ok(())
}
