//! The operations on words, computed.

ghost use Rattle.std.specs.Prelude.{◌≡◌, ◌*◌, ◌/◌, ◌%◌, ◌^◌};
ghost use Rattle.vd_base.specs.Operations.{operation};

use crate::Op;

/// The word that an operation gives of these operands; it looks at no more of them than it takes.
pub fn combine(op: Op, x: u32, y: u32, z: u32) -> u32
    ensures { result ≡ operation op x y z }
{
    match op {
        Op::Add => x.wrapping_add(y),
        Op::Sub => x.wrapping_sub(y),
        Op::Mul => x.wrapping_mul(y),
        Op::Scale(factor) => x.wrapping_mul(factor),
        Op::Div => x.checked_div(y).unwrap_or(0),
        Op::Rem => x.checked_rem(y).unwrap_or(x),
        Op::And => x & y,
        Op::Or => x | y,
        Op::Xor => x ^ y,
        Op::Not => !x,
        Op::Flip => x ^ 1,
        Op::Shl(bits) => shift_left(x, bits),
        Op::Shr(bits) => shift_right(x, bits),
        Op::Eq => u32::from(x == y),
        Op::Ne => u32::from(x != y),
        Op::Lt => u32::from(x < y),
        Op::Le => u32::from(x <= y),
        Op::Min => x.min(y),
        Op::Max => x.max(y),
        Op::Mux => { if x % 2 == 1 { y } else { z } }
    }
}

fn shift_left(x: u32, bits: u32) -> u32
    ensures { result ≡ (x * 2 ^ bits) % 2 ^ 32 }
{
    if bits < u32::BITS { x << bits } else { 0 }
}

fn shift_right(x: u32, bits: u32) -> u32
    ensures { result ≡ x / 2 ^ bits }
{
    if bits < u32::BITS { x >> bits } else { 0 }
}
