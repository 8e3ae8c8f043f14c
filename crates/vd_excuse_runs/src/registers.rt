//! The registers of a host: a list of words that grows as it is written. A register past its end holds 0.

ghost use Rattle.std.specs.Prelude.{◌≡◌, ◌<◌, OnOk, slice_index, slice_set};
ghost use Rattle.vd_execution.specs.Registers.{digest_of, words_from};
ghost use Rattle.vd_semantics.specs.Stores.{put};
ghost use Rattle.vd_excuse_runs.specs.Registers.{cell_of, cleared, put_each, put_from};

use std::alloc::AllocError;
use vd_base::Words;
use vd_execution::Reg;
use vd_machine::digest;

/// The word of a register.
pub(crate) fn read(registers: &Words, register: usize) -> u32
    ensures { result ≡ slice_index registers.now register }
{
    registers.as_slice().get(register).copied().unwrap_or(0)
}

/// The cell of an array, which is so many registers from one on; 0 past its end.
pub(crate) fn cell(registers: &Words, array: u32, count: u32, at: u32) -> u32
    ensures { result ≡ cell_of registers.now array count at }
{
    if at < count {
        read(registers, array as usize + at as usize)
    } else {
        0
    }
}

/// The digest of eight registers' words and one more's.
pub(crate) fn hashed(registers: &Words, nonce: u32, value: u32) -> [u32; 8]
    ensures { result ≡ digest_of (words_from (slice_index registers.now) nonce 8) (slice_index registers.now value) }
{
    digest(registers.as_slice(), nonce, value)
}

/// A register gets a word.
pub(crate) fn write(registers: &mut Words, register: usize, word: u32) -> Result<(), AllocError>
    ensures { OnOk result (registers.new ≡ put 0 registers.old register word) }
{
    while registers.as_slice().len() <= register {
        registers.push(0)?;
    }
    registers.set(register, word);
    Ok(())
}

/// Registers in turn get words; where one list is longer, its rest is left out.
pub(crate) fn write_each(
    registers: &mut Words,
    into: &[Reg],
    words: &[u32],
) -> Result<(), AllocError>
    ensures { OnOk result (registers.new ≡ put_each registers.old into.now words.now) }
{
    let mut i = 0;
    while i < into.len() && i < words.len() {
        write(registers, into[i].0 as usize, words[i])?;
        i += 1;
    }
    Ok(())
}

/// The registers from one on get words.
pub(crate) fn write_from(
    registers: &mut Words,
    first: usize,
    words: &[u32; 8],
) -> Result<(), AllocError>
    requires { first < 4294967296 }
    ensures { OnOk result (registers.new ≡ put_from registers.old first words.now) }
{
    let mut i = 0;
    while i < 8 {
        write(registers, first + i, words[i])?;
        i += 1;
    }
    Ok(())
}

/// A register gets 0.
fn wipe(registers: &mut Words, register: usize)
    ensures { registers.new ≡ slice_set registers.old register 0 }
{
    if register < registers.as_slice().len() {
        registers.set(register, 0);
    }
}

/// So many registers from one on get 0.
pub(crate) fn clear(registers: &mut Words, first: u32, count: u32)
    ensures { registers.new ≡ cleared registers.old first count }
{
    let mut i = 0;
    while i < count as usize {
        wipe(registers, first as usize + i);
        i += 1;
    }
}
