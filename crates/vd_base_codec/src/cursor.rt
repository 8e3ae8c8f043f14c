//! A place in the bytes of a file.

ghost use Rattle.std.specs.Prelude.{◌≡◌, ◌+◌, ◌*◌, ◌≤◌, ◌<◌, ◌∷◌, length, drop};
ghost use Rattle.vd_base_codec.specs.Reading as reading;

use crate::fault::Stopped;
use itoa::Buffer;
use std::marker::Model;
use vd_base::is_digit;

/// The bytes of a file that are still to be read.
#[derive(Drop)]
pub struct Cursor<'a> {
    left: &'a [u8],
}

impl<'a> Model for Cursor<'a> {
    ghost use Rattle.std.specs.Prelude.{List, ℕ};

    ghost Value = { List ℕ };

    ghost view = { λ cursor. cursor.left.now };
}

impl<'a> Cursor<'a> {
    /// All these bytes are still to be read.
    pub fn new(bytes: &'a [u8]) -> Cursor<'a>
        ensures { result ≡ bytes.now }
    {
        Cursor { left: bytes }
    }

    /// How many bytes are still to be read.
    pub fn len(&self) -> usize
        ensures { result ≡ length self.now }
    {
        self.left.len()
    }

    /// The bytes that are still to be read.
    pub fn as_slice(&self) -> &[u8]
        ensures { result.now ≡ self.now }
    {
        self.left
    }

    /// Passes over so many bytes.
    pub fn skip(&mut self, count: usize)
        requires { count ≤ length self.old }
        ensures { self.new ≡ drop count self.old }
    {
        self.left = &self.left[count..];
    }

    /// The next byte.
    pub fn first(&self) -> Option<u8>
        ensures { result ≡ reading.first self.now }
    {
        self.left.first().copied()
    }

    /// Takes the next byte.
    fn advance(&mut self) -> u8
        requires { 0 < length self.old }
        ensures { self.old ≡ result ∷ self.new }
    {
        let byte = self.left[0];
        self.left = &self.left[1..];
        byte
    }

    /// Takes the next byte, if it is this one.
    pub fn byte(&mut self, byte: u8) -> Result<(), Stopped>
        ensures { reading.Gives result self.new (reading.byte_at byte self.old) }
    {
        if self.first() == Some(byte) {
            self.advance();
            Ok(())
        } else {
            Err(Stopped)
        }
    }

    /// Takes these bytes, as far as they are there.
    pub fn literal(&mut self, word: &[u8]) -> Result<(), Stopped>
        ensures { reading.Gives result self.new (reading.literal_at word.now self.old) }
    {
        for byte in word {
            self.byte(*byte)?;
        }
        Ok(())
    }

    /// Takes a decimal number of at most `most`, as far as its digits go: none stands behind a 0, nor where the number would be more.
    pub fn number(&mut self, most: u32) -> Result<u32, Stopped>
        ensures { reading.Gives result self.new (reading.number_at most self.old) }
    {
        let Some(first) = self.first() else {
            return Err(Stopped);
        };
        if !is_digit(first) || u32::from(first - b'0') > most {
            return Err(Stopped);
        }
        self.advance();
        Ok(self.longest(u32::from(first - b'0'), most))
    }

    /// Takes the digits with which a number goes on.
    fn longest(&mut self, start: u32, most: u32) -> u32
        ensures { (result, self.new) ≡ reading.longest_at most start self.old }
    {
        let mut number = start;
        'digits: while let Some(longer) = self.longer(number, most) {
            self.advance();
            number = longer;
        }
        number
    }

    /// The number that goes on with the next byte.
    fn longer(&self, number: u32, most: u32) -> Option<u32>
        ensures { result ≡ reading.longer most number self.now }
    {
        let byte = self.first()?;
        if number == 0 || !is_digit(byte) {
            return None;
        }
        let longer = u64::from(number) * 10 + u64::from(byte - b'0');
        if longer > u64::from(most) {
            return None;
        }
        Some(longer as u32)
    }

    /// Takes a space and a number.
    pub fn field(&mut self, most: u32) -> Result<u32, Stopped>
        ensures { reading.Gives result self.new (reading.field_at most self.old) }
    {
        self.byte(b' ')?;
        self.number(most)
    }

    /// Takes a space and this number.
    #[tactic(auto, unfolding(crate::specs::Reading::literal_at))]
    pub fn expect_field(&mut self, number: u32) -> Result<(), Stopped>
        ensures { reading.Gives result self.new (reading.literal_at (reading.field number) self.old) }
    {
        self.byte(b' ')?;
        self.literal(Buffer::new().format(number).as_bytes())
    }

    /// Whether nothing is left to read.
    pub fn end(&self) -> Result<(), Stopped>
        ensures { reading.Gives result self.now (reading.end_at self.now) }
    {
        if self.left.is_empty() {
            Ok(())
        } else {
            Err(Stopped)
        }
    }
}

/// An offset as a fault tells it: `u32::MAX` where it would be larger.
pub fn offset(at: usize) -> u32
    ensures { result ≡ reading.capped at }
{
    u32::try_from(at).unwrap_or(u32::MAX)
}
