//! Random bytes.

ghost use Rattle.std.specs.Prelude.{List, ℕ, IfOk, ⊤};

use std::io;
use std::random::RandomSource;

/// A source of random bytes.
pub trait Randomness {
    /// These bytes are what it gave.
    ghost gave: { Self → List ℕ → Type 0 };

    /// Its next 32 bytes.
    fn give(&self) -> io::Result<[u8; 32]>
        ensures { IfOk result (gave self.now) };
}

/// The random bytes of a system. Nothing is known of them.
impl<R: RandomSource> Randomness for R {
    ghost gave = { λ source bytes. ⊤ };

    fn give(&self) -> io::Result<[u8; 32]> {
        let mut bytes = [0; 32];
        self.fill_bytes(&mut bytes)?;
        Ok(bytes)
    }
}
