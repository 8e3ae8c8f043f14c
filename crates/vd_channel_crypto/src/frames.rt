//! What goes out over a link that is sealed.

ghost use Rattle.std.specs.Prelude.{◌≡◌, ◌≤◌, length};
ghost use Rattle.vd_channel_crypto.specs.Hellos.{both_said, digest_between, hello_bytes, link_direction};
ghost use Rattle.vd_channel_crypto.specs.Records.{sealed};
ghost use Rattle.vd_channel_crypto.specs.Keys.{direction};

use crate::hellos::{Hello, link_keys};
use crate::records::{Keys, code_of};
use crate::streams::{cover, key_stream};
use sha2::{Digest, Sha256};
use std::alloc::{AllocError, Global};
use std::marker::Model;

/// A hello or a record that goes out, in room that was taken beforehand.
#[derive(Drop)]
pub struct Frame {
    bytes: Vec<u8>,
}

impl Model for Frame {
    ghost use Rattle.std.specs.Prelude.{◌≤◌, List, ℕ, vec_capacity};

    ghost Value = { List ℕ };

    ghost view = { λ held. held.bytes.items };

    ghost invariant = { λ held. 162 ≤ vec_capacity held.bytes };
}

impl Frame {
    /// No bytes, with room for a hello or any record.
    pub fn new(alloc: Global) -> Result<Frame, AllocError> {
        let bytes = Vec::with_capacity(alloc, 162)?;
        Ok(Frame { bytes })
    }

    /// Puts a hello here.
    pub fn set_hello(&mut self, hello: &Hello)
        ensures { self.new ≡ hello_bytes hello.now }
    {
        let id = hello.id;
        let nonce = hello.nonce;
        self.bytes.clear();
        self.bytes.push_reserved(0x47);
        self.bytes.push_reserved(2);
        self.bytes.extend_from_slice(&id).unwrap();
        self.bytes.push_reserved(hello.from.0);
        self.bytes.push_reserved(hello.to.0);
        self.bytes.extend_from_slice(&nonce).unwrap();
    }

    /// Puts the record with this number here: its tag, its length, its bytes under the stream of its number, and its code.
    pub fn set_record(&mut self, keys: &Keys, number: u64, bytes: &[u8])
        requires { length bytes.now ≤ 128 }
        ensures { self.new ≡ sealed (direction keys.now) number bytes.now }
    {
        let covered = cover(bytes, &key_stream(&keys.cipher, number));
        let covered = &covered[..bytes.len()];
        let code = code_of(keys, number, covered);
        self.bytes.clear();
        self.bytes.push_reserved(0x58);
        self.bytes.push_reserved(bytes.len() as u8);
        self.bytes.extend_from_slice(covered).unwrap();
        self.bytes.extend_from_slice(&code).unwrap();
    }

    /// The digest of two hellos. What stood here is gone.
    fn digest_of(&mut self, lower: &Hello, higher: &Hello) -> [u8; 32]
        ensures { result ≡ both_said lower.now higher.now }
    {
        let mut hasher = Sha256::new();
        self.set_hello(lower);
        hasher.update(self.as_slice());
        self.set_hello(higher);
        hasher.update(self.as_slice());
        hasher.finalize()
    }

    /// The digest of what both ends said, the lower host's hello first.
    fn digest_between(&mut self, mine: &Hello, theirs: &Hello) -> [u8; 32]
        ensures { result ≡ digest_between mine.now theirs.now }
    {
        if mine.from.0 < theirs.from.0 {
            self.digest_of(mine, theirs)
        } else {
            self.digest_of(theirs, mine)
        }
    }

    /// The keys of both directions of a link over which these hellos went, this host's direction first. What stood here is gone.
    pub fn keys_of(&mut self, link: &[u8; 32], mine: &Hello, theirs: &Hello) -> (Keys, Keys)
        ensures mine { direction result.0 ≡ link_direction link.now mine.now.from.0 (digest_between mine.now theirs.now) }
        ensures theirs { direction result.1 ≡ link_direction link.now theirs.now.from.0 (digest_between mine.now theirs.now) }
    {
        let digest = self.digest_between(mine, theirs);
        (
            link_keys(link, mine.from, &digest),
            link_keys(link, theirs.from, &digest),
        )
    }

    /// The bytes.
    pub fn as_slice(&self) -> &[u8]
        ensures { result.now ≡ self.now }
    {
        self.bytes.as_slice()
    }
}
