//! The keys of a dealing.

ghost use Rattle.std.specs.Prelude.{◌≡◌, ◌++◌, ◌∷◌, []};
ghost use Rattle.vd_channel_crypto.specs.DealKeysKeys.{counts_bytes, dealing_id, items_key, link_key};

use crate::derive;
use vd_tape::Counts;

/// The label of all keys of a dealing.
const SALT: &[u8] = b"viaduct deal 2";

/// What is dealt, as bytes: to how many hosts, and how much of each kind, the highest byte first.
fn counts_bytes(counts: Counts) -> [u8; 17]
    ensures { result ≡ counts_bytes counts }
{
    let [o3, o2, o1, o0] = counts.own.to_be_bytes();
    let [m3, m2, m1, m0] = counts.muls.to_be_bytes();
    let [a3, a2, a1, a0] = counts.ands.to_be_bytes();
    let [p3, p2, p1, p0] = counts.pairs.to_be_bytes();
    [
        counts.hosts,
        o3,
        o2,
        o1,
        o0,
        m3,
        m2,
        m1,
        m0,
        a3,
        a2,
        a1,
        a0,
        p3,
        p2,
        p1,
        p0,
    ]
}

/// The public name of the dealing of a key and these counts.
pub fn dealing_id(counts: Counts, key: &[u8; 32]) -> [u8; 32]
    ensures { result ≡ dealing_id counts key.now }
{
    derive(SALT, key, b"id", &counts_bytes(counts))
}

/// The key that the items of a dealing are made of.
pub fn items_key(counts: Counts, key: &[u8; 32]) -> [u8; 32]
    ensures { result ≡ items_key counts key.now }
{
    derive(SALT, key, b"items", &counts_bytes(counts))
}

/// What is dealt, and behind it the two hosts of a link.
fn link_bytes(counts: Counts, lower: u8, higher: u8) -> [u8; 19]
    ensures { result ≡ counts_bytes counts ++ lower ∷ higher ∷ [] }
{
    let [
        hosts,
        o3,
        o2,
        o1,
        o0,
        m3,
        m2,
        m1,
        m0,
        a3,
        a2,
        a1,
        a0,
        p3,
        p2,
        p1,
        p0,
    ] = counts_bytes(counts);
    [
        hosts, o3, o2, o1, o0, m3, m2, m1, m0, a3, a2, a1, a0, p3, p2, p1, p0, lower, higher,
    ]
}

/// The key of the link of two hosts of a dealing, the lower one first.
pub fn link_key(counts: Counts, key: &[u8; 32], lower: u8, higher: u8) -> [u8; 32]
    ensures { result ≡ link_key counts key.now lower higher }
{
    derive(SALT, key, b"link", &link_bytes(counts, lower, higher))
}
