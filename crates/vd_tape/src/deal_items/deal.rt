//! What a dealer hands out.

use crate::deal_items::items::{PairItem, Triple};
use std::fmt;
use thiserror::Error;
use vd_base::{HostId, Items, Words};

/// What one host is dealt. The lists that it shares with a peer stand in the order of the peers, its own number left out.
#[derive(Drop)]
pub struct Deal {
    /// How many hosts there are.
    pub hosts: u8,
    /// The host whose deal it is.
    pub me: HostId,
    /// Its own words.
    pub own: Words,
    /// For each peer, the parts of products.
    pub triples: Items<Items<Triple>>,
    /// For each peer, the parts of products of bits.
    pub bits: Items<Items<Triple>>,
    /// For each peer, the parts of words that are sums and exclusive ors.
    pub pairs: Items<Items<PairItem>>,
}

/// For each host in order, what it is dealt.
pub type Deals = Items<Deal>;

/// The kinds of dealt lists.
#[derive(Clone, Copy, PartialEq, Eq, Debug)]
pub enum DealKind {
    /// Words of one host's own.
    Own,
    /// Products of words.
    Mul,
    /// Products of bits.
    And,
    /// Words that are sums and exclusive ors.
    Pair,
}

impl fmt::Display for DealKind {
    fn fmt<W: fmt::Write>(&self, f: &mut fmt::Formatter<W>) -> fmt::Result {
        let name = match self {
            DealKind::Own => "own",
            DealKind::Mul => "mul",
            DealKind::And => "and",
            DealKind::Pair => "pair",
        };
        write!(f, "{name}")
    }
}

/// How much is dealt: to how many hosts, how many words to each, and how many items of each kind to each two.
#[derive(Clone, Copy, PartialEq, Eq)]
pub struct Counts {
    pub hosts: u8,
    pub own: u32,
    pub muls: u32,
    pub ands: u32,
    pub pairs: u32,
}

/// An item that breaks its identity, and the two sides.
#[derive(Clone, Copy, PartialEq, Eq, Debug, Error)]
#[error("bad deal {kind} {} {} {index} {left} {right}", .first.0, .second.0)]
pub struct BadItem {
    pub kind: DealKind,
    pub first: HostId,
    pub second: HostId,
    /// Its place in the list.
    pub index: u32,
    pub left: u32,
    pub right: u32,
}
