//! What is reached along edges.

ghost use Rattle.std.specs.Prelude.{◌≡◌, ◌<◌, ◌≤◌, ℕ, true, false, IfOk, OnOk, length};
ghost use Rattle.vd_noninter.specs.Hosts.{members, members_with, reached_hosts};
ghost use Rattle.vd_noninter.specs.Reached.{IsReachOf, reach_of};

use crate::edge::{Edge, Node};
use crate::marks::Marks;
use std::alloc::{AllocError, Global};
use vd_base::{HostSet, Items};

/// Slots that are reached, and hosts whose inputs are.
#[derive(Drop)]
pub(crate) struct Reached {
    pub slots: Marks,
    pub hosts: Marks,
}

/// What is reached along these edges from a host's outputs, and no more.
#[tactic(auto, using(crate::proofs::Following::leads_first, crate::proofs::Following::leads_next, crate::proofs::Following::leads_to))]
pub(crate) fn reach_along(alloc: Global, edges: Items<Edge>) -> Result<Reached, AllocError>
    ensures { IfOk result (λ reached. IsReachOf edges (reach_of reached)) }
{
    let mut reached = Reached::new(alloc);
    let mut waiting = edges;
    'passes: loop {
        let before = waiting.as_slice().len();
        waiting = reached.follow(alloc, waiting)?;
        let after = waiting.as_slice().len();
        if after == before {
            return Ok(reached);
        }
    }
}

impl Reached {
    ghost use Rattle.vd_noninter.specs.Reached.{FollowsOne, Follows, IsWith, in_reach, is_marked};

    /// Nothing is reached.
    fn new(alloc: Global) -> Reached
        ensures slots { (x : ℕ) → is_marked result.slots x ≡ false }
        ensures hosts { (k : ℕ) → is_marked result.hosts k ≡ false }
    {
        Reached {
            slots: Marks::new(alloc),
            hosts: Marks::new(alloc),
        }
    }

    /// Whether the node is reached.
    fn has(&self, node: Node) -> bool
        ensures { result ≡ in_reach (reach_of self.now) node }
    {
        match node {
            Node::Told => true,
            Node::Slot(slot) => self.slots.has(usize::from(slot.0)),
            Node::Inputs(host) => self.hosts.has(usize::from(host.0)),
        }
    }

    /// Adds the node.
    fn add(&mut self, node: Node) -> Result<(), AllocError>
        ensures { OnOk result (IsWith node (reach_of self.old) (reach_of self.new)) }
    {
        match node {
            Node::Told => Ok(()),
            Node::Slot(slot) => self.slots.add(usize::from(slot.0)),
            Node::Inputs(host) => self.hosts.add(usize::from(host.0)),
        }
    }

    /// Follows the edge if its start is reached, and leaves it else.
    fn follow_one(&mut self, edge: Edge, left: &mut Items<Edge>) -> Result<(), AllocError>
        ensures { OnOk result (FollowsOne edge (reach_of self.old) (reach_of self.new) left.old left.new) }
    {
        if self.has(edge.from) {
            self.add(edge.to)
        } else {
            left.push(edge)
        }
    }

    /// Follows the edges whose start is reached, the last one first, and gives those that are left.
    fn follow(&mut self, alloc: Global, edges: Items<Edge>) -> Result<Items<Edge>, AllocError>
        ensures follows { IfOk result (Follows (reach_of self.old) (reach_of self.new) edges) }
        ensures fewer { IfOk result (λ left. length left ≤ length edges) }
    {
        let mut waiting = edges;
        let mut left = Items::new(alloc);
        'edges: while let Some(edge) = waiting.pop() {
            self.follow_one(edge, &mut left)?;
        }
        Ok(left)
    }

    /// The first eight hosts whose inputs are reached.
    pub fn hosts(&self) -> HostSet
        ensures { (k : ℕ) → members result k ≡ reached_hosts self.now k }
    {
        let mut set = HostSet { bits: 0 };
        for host in 0..8 {
            set = with_host_if(set, host, self.hosts.has(usize::from(host)));
        }
        set
    }
}

/// The set with one of the first eight hosts more, if it is reached.
fn with_host_if(set: HostSet, number: u8, reached: bool) -> HostSet
    requires { number < 8 }
    ensures { (k : ℕ) → members result k ≡ members_with reached number set k }
{
    if reached { with_host(set, number) } else { set }
}

/// The set with one of the first eight hosts more.
fn with_host(set: HostSet, number: u8) -> HostSet
    requires { number < 8 }
    ensures { (k : ℕ) → members result k ≡ members_with true number set k }
{
    HostSet {
        bits: set.bits | 1 << number,
    }
}
