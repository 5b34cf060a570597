// Chains of the nodes that have a part of one class on one side, so that settling a class looks at the nodes above it alone.
ghost use Rattle.std.specs.Prelude.{◌≡◌, ℕ, ◌<◌, length, IfSome};
ghost use Rattle.pricing.specs.Chains.{key, link_at, Linked};
ghost use Rattle.pricing.specs.Nodes.{links};

use crate::link::Link;
use crate::node::{class_of, parts_of};
use book::id::Parts;
use book::nodes::Nodes;

/// Where a part stands; an only part stands to the left.
#[derive(Clone, Copy)]
pub(crate) enum Side {
    Left,
    Right,
}

/// For each class the last node with a part of it, and for each node the last one before it with a part of the same class. One is read by
/// classes and the other by nodes, so they are two arrays.
// Links name nodes, since nothing is allocated.
#[derive(Drop)]
pub(crate) struct Chains {
    pub first: [Link; 1024],
    pub next: [Link; 1024],
}

// the class of the node's part on a side; by the side and not by a closure, since what is promised of chains is said by their side
fn part_class(nodes: Nodes<'_>, side: Side, i: usize) -> Option<usize>
    requires { i < length nodes.rows.now }
    ensures value { result ≡ key side nodes.entry.rows.now i }
    ensures within { IfSome result (λ k. k < i) }
{
    match (side, parts_of(nodes, i)) {
        (Side::Left, Parts::One(p)) => Some(class_of(nodes, p.0)),
        (Side::Left, Parts::Two(p, _)) => Some(class_of(nodes, p.0)),
        (Side::Right, Parts::Two(_, q)) => Some(class_of(nodes, q.0)),
        _ => None,
    }
}

impl Chains {
    // no chain has a node yet
    pub(crate) fn none() -> Chains
        ensures first { (k : ℕ) → link_at (links result.first) k ≡ None }
        ensures next { (i : ℕ) → link_at (links result.next) i ≡ None }
        ensures wide { (length result.first ≡ 1024) × (length result.next ≡ 1024) }
    {
        Chains {
            first: [Link::none(); 1024],
            next: [Link::none(); 1024],
        }
    }

    // chains the nodes by their parts on a side; in place, since arrays that are handed out are copied
    pub(crate) fn link(&mut self, nodes: Nodes<'_>, side: Side)
        requires first { (k : ℕ) → link_at (links self.old.first) k ≡ None }
        requires next { (i : ℕ) → link_at (links self.old.next) i ≡ None }
        requires wide { (length self.old.first ≡ 1024) × (length self.old.next ≡ 1024) }
        ensures { Linked (length nodes.entry.rows.now) (key side nodes.entry.rows.now) (links self.new.first) (links self.new.next) }
    {
        // by number: of rows that `iter_mut` lends to an adapter a proof does not learn what is written
        for i in 0..nodes.rows.len() {
            if let Some(k) = part_class(nodes, side, i) {
                self.next[i] = self.first[k];
                self.first[k] = Link::to(i);
            }
        }
    }
}
