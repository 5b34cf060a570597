// A node of a marking: its class, its parts and its production.
ghost use Rattle.std.specs.Prelude.{◌≡◌, ◌<◌, ◌≤◌, length, IfNone, IfSome};
ghost use Rattle.theory.specs.Productions.{production};
ghost use Rattle.book.specs.Rows.{class, row};
ghost use Rattle.listing.specs.Told.{plain};
ghost use Rattle.listing.specs.Nodes.{state_in, part_at};
ghost use Rattle.listing.specs.Order.{unmet, stands};

use crate::marking::Marking;
use crate::production::Production;

/// A node, by its number, in the marking that it stands in.
#[derive(Clone, Copy)]
pub(crate) struct Place<'a> {
    pub(crate) marking: Marking<'a>,
    pub(crate) at: usize,
    ghost here: { at < length marking.nodes.rows.now },
}

impl<'a> Marking<'a> {
    pub(crate) fn place(self, at: usize) -> Place<'a>
        requires here { at < length self.nodes.rows.now }
        ensures marking { result.marking ≡ self.entry }
        ensures at { result.at ≡ at }
    {
        Place { marking: self, at }
    }
}

// `pricing` reads classes and parts for itself: in `book` these would be public calls, which may not ask that a place is a node's.
impl<'a> Place<'a> {
    pub(crate) fn class(self) -> u16
        ensures class { result ≡ class self.entry.marking.nodes.rows.now self.entry.at }
        ensures low { result ≤ self.entry.at }
    {
        self.marking.nodes.rows[self.at].node.class
    }

    // The part at place i, if the node has so many.
    // By number, 0 or 1, so that one search goes over both parts.
    pub(crate) fn part(self, i: usize) -> Option<Place<'a>>
        ensures none { IfNone result ((row self.entry.marking.nodes.rows.now self.entry.at).node.parts ≤ i) }
        ensures part { IfSome result (λ p. (p.marking ≡ self.entry.marking) × (i < (row self.entry.marking.nodes.rows.now self.entry.at).node.parts) × (p.at ≡ part_at (row self.entry.marking.nodes.rows.now self.entry.at).node i)) }
    {
        let node = self.marking.nodes.rows[self.at].node;
        if i >= usize::from(node.parts) {
            return None;
        }
        let at = if i == 0 { node.left } else { node.right };
        Some(self.marking.place(usize::from(at)))
    }

    // A missing part is node 0, whose class is 0.
    pub(crate) fn production(self) -> Production
        ensures { plain result ≡ production (state_in self.entry.marking.nodes.rows.now) self.entry.at }
    {
        let rows = self.marking.nodes.rows;
        let node = rows[self.at].node;
        Production {
            of: node.class,
            symbol: node.symbol,
            parts: node.parts,
            left: rows[usize::from(node.left)].node.class,
            right: rows[usize::from(node.right)].node.class,
        }
    }

    // Whether no lower node has the same production.
    fn is_first(self) -> bool
        ensures { result ≡ unmet (state_in self.entry.marking.nodes.rows.now) (production (state_in self.entry.marking.nodes.rows.now) self.entry.at) self.entry.at }
    {
        let Place { marking, at } = self;
        let own = self.production();
        (0..at).all(|lower| marking.place(lower).production() != own)
    }

    // Whether the node is the one that stands for its production in class k.
    pub(crate) fn stands_for(self, k: usize) -> bool
        ensures { result ≡ stands (state_in self.entry.marking.nodes.rows.now) k self.entry.at }
    {
        usize::from(self.class()) == k && self.is_first()
    }
}
