// Marking the classes that are reached from a node's class.
ghost use Rattle.std.specs.Prelude.{◌≡◌, ◌<◌, ◌≤◌, length};
ghost use Rattle.listing.specs.Nodes.{state_in};
ghost use Rattle.listing.specs.Marking.{UnmarkedAt, UnmarkedPart, UnmarkedFrom, Unmarked, Marked};

use crate::marking::Marking;
use crate::place::Place;
use book::nodes::Nodes;

impl Place<'_> {
    // The class of the part at place i, if there is one and it is not marked.
    fn unmarked_at(self, i: usize) -> Option<usize>
        ensures { UnmarkedAt self.entry.marking.nodes.rows.now self.entry.marking.bytes.now self.entry.at i result }
    {
        let k = usize::from(self.part(i)?.class());
        (self.marking.bytes[k] == 0).then_some(k)
    }

    // The class of a part, if one is not marked.
    fn unmarked_part(self) -> Option<usize>
        ensures { UnmarkedPart (state_in self.entry.marking.nodes.rows.now) self.entry.marking.bytes.now self.entry.at result }
    {
        (0..2).find_map(|i| self.unmarked_at(i))
    }

    // The same, if the node's own class is marked.
    fn unmarked_from(self) -> Option<usize>
        ensures { UnmarkedFrom (state_in self.entry.marking.nodes.rows.now) self.entry.marking.bytes.now self.entry.at result }
    {
        if self.marking.bytes[usize::from(self.class())] == 0 {
            return None;
        }
        self.unmarked_part()
    }
}

impl Marking<'_> {
    // A class that is not marked, of a part of a node whose class is marked.
    fn unmarked(self) -> Option<usize>
        ensures { Unmarked (state_in self.entry.nodes.rows.now) self.entry.bytes.now result }
    {
        (0..self.nodes.rows.len()).find_map(|j| self.place(j).unmarked_from())
    }
}

// Marks the classes that are reached from the node's class, and no others.
pub(crate) fn mark(nodes: Nodes<'_>, node: usize, bytes: &mut [u8])
    requires room { length nodes.rows.now ≤ length bytes.old }
    requires here { node < length nodes.rows.now }
    ensures { Marked (state_in nodes.entry.rows.now) node bytes.new }
{
    bytes.fill(0);
    bytes[usize::from(nodes.rows[node].node.class)] = 1;
    while let Some(k) = (Marking { nodes, bytes }).unmarked() {
        bytes[k] = 1;
    }
}
