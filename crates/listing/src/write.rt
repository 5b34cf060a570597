// Counting and writing the productions of the marked classes.
ghost use Rattle.std.specs.Prelude.{◌≡◌, ◌≤◌, length};
ghost use Rattle.std.specs.Iterator.{YieldsFirstBy, item_count};
ghost use Rattle.listing.specs.Told.{plain, count_answer};
ghost use Rattle.listing.specs.Nodes.{state_in};
ghost use Rattle.listing.specs.Order.{listing, left_over};
ghost use Rattle.listing.specs.Steps.{Writing};

use crate::marking::Marking;
use crate::production::Production;
use std::ops::Range;
use text::cause::{BookCause, Layer};

// The productions of the marked classes that are left: those of a class, by some of the nodes, and those of more classes.
// A struct of its own, since it is gone over twice: a chain of closures has no type that a function can answer.
#[derive(Drop)]
struct Productions<'a> {
    marking: Marking<'a>,
    class: usize,
    nodes: Range<usize>,
    classes: Range<usize>,
    ghost within: { nodes.end ≤ length marking.nodes.rows.now },
    ghost marked: { classes.end ≤ length marking.nodes.rows.now },
}

impl Iterator for Productions<'_> {
    type Item = Production;

    ghost next_gives = { YieldsFirstBy plain (λ s. left_over (state_in s.marking.nodes.rows.now) s.marking.bytes.now s.class s.nodes s.classes) };

    ghost remaining = { item_count (λ s. left_over (state_in s.marking.nodes.rows.now) s.marking.bytes.now s.class s.nodes s.classes) };

    fn next(&mut self) -> Option<Production> {
        let marking = self.marking;
        loop {
            let class = self.class;
            // by a range of its own: one behind the `&mut` is stored anew at each node
            let mut nodes = self.nodes.start..self.nodes.end;
            let found = nodes.find(|at| marking.place(*at).stands_for(class));
            self.nodes = nodes;
            if let Some(at) = found {
                return Some(marking.place(at).production());
            }
            let next = self.classes.find(|k| marking.bytes[*k] != 0)?;
            self.class = next;
            self.nodes = 0..marking.nodes.rows.len();
        }
    }
}

impl<'a> Marking<'a> {
    // The productions of the marked classes, by class and then by the lowest node that has each.
    fn productions(self) -> Productions<'a>
        ensures { left_over (state_in result.marking.nodes.rows.now) result.marking.bytes.now result.class result.nodes result.classes ≡ listing (state_in self.entry.nodes.rows.now) self.entry.bytes.now }
    {
        Productions {
            marking: self,
            class: 0,
            nodes: 0..0,
            classes: 0..self.nodes.rows.len(),
        }
    }

    // Writes the productions of the marked classes if there is room for all, and answers how many they are.
    pub(crate) fn write(self, out: &mut [Production]) -> Result<usize, Layer>
        ensures { Writing (listing (state_in self.entry.nodes.rows.now) self.entry.bytes.now) out.old (count_answer result) out.new }
    {
        let n = self.productions().count();
        if n > out.len() {
            return Err(BookCause::TooShort.into());
        }
        // by number: of rows that `iter_mut` lends to a `zip` a proof does not learn what is written
        for (to, production) in self.productions().enumerate() {
            out[to] = production;
        }
        Ok(n)
    }
}
