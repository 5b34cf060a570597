// The nodes of a book alone: their rows, lent to be read, with what is true of every book's nodes in the type.
ghost use Rattle.std.specs.Prelude.{◌≡◌, ◌-◌, ◌<◌, ◌≤◌, false, length};
ghost use Rattle.book.specs.Rows.{Tidy, Based, shape};
ghost use Rattle.book.specs.Closing.{key, Clear};
ghost use Rattle.book.specs.Entering.{same_signature, Meets};

use crate::row::{Row, Signature};

/// The rows that hold a book's nodes, and no others.
#[derive(Clone, Copy)]
pub struct Nodes<'a> {
    pub rows: &'a [Row],
    ghost few: { length rows.now ≤ 1024 },
    ghost tidy: { Tidy rows.now (length rows.now) },
    ghost based: { Based rows.now (length rows.now) },
}

// That a place is one of the nodes' stands at each call: who calls counts places while the rows change, so a struct of rows and place, as
// `listing` has, would be made anew at each.
impl Nodes<'_> {
    // what makes the node i congruent to another
    fn signature(&self, i: usize) -> Signature
        requires { i < length self.now.rows.now }
        ensures { result ≡ key self.now.rows.now i }
    {
        let node = self.rows[i].node;
        Signature {
            left: self.rows[node.left as usize].node.class,
            right: self.rows[node.right as usize].node.class,
            symbol: node.symbol,
            parts: node.parts,
        }
    }

    // whether two nodes have one symbol over parts of the same classes
    pub(crate) fn alike(&self, i: usize, j: usize) -> bool
        requires { (i < length self.now.rows.now) × (j < length self.now.rows.now) }
        ensures { result ≡ same_signature (key self.now.rows.now i) (key self.now.rows.now j) }
    {
        self.signature(i) == self.signature(j)
    }

    // whether the node i has a part of class d
    pub(crate) fn touches(&self, i: usize, d: usize) -> bool
        requires { i < length self.now.rows.now }
        ensures { result ≡ false → Clear self.now.rows.now d (shape self.now.rows.now i) }
    {
        let s = self.signature(i);
        (s.parts > 0 && s.left as usize == d) || (s.parts > 1 && s.right as usize == d)
    }

    // a node that is congruent to the last, if there is one
    pub(crate) fn meeting(&self) -> Option<usize>
        requires { 0 < length self.now.rows.now }
        ensures { Meets self.now.rows.now (length self.now.rows.now - 1) result }
    {
        let last = self.rows.len() - 1;
        (0..last).find(|i| self.alike(*i, last))
    }
}
