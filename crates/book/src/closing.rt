// The classes of the nodes, kept closed under congruence.
ghost use Rattle.std.specs.Prelude.{◌≡◌, ℕ, ◌+◌, ◌<◌, ◌≤◌, length, position};
ghost use Rattle.book.specs.Rows.{Relabelled, Tidy, Based, Unchosen};
ghost use Rattle.book.specs.Closing.{Joined, Waits, Owes, Level, Turned, Accepted};
ghost use Rattle.book.specs.Invariant.{Unpriced};

use crate::nodes::Nodes;
use crate::room::MOST;
use crate::row::Row;

/// The rows of the nodes while classes are made one, and a mark for each class that nodes must still be compared for.
// The marks are an array beside the rows: what a row holds is promised, and nothing is allocated.
#[derive(Drop)]
struct Classes<'a> {
    rows: &'a mut [Row],
    dirty: [bool; MOST],
    ghost few: { length rows.now ≤ 1024 },
    ghost room: { length rows.now ≤ length dirty },
    ghost tidy: { Tidy rows.now (length rows.now) },
    ghost based: { Based rows.now (length rows.now) },
}

// puts every node of the class `gone` into the class `keep`
fn relabel(rows: &mut [Row], keep: u16, gone: u16)
    ensures { Relabelled rows.old rows.new (length rows.old) keep gone }
{
    for row in rows.iter_mut() {
        if row.node.class == gone {
            row.node.class = keep;
        }
    }
}

// Each call says that the rows are those lent (`lent`): by that alone a proof knows afterwards what became of what was lent.
// `turned` says how rows and marks changed, a relation of before and after. Places are numbers: a place that borrows the rows could not
// stand while a step changes them.
impl Classes<'_> {
    // the nodes as they stand
    fn nodes(&self) -> Nodes<'_>
        ensures { result.rows.now ≡ self.now.rows.now }
    {
        Nodes { rows: self.rows }
    }

    // makes one class of the classes of i and j, and marks it
    fn join(&mut self, i: usize, j: usize)
        requires { (i < length self.old.rows.now) × (j < length self.old.rows.now) }
        ensures joined { Joined self.old.rows.now self.new.rows.now self.old.dirty self.new.dirty (length self.old.rows.now) i j }
        ensures lent { self.new.rows.ghost_name ≡ self.old.rows.ghost_name }
    {
        let a = self.rows[i].node.class;
        let b = self.rows[j].node.class;
        if a == b {
            return;
        }
        let keep = a.min(b);
        let gone = a.max(b);
        relabel(self.rows, keep, gone);
        self.dirty[keep as usize] = true;
    }

    // makes one class of those of i and j if the two are congruent
    fn meet(&mut self, i: usize, j: usize)
        requires { (i < length self.old.rows.now) × (j < length self.old.rows.now) }
        ensures turned { Turned (length self.old.rows.now) self.old.rows.now self.new.rows.now self.old.dirty self.new.dirty }
        ensures owes { (d : ℕ) → Owes self.old.rows.now (length self.old.rows.now) self.old.dirty d i j → Owes self.new.rows.now (length self.old.rows.now) self.new.dirty d i (j + 1) }
        ensures lent { self.new.rows.ghost_name ≡ self.old.rows.ghost_name }
    {
        if self.rows[i].node.class != self.rows[j].node.class && self.nodes().alike(i, j) {
            self.join(i, j);
        }
    }

    // compares the node i with all others
    fn settle(&mut self, i: usize)
        requires { i < length self.old.rows.now }
        ensures turned { Turned (length self.old.rows.now) self.old.rows.now self.new.rows.now self.old.dirty self.new.dirty }
        ensures owes { (d : ℕ) → Owes self.old.rows.now (length self.old.rows.now) self.old.dirty d i 0 → Owes self.new.rows.now (length self.old.rows.now) self.new.dirty d (i + 1) 0 }
        ensures lent { self.new.rows.ghost_name ≡ self.old.rows.ghost_name }
    {
        // by the place, since each step may change any row
        for j in 0..self.rows.len() {
            self.meet(i, j);
        }
    }

    // compares each node above the class d with all others
    fn sweep(&mut self, d: usize)
        requires { Owes self.old.rows.now (length self.old.rows.now) self.old.dirty d 0 0 }
        ensures turned { Turned (length self.old.rows.now) self.old.rows.now self.new.rows.now self.old.dirty self.new.dirty }
        ensures waits { Waits self.new.rows.now (length self.old.rows.now) self.new.dirty }
        ensures lent { self.new.rows.ghost_name ≡ self.old.rows.ghost_name }
    {
        // by the place, since each step may change any row
        for i in 0..self.rows.len() {
            if self.nodes().touches(i, d) {
                self.settle(i);
            }
        }
    }

    // a marked class, if there is one
    fn marked(&self) -> Option<usize>
        ensures { result ≡ position (λ b. b) self.now.dirty }
    {
        self.dirty.iter().position(|dirty| *dirty)
    }

    // makes one class of any two that have congruent nodes
    fn close(&mut self)
        requires { Waits self.old.rows.now (length self.old.rows.now) self.old.dirty }
        ensures turned { Turned (length self.old.rows.now) self.old.rows.now self.new.rows.now self.old.dirty self.new.dirty }
        ensures level { Level self.new.rows.now (length self.old.rows.now) }
        ensures lent { self.new.rows.ghost_name ≡ self.old.rows.ghost_name }
    {
        while let Some(d) = self.marked() {
            self.dirty[d] = false;
            self.sweep(d);
        }
    }
}

// closes the nodes' classes under the equation of a and b, unless they hold it already
pub(crate) fn accept(rows: &mut [Row], a: usize, b: usize)
    requires few { length rows.old ≤ 1024 }
    requires tidy { Tidy rows.old (length rows.old) }
    requires based { Based rows.old (length rows.old) }
    requires level { Level rows.old (length rows.old) }
    requires inside { (a < length rows.old) × (b < length rows.old) }
    ensures { Accepted rows.old rows.new (length rows.old) a b }
{
    if rows[a].node.class == rows[b].node.class {
        return;
    }
    let mut classes = Classes {
        rows,
        dirty: [false; MOST],
    };
    classes.join(a, b);
    classes.close();
}

// ends a pricing in force over the nodes' rows; whether there is one is asked here once, and not by both callers
pub(crate) fn unprice(rows: &mut [Row], priced: bool)
    requires { Unpriced rows.old (length rows.old) priced }
    ensures { Unchosen rows.old rows.new (length rows.old) }
{
    if !priced {
        return;
    }
    for row in rows.iter_mut() {
        row.node.choice = 0;
    }
}
