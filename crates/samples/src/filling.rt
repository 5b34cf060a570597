// Full books by calls.
ghost use Rattle.std.specs.Prelude.{◌≡◌, ℕ, ◌<◌, ◌++◌, Some, codes, decimal};
ghost use Rattle.book.specs.Held.{state};
ghost use Rattle.samples.specs.Running.{Run, Gives};
ghost use Rattle.samples.specs.Shapes.{pair_of};
ghost use Rattle.samples.specs.Filling.{Names, Enters, EquatesPair, Equates, Filling};

use crate::shape::{Shape, spelling};
use book::book::Book;
use book::id::NodeId;
use std::fmt;

/// How many names, nodes and equations were granted.
#[derive(Clone, Copy, Debug, PartialEq, Eq)]
pub struct Filled {
    pub names: usize,
    pub nodes: usize,
    pub equations: usize,
}

impl fmt::Display for Filled {
    ghost output = { λ f. Some (decimal f.names ++ codes " " ++ decimal f.nodes ++ codes " " ++ decimal f.equations) };

    fn fmt<W: fmt::Write>(&self, f: &mut fmt::Formatter<W>) -> fmt::Result {
        write!(f, "{} {} {}", self.names, self.nodes, self.equations)
    }
}

/// How many of `n` calls on a book are granted; each is told its number, from 0 on.
fn granted<F: Fn(&mut Book<'_>, usize) -> bool>(book: &mut Book<'_>, n: usize, call: F) -> usize
    requires { (b : _) (i : ℕ) → i < n → F.pre call b i }
    ensures { Run (Gives (F.post call)) book.old n result book.new }
{
    // counted by a loop: a chain that takes the closure says nothing of how it leaves the book
    let mut count = 0;
    for i in 0..n {
        if call(book, i) {
            count += 1;
        }
    }
    count
}

// `lent` stands at each filling: by it alone a caller's proof knows what became of the rows.

/// How many names are granted, one for each row.
fn name_all(book: &mut Book<'_>, rows: usize) -> usize
    ensures answer { Run Names (state book.old.table) rows result (state book.new.table) }
    ensures lent { book.new.table.rows.ghost_name ≡ book.old.table.rows.ghost_name }
{
    granted(book, rows, |book, i| book.name(&spelling(i)).is_ok())
}

/// How many nodes are granted, one for each row.
fn enter_all(book: &mut Book<'_>, shape: Shape, rows: usize) -> usize
    ensures answer { Run (Enters shape rows) (state book.old.table) rows result (state book.new.table) }
    ensures lent { book.new.table.rows.ghost_name ≡ book.old.table.rows.ghost_name }
{
    granted(book, rows, |book, i| {
        let (symbol, parts) = shape.node(rows, i);
        book.enter(symbol, parts).is_ok()
    })
}

/// Whether the equation of two nodes is granted, if one is asked for.
fn equate_pair(book: &mut Book<'_>, pair: Option<(NodeId, NodeId)>) -> bool
    ensures answer { EquatesPair (pair_of pair) (state book.old.table) result (state book.new.table) }
    ensures lent { book.new.table.rows.ghost_name ≡ book.old.table.rows.ghost_name }
{
    // a match: in a closure the book would be lent once more, which is no plainer
    match pair {
        Some((a, b)) => book.equate(a, b).is_ok(),
        None => false,
    }
}

/// How many equations are granted, at most one for each row.
fn equate_all(book: &mut Book<'_>, shape: Shape, rows: usize) -> usize
    ensures answer { Run (Equates shape rows) (state book.old.table) rows result (state book.new.table) }
    ensures lent { book.new.table.rows.ghost_name ≡ book.old.table.rows.ghost_name }
{
    granted(book, rows, |book, i| {
        equate_pair(book, shape.pair(rows, i))
    })
}

/// Filling a book by calls: a name, a node and an equation for each row, in the shape's order.
pub fn fill(book: &mut Book<'_>, shape: Shape, rows: usize) -> Filled
    ensures answer { Filling shape rows (state book.old.table) result (state book.new.table) }
    ensures lent { book.new.table.rows.ghost_name ≡ book.old.table.rows.ghost_name }
{
    let names = name_all(book, rows);
    let nodes = enter_all(book, shape, rows);
    let equations = equate_all(book, shape, rows);
    Filled {
        names,
        nodes,
        equations,
    }
}
