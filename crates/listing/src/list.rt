// Listing the productions that are reached from a node's class.
ghost use Rattle.std.specs.Prelude.{◌≡◌, ℕ, ◌↔◌, List, map, length, take, replicate, IfOk};
ghost use Rattle.theory.specs.Books.{class, build, equations_in};
ghost use Rattle.theory.specs.Builds.{Build};
ghost use Rattle.theory.specs.Equality.{Equal};
ghost use Rattle.theory.specs.Productions.{Derives};
ghost use Rattle.theory.specs.Calls.{Listing};
ghost use Rattle.book.specs.Held.{state};
ghost use Rattle.listing.specs.Told.{plain, count_answer};
ghost use Rattle.listing.specs.Steps.{Checked};

use crate::mark::mark;
use crate::marking::Marking;
use crate::production::Production;
use book::book::Book;
use book::id::NodeId;
use text::cause::{BookCause, Layer};

/// The caller's marking bytes while a listing is made: they are cleared however it ends.
// A rule of the project: a guard over the lent bytes clears them.
struct Marks<'a>(&'a mut [u8]);

impl Drop for Marks<'_> {
    fn drop(self)
        ensures { self.exit.0.now ≡ replicate (length self.entry.0.now) 0 }
    {
        self.0.fill(0);
        let Marks(_) = self;
    }
}

// Refuses a node that is not there, and else marking bytes that are too few.
fn check(nodes: usize, node: usize, bytes: usize) -> Result<(), BookCause>
    ensures { Checked nodes node bytes result }
{
    if node >= nodes {
        return Err(BookCause::NoNode);
    }
    if bytes < nodes {
        return Err(BookCause::TooShort);
    }
    Ok(())
}

// Lists the productions; the caller clears the marking bytes.
fn list_marking(
    book: &Book<'_>,
    node: NodeId,
    marks: &mut [u8],
    out: &mut [Production],
) -> Result<usize, Layer>
    ensures { (ms : List ℕ) → ms ≡ replicate (length marks.old) 0 → Listing (state book.now.table) node.0 (length marks.old) (map plain out.old) (count_answer result) (map plain out.new) ms (state book.now.table) }
{
    let nodes = book.nodes();
    check(nodes.rows.len(), node.0, marks.len())?;
    mark(nodes, node.0, marks);
    Marking {
        nodes,
        bytes: marks,
    }
    .write(out)
}

/// Writes every production that is reached from the node's class, each once, by class and then by the lowest node that has it, and
/// answers how many. The marking bytes end as zeros on every way out.
pub fn list(
    book: &Book<'_>,
    node: NodeId,
    marks: &mut [u8],
    out: &mut [Production],
) -> Result<usize, Layer>
    ensures answer { Listing (state book.now.table) node.0 (length marks.old) (map plain out.old) (count_answer result) (map plain out.new) marks.new (state book.now.table) }
    ensures grammar { IfOk result (λ n. (u : Build) → Equal (equations_in (state book.now.table)) u (build (state book.now.table) node.0) ↔ Derives (state book.now.table) (take n (map plain out.new)) u (class (state book.now.table) node.0)) }
{
    let guard = Marks(marks);
    list_marking(book, node, guard.0, out)
}
