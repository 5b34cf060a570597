// What the rows of a book's nodes say: the class of a node, and its parts.
ghost use Rattle.std.specs.Prelude.{◌≡◌, ◌<◌, ◌≤◌, length};
ghost use Rattle.theory.specs.Tables.{shape_at};
ghost use Rattle.book.specs.Rows.{row, class, bare};
ghost use Rattle.pricing.specs.Nodes.{table, shape_over, Below};

use book::id::{NodeId, Parts};
use book::nodes::Nodes;

// Here and not in `book`, where these would be public calls, which may not ask that a place is a node's; `listing` has its own. Places come out
// of rows, chains and the queue as numbers, so that each is one of the nodes' stands at each call. Structs with that bound would be no plainer:
// it takes two, of the nodes and of what is settled, and each call would first make one of its number, where the bound is asked again.

// the class of the node i
pub(crate) fn class_of(nodes: Nodes<'_>, i: usize) -> usize
    requires { i < length nodes.rows.now }
    ensures value { result ≡ class nodes.entry.rows.now i }
    ensures within { result ≤ i }
{
    nodes.rows[i].node.class as usize
}

// the parts of the node i
pub(crate) fn parts_of(nodes: Nodes<'_>, i: usize) -> Parts
    requires { i < length nodes.rows.now }
    ensures shape { shape_at (table nodes.entry.rows.now) i ≡ shape_over (bare (row nodes.entry.rows.now i).node.symbol) result }
    ensures lower { Below i result }
{
    let node = nodes.rows[i].node;
    match node.parts {
        0 => Parts::Zero,
        1 => Parts::One(NodeId(node.left as usize)),
        _ => Parts::Two(NodeId(node.left as usize), NodeId(node.right as usize)),
    }
}
