// Asking which nodes are equal.
ghost use Rattle.std.specs.Prelude.{◌≡◌, ◌<◌, ◌≤◌, take, MatchResult};
ghost use Rattle.theory.specs.Calls.{Sameness, Classing};
ghost use Rattle.book.specs.Rows.{class};
ghost use Rattle.book.specs.Held.{state};
ghost use Rattle.book.specs.Answers.{test_answer, node_answer};
ghost use Rattle.text.specs.declared.cause.BookCause.TheVariants as cause;

use crate::book::Book;
use crate::id::NodeId;
use crate::nodes::Nodes;
use text::cause::{BookCause, Layer};

impl Book<'_> {
    // the number of a node's class
    fn class_of(&self, a: NodeId) -> Result<u16, BookCause>
        ensures { MatchResult result (λ k. (a.0 < self.now.table.nodes) × (k ≡ class self.now.table.rows.now a.0)) (λ e. (self.now.table.nodes ≤ a.0) × (e ≡ cause.NoNode)) }
    {
        let nodes = &self.table.rows[..self.table.nodes];
        let row = nodes.get(a.0).ok_or(BookCause::NoNode)?;
        Ok(row.node.class)
    }

    /// Whether the builds of two nodes are equal by the accepted equations.
    pub fn same(&self, a: NodeId, b: NodeId) -> Result<bool, Layer>
        ensures answer { Sameness (state self.now.table) a.0 b.0 (test_answer result) (state self.now.table) }
    {
        Ok(self.class_of(a)? == self.class_of(b)?)
    }

    /// The lowest node whose build is equal to that of the node.
    pub fn class(&self, a: NodeId) -> Result<NodeId, Layer>
        ensures answer { Classing (state self.now.table) a.0 (node_answer result) (state self.now.table) }
    {
        Ok(NodeId(self.class_of(a)? as usize))
    }

    /// The rows of the nodes, lent to be read.
    pub fn nodes(&self) -> Nodes<'_>
        ensures { result.rows.now ≡ take self.now.table.nodes self.now.table.rows.now }
    {
        Nodes {
            rows: &self.table.rows[..self.table.nodes],
        }
    }
}
