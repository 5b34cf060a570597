// Entering a node.
ghost use Rattle.std.specs.Prelude.{◌≡◌, ◌-◌, ◌<◌, ◌≤◌, length, position, take};
ghost use Rattle.book.specs.Rows.{Tidy, Based};
ghost use Rattle.book.specs.Entering.{Within, same_signature, Put, placed, new_node, raw_of, asked};
ghost use Rattle.theory.specs.Calls.{Entering};
ghost use Rattle.book.specs.Layout.{Relaid};
ghost use Rattle.book.specs.Held.{contents, state};
ghost use Rattle.book.specs.Answers.{node_answer};

use crate::book::Book;
use crate::closing::unprice;
use crate::id::{NodeId, Parts, Symbol};
use crate::nodes::Nodes;
use crate::room::usable;
use crate::row::{Node, Row, Signature};
use text::cause::{BookCause, Layer};

// the node that is asked for, in a class of its own; as the promised layout of rows has it, parts are counted, and a missing one is 0
fn wanted(symbol: usize, parts: Parts, nodes: usize) -> Node
    requires { (symbol < 1024) × (nodes ≤ 1024) × Within parts nodes }
    ensures { result ≡ new_node symbol parts nodes }
{
    let (parts, left, right) = match parts {
        Parts::Zero => (0, 0, 0),
        Parts::One(p) => (1, p.0 as u16, 0),
        Parts::Two(p, q) => (2, p.0 as u16, q.0 as u16),
    };
    Node {
        symbol: symbol as u16,
        parts,
        left,
        right,
        class: nodes as u16,
        choice: 0,
    }
}

// stores the node in the last of the nodes' rows, in the class of a congruent one if there is one
fn put(rows: &mut [Row], node: Node)
    requires some { 0 < length rows.old }
    requires few { length rows.old ≤ 1024 }
    requires tidy { Tidy (placed rows.old (length rows.old - 1) node) (length rows.old) }
    requires based { Based (placed rows.old (length rows.old - 1) node) (length rows.old) }
    ensures { Put rows.old rows.new (length rows.old - 1) node }
{
    let last = rows.len() - 1;
    rows[last].node = node;
    let nodes = Nodes { rows };
    if let Some(i) = nodes.meeting() {
        rows[last].node.class = rows[i].node.class;
    }
}

impl Book<'_> {
    // the node that says what `node` says, if there is one
    fn known(&self, node: Node) -> Option<usize>
        ensures { result ≡ position (λ r. same_signature (raw_of r.node) (raw_of node)) (take self.now.table.nodes self.now.table.rows.now) }
    {
        let said = Signature::from(node);
        self.table.rows[..self.table.nodes]
            .iter()
            .position(|row| Signature::from(row.node) == said)
    }

    /// The node of a symbol over nodes: the known one, or else the next.
    #[tactic(auto, using(crate::proofs::Booked::laid_left))]
    pub fn enter(&mut self, symbol: Symbol, parts: Parts) -> Result<NodeId, Layer>
        ensures answer { Entering (state self.old.table) (asked symbol.0 parts) (node_answer result) (state self.new.table) }
        ensures laid { Relaid (contents self.old.table) (contents self.new.table) }
        ensures lent { self.new.table.rows.ghost_name ≡ self.old.table.rows.ghost_name }
    {
        if symbol.0 >= self.table.names {
            return Err(BookCause::NoSymbol.into());
        }
        let n = self.table.nodes;
        if !parts.within(n) {
            return Err(BookCause::NoNode.into());
        }
        let node = wanted(symbol.0, parts, n);
        if let Some(i) = self.known(node) {
            return Ok(NodeId(i));
        }
        if n >= usable(self.table.rows.len()) {
            return Err(BookCause::NodesFull.into());
        }
        let table = &mut self.table;
        let priced = table.priced;
        // `0..`, since of this form a proof keeps what stands behind it
        let rows = &mut table.rows[0..n + 1];
        put(rows, node);
        unprice(rows, priced);
        table.nodes = n + 1;
        table.priced = false;
        Ok(NodeId(n))
    }
}
