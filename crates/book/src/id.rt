// The numbers that a book gives out: of names, of nodes and of equations, each counted from 0. Three types, so that none is taken for
// another.
ghost use Rattle.std.specs.Prelude.{◌≡◌, Decides};
ghost use Rattle.book.specs.Entering.{Within};

/// The number of a name.
#[derive(Clone, Copy, Debug, PartialEq, Eq)]
pub struct Symbol(pub usize);

/// The number of a node.
#[derive(Clone, Copy, Debug, PartialEq, Eq)]
pub struct NodeId(pub usize);

/// The number of an equation.
#[derive(Clone, Copy, Debug, PartialEq, Eq)]
pub struct EquationId(pub usize);

/// The nodes that a symbol is to stand over.
#[derive(Clone, Copy, Debug, PartialEq, Eq)]
pub enum Parts {
    Zero,
    One(NodeId),
    Two(NodeId, NodeId),
}

impl Parts {
    // whether all are of the first so many nodes
    pub(crate) fn within(self, nodes: usize) -> bool
        ensures { Decides result (Within self nodes) }
    {
        match self {
            Parts::Zero => true,
            Parts::One(p) => p.0 < nodes,
            Parts::Two(p, q) => p.0 < nodes && q.0 < nodes,
        }
    }
}
