// A row of a book: a place for one name, one node and one equation. How it is laid is promised to the byte, so a missing part and a
// choice that was not made are zeros here, and not an `Option`: see `specs/Layout.antt`.
ghost use Rattle.std.specs.Prelude.{◌≡◌};
ghost use Rattle.book.specs.Entering.{raw_of};

/// A symbol over as many parts as `parts` says, the others 0; its class; and 1 more than the node that was chosen for it, or 0.
#[derive(Clone, Copy, Debug, PartialEq, Eq)]
pub struct Node {
    pub symbol: u16,
    pub parts: u8,
    pub left: u16,
    pub right: u16,
    pub class: u16,
    pub choice: u16,
}

/// Two nodes that are said to be equal.
#[derive(Clone, Copy, Debug, PartialEq, Eq)]
pub struct Equation {
    pub left: u16,
    pub right: u16,
}

/// A name's bytes and then zeros, a node and an equation, each with a number of its own.
#[derive(Clone, Copy, Debug, PartialEq, Eq)]
pub struct Row {
    pub name: [u8; 12],
    pub node: Node,
    pub equation: Equation,
}

/// What a node says: a symbol, the number of parts, and the parts or their classes.
#[derive(Clone, Copy, Debug, PartialEq, Eq)]
pub struct Signature {
    pub symbol: u16,
    pub parts: u8,
    pub left: u16,
    pub right: u16,
}

impl From<Node> for Signature {
    ghost from_gives = { λ x s. s ≡ raw_of x };

    fn from(node: Node) -> Signature {
        Signature {
            symbol: node.symbol,
            parts: node.parts,
            left: node.left,
            right: node.right,
        }
    }
}
