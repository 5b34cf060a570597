// A row that holds what no book left there.
use book::row::{Equation, Node, Row};

/// Sevens throughout: a book that is made over such rows has to clear them.
pub const USED: Row = Row {
    name: [7; 12],
    node: Node {
        symbol: 7,
        parts: 7,
        left: 7,
        right: 7,
        class: 7,
        choice: 7,
    },
    equation: Equation { left: 7, right: 7 },
};
