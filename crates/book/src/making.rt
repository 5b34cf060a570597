// Making a book: its rows are cleared.
ghost use Rattle.std.specs.Prelude.{min, length};
ghost use Rattle.book.specs.Changes.{Cleared};

use crate::room::usable;
use crate::row::{Equation, Node, Row};

// a row that holds nothing; written out, since a derived `Default` is no constant
const BLANK: Row = Row {
    name: [0; 12],
    node: Node {
        symbol: 0,
        parts: 0,
        left: 0,
        right: 0,
        class: 0,
        choice: 0,
    },
    equation: Equation { left: 0, right: 0 },
};

// clears the rows that a book may use
pub(crate) fn clear(rows: &mut [Row])
    ensures { Cleared rows.old rows.new (min (length rows.old) 1024) }
{
    let room = usable(rows.len());
    rows[..room].fill(BLANK);
}
