// A book over lent rows, with what is true of every book in its type. Its calls stand in `naming`, `entering`, `equating` and `asking`.
ghost use Rattle.std.specs.Prelude.{◌≡◌, min, length};
ghost use Rattle.theory.specs.Books.{fresh};
ghost use Rattle.book.specs.Layout.{Remade};
ghost use Rattle.book.specs.Held.{Holds, contents, state};

use crate::making::clear;
use crate::row::Row;
use crate::table::Table;

// `laid` and `lent` stand at each call: they relate the rows before it to the rows after it, which no type says.
#[derive(Drop)]
pub struct Book<'a> {
    pub table: Table<'a>,
    ghost holds: { Holds table },
}

impl<'a> Book<'a> {
    /// A book that holds nothing, over rows that are cleared. Rows past the first 1,024 are neither read nor cleared.
    pub fn make(rows: &'a mut [Row]) -> Book<'a>
        ensures state { state result.table ≡ fresh (min (length rows.old) 1024) }
        ensures laid { Remade rows.old (contents result.table) }
        ensures lent { result.table.rows.ghost_name ≡ rows.entry.ghost_name }
    {
        clear(rows);
        Book {
            table: Table {
                rows,
                names: 0,
                nodes: 0,
                equations: 0,
                priced: false,
            },
        }
    }
}
