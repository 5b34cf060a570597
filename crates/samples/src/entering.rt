// A name and its node in one call.
ghost use Rattle.std.specs.Prelude.{◌≡◌};
ghost use Rattle.book.specs.Answers.{node_answer};
ghost use Rattle.book.specs.Held.{contents, state};
ghost use Rattle.book.specs.Layout.{Relaid};
ghost use Rattle.samples.specs.Putting.{Putting};

use book::book::Book;
use book::id::{NodeId, Parts};
use text::cause::Layer;

/// The node of a name over nodes: the name is named, and then its symbol is entered over them.
pub fn put(book: &mut Book<'_>, name: &[u8], parts: Parts) -> Result<NodeId, Layer>
    ensures answer { Putting (state book.old.table) name.now parts (node_answer result) (state book.new.table) }
    ensures laid { Relaid (contents book.old.table) (contents book.new.table) }
    ensures lent { book.new.table.rows.ghost_name ≡ book.old.table.rows.ghost_name }
{
    let symbol = book.name(name)?;
    book.enter(symbol, parts)
}
