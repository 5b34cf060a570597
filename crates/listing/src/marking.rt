// A book's nodes with a marking byte for each of their classes.
ghost use Rattle.std.specs.Prelude.{◌≤◌, length};

use book::nodes::Nodes;

/// A book's nodes, and at least as many marking bytes, to be read. The caller lends bytes: one that is not zero is a mark.
#[derive(Clone, Copy)]
pub(crate) struct Marking<'a> {
    pub(crate) nodes: Nodes<'a>,
    pub(crate) bytes: &'a [u8],
    ghost room: { length nodes.rows.now ≤ length bytes.now },
}
