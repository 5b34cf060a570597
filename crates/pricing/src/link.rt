// A node or none in two bytes.
ghost use Rattle.std.specs.Prelude.{◌≡◌, ◌<◌, Some, None};
ghost use Rattle.pricing.specs.Nodes.{one_more, node_of};

/// A node, or none: 1 more than the node, or 0. Half as wide as an `Option` of a number, since arrays of these are cleared at each pricing.
#[derive(Clone, Copy)]
pub(crate) struct Link(u16);

impl Link {
    pub(crate) fn none() -> Link
        ensures { node_of result ≡ None }
    {
        Link(0)
    }

    pub(crate) fn to(node: usize) -> Link
        requires { node < 1024 }
        ensures { node_of result ≡ Some node }
    {
        Link(node as u16 + 1)
    }

    pub(crate) fn node(self) -> Option<usize>
        ensures { result ≡ node_of self }
    {
        match self.0 {
            0 => None,
            kept => Some(kept as usize - 1),
        }
    }

    // what a row keeps of a choice, as the layout of rows has it
    pub(crate) fn kept(self) -> u16
        ensures { result ≡ one_more (node_of self) }
    {
        self.0
    }
}
