// The priority queue: a heap over a lent slice of entries, for costs of any kind; the rule is lent to each call.
#![tactic(auto)]

ghost use Rattle.std.specs.Prelude.{◌≤◌, length};

mod calls;
mod sift;

/// A node, and what it costs.
#[derive(Clone, Copy, Debug, PartialEq, Eq)]
pub struct Entry<C> {
    pub cost: C,
    pub node: usize,
}

/// Entries at the front of a lent slice, as many as `count` says; what stands behind them is free.
// A slice with a count beside it, since the caller lends the memory; the rule is lent to each call, and not kept.
#[derive(Drop)]
pub struct Queue<'a, C> {
    entries: &'a mut [Entry<C>],
    count: usize,
    ghost within: { count ≤ length entries.now },
}
