// The nodes that wait to be chosen: each is put into the queue once, when its parts' classes are settled.
ghost use Rattle.std.specs.Prelude.{◌≡◌, ℕ, ◌<◌, ◌≤◌, true, false, length, MatchOption, Option};
ghost use Rattle.queue.specs.Queues.{held, First, Same, Popped};
ghost use Rattle.pricing.specs.Nodes.{links, chosen_at, ready_at, bare_rule};
ghost use Rattle.pricing.specs.Chains.{Chained, Linked};
ghost use Rattle.pricing.specs.Offers.{Waits, Offers, flag};

use crate::chain::Chains;
use crate::node::parts_of;
use crate::settled::Settled;
use book::id::Parts;
use book::nodes::Nodes;
use price::rule::PriceRule;
use queue::{Entry, Queue};

/// The queue, by a rule that is lent to each call, and which of the nodes were put into it. What is settled stands beside it and not in
/// one struct with it: of a `&mut` in a struct in a struct its lender does not learn what it held last.
// Flags by node, since nothing is allocated.
#[derive(Drop)]
pub(crate) struct Waiting<'a, R: PriceRule> {
    nodes: Nodes<'a>,
    queue: Queue<'a, R::Cost>,
    queued: [bool; 1024],
    ghost waits: { Waits R.below (length nodes.rows.now) queued queue },
}

impl<'a, R: PriceRule> Waiting<'a, R> {
    // none of the nodes waits yet
    pub(crate) fn none(nodes: Nodes<'a>, waiting: &'a mut [Entry<R::Cost>]) -> Self
        requires { length nodes.rows.now ≤ length waiting.old }
        ensures nodes { result.nodes ≡ nodes.entry }
        ensures empty { result.queue.count ≡ 0 }
        ensures low { (i : ℕ) → flag result.queued i ≡ false }
    {
        Waiting {
            nodes,
            queue: Queue::over(waiting),
            queued: [false; 1024],
        }
    }
}

// `nodes`, `offered` and `seen` relate what was before a call to what is after it, which no type says.
impl<R: PriceRule> Waiting<'_, R> {
    // puts the node i into the queue if its parts' classes are settled and it was not put there before
    fn offer(&mut self, rule: &R, settled: &Settled<'_, R::Cost>, i: usize)
        requires same { self.old.nodes ≡ settled.now.nodes }
        requires here { i < length settled.now.nodes.rows.now }
        ensures nodes { self.new.nodes ≡ self.old.nodes }
        ensures offered { Offers (bare_rule R.below R.alone R.one R.two rule.now) settled.now self.old.queued self.new.queued self.old.queue self.new.queue }
        ensures seen { ready_at settled.now.nodes.rows.now (links settled.now.chosen) i ≡ true → flag self.new.queued i ≡ true }
    {
        if self.queued[i] || !settled.is_ready(i) {
            return;
        }
        let cost = settled.cost_of(rule, i);
        self.queued[i] = true;
        self.queue.push(rule, Entry { cost, node: i });
    }

    // takes out the node that goes first; none where none waits
    pub(crate) fn pop(&mut self, rule: &R) -> Option<Entry<R::Cost>>
        ensures nodes { self.new.nodes ≡ self.old.nodes }
        ensures queued { self.new.queued ≡ self.old.queued }
        ensures after { MatchOption result ((self.old.queue.count ≡ 0) × Same self.old.queue self.new.queue) (λ x. Popped x self.old.queue self.new.queue) }
        ensures first { MatchOption result (self.old.queue.count ≡ 0) (λ x. First R.below x (held self.old.queue)) }
    {
        self.queue.pop(rule)
    }

    // offers each node without parts; while nothing is settled no other one is ready
    pub(crate) fn offer_leaves(&mut self, rule: &R, settled: &Settled<'_, R::Cost>)
        requires same { self.old.nodes ≡ settled.now.nodes }
        requires clear { (k : ℕ) → chosen_at (links settled.now.chosen) k ≡ None }
        ensures nodes { self.new.nodes ≡ self.old.nodes }
        ensures offered { Offers (bare_rule R.below R.alone R.one R.two rule.now) settled.now self.old.queued self.new.queued self.old.queue self.new.queue }
        ensures seen { (i : ℕ) → i < length settled.now.nodes.rows.now → ready_at settled.now.nodes.rows.now (links settled.now.chosen) i ≡ true → flag self.new.queued i ≡ true }
    {
        // by number, by which a node goes
        for i in 0..settled.nodes.rows.len() {
            if let Parts::Zero = parts_of(settled.nodes, i) {
                self.offer(rule, settled, i);
            }
        }
    }

    // offers each node of the chain of the class k
    pub(crate) fn offer_chain(
        &mut self,
        rule: &R,
        settled: &Settled<'_, R::Cost>,
        chains: &Chains,
        k: usize,
    )
        requires same { self.old.nodes ≡ settled.now.nodes }
        requires chained { Chained (length settled.now.nodes.rows.now) (links chains.now.first) (links chains.now.next) }
        requires class { k < 1024 }
        ensures nodes { self.new.nodes ≡ self.old.nodes }
        ensures offered { Offers (bare_rule R.below R.alone R.one R.two rule.now) settled.now self.old.queued self.new.queued self.old.queue self.new.queue }
        ensures seen { (by : ℕ → Option ℕ) → Linked (length settled.now.nodes.rows.now) by (links chains.now.first) (links chains.now.next) → (i : ℕ) → i < length settled.now.nodes.rows.now → by i ≡ Some k → ready_at settled.now.nodes.rows.now (links settled.now.chosen) i ≡ true → flag self.new.queued i ≡ true }
    {
        // by hand: for the closure of `successors` it would have to be said that each link lies in the array, and that they end
        let mut at = chains.first[k].node();
        while let Some(i) = at {
            self.offer(rule, settled, i);
            at = chains.next[i].node();
        }
    }
}
