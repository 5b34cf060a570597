// The classes that are settled so far, and what they say of the nodes.
ghost use Rattle.std.specs.Prelude.{◌≡◌, ℕ, ◌<◌, ◌≤◌, length};
ghost use Rattle.book.specs.Rows.{class};
ghost use Rattle.pricing.specs.Nodes.{links, chosen_at, settled, ready_at, bare_rule, CostIs, ReadsAt, ChoicesIn};
ghost use Rattle.pricing.specs.Settling.{Chose};

use crate::link::Link;
use crate::node::{class_of, parts_of};
use book::id::Parts;
use book::nodes::Nodes;
use price::rule::PriceRule;
use queue::Entry;

/// The choice of each class that is settled, and what the class costs.
// Two arrays: the costs are the caller's table, which holds them afterwards, and nothing is allocated.
#[derive(Drop)]
pub(crate) struct Settled<'a, C> {
    pub nodes: Nodes<'a>,
    pub costs: &'a mut [C],
    pub chosen: [Link; 1024],
    ghost room: { length nodes.rows.now ≤ length costs.now },
    ghost choices: { ChoicesIn (length nodes.rows.now) (links chosen) },
}

impl<'a, C: Copy + Drop> Settled<'a, C> {
    // nothing is settled yet
    pub(crate) fn none(nodes: Nodes<'a>, costs: &'a mut [C]) -> Self
        requires { length nodes.rows.now ≤ length costs.old }
        ensures nodes { result.nodes ≡ nodes.entry }
        ensures clear { (k : ℕ) → chosen_at (links result.chosen) k ≡ None }
        ensures wide { length result.chosen ≡ 1024 }
        ensures costs { result.costs.now ≡ costs.old }
        ensures lent { result.costs.ghost_name ≡ costs.entry.ghost_name }
    {
        Settled {
            nodes,
            costs,
            chosen: [Link::none(); 1024],
        }
    }
}

impl<C: Copy + Drop> Settled<'_, C> {
    // whether the class of the node i is settled
    pub(crate) fn is_settled(&self, i: usize) -> bool
        requires { i < length self.now.nodes.rows.now }
        ensures { result ≡ settled (links self.now.chosen) (class self.now.nodes.rows.now i) }
    {
        self.chosen[class_of(self.nodes, i)].node().is_some()
    }

    // whether the classes of the node's parts are settled
    pub(crate) fn is_ready(&self, i: usize) -> bool
        requires { i < length self.now.nodes.rows.now }
        ensures { result ≡ ready_at self.now.nodes.rows.now (links self.now.chosen) i }
    {
        match parts_of(self.nodes, i) {
            Parts::Zero => true,
            Parts::One(p) => self.is_settled(p.0),
            Parts::Two(p, q) => self.is_settled(p.0) && self.is_settled(q.0),
        }
    }

    // the cost of the class of the node i
    fn class_cost(&self, i: usize) -> C
        requires { i < length self.now.nodes.rows.now }
        ensures { ReadsAt self.now.costs.now (class self.now.nodes.rows.now i) result }
    {
        self.costs[class_of(self.nodes, i)]
    }

    // the cost of the node i over the costs of its parts' classes
    pub(crate) fn cost_of<R: PriceRule<Cost = C>>(&self, rule: &R, i: usize) -> C
        requires { i < length self.now.nodes.rows.now }
        ensures { CostIs (bare_rule R.below R.alone R.one R.two rule.now) self.now.nodes.rows.now self.now.costs.now i result }
    {
        let symbol = self.nodes.rows[i].node.symbol as u32;
        match parts_of(self.nodes, i) {
            Parts::Zero => rule.cost_alone(symbol),
            Parts::One(p) => rule.cost_one(symbol, self.class_cost(p.0)),
            Parts::Two(p, q) => rule.cost_two(symbol, self.class_cost(p.0), self.class_cost(q.0)),
        }
    }

    // makes a node the choice of its class, and answers the class
    pub(crate) fn choose(&mut self, e: Entry<C>) -> usize
        requires { e.node < length self.old.nodes.rows.now }
        ensures value { result ≡ class self.old.nodes.rows.now e.node }
        ensures within { result ≤ e.node }
        ensures after { Chose self.old.nodes.rows.now e (links self.old.chosen) (links self.new.chosen) self.old.costs.now self.new.costs.now }
        ensures nodes { self.new.nodes ≡ self.old.nodes }
        ensures lent { self.new.costs.ghost_name ≡ self.old.costs.ghost_name }
    {
        let k = class_of(self.nodes, e.node);
        self.chosen[k] = Link::to(e.node);
        self.costs[k] = e.cost;
        k
    }
}
