// Settling the classes in stages.
ghost use Rattle.std.specs.Prelude.{◌≡◌, ℕ, ◌≤◌, length};
ghost use Rattle.pricing.specs.Nodes.{links, bare_rule, chosen_at, ChoicesIn};
ghost use Rattle.pricing.specs.Settling.{Settles};

use crate::chain::{Chains, Side};
use crate::link::Link;
use crate::settled::Settled;
use crate::waiting::Waiting;
use book::nodes::Nodes;
use price::rule::PriceRule;
use queue::Entry;

// the stages, one after another: the queue yields the cheapest node that is ready, and of equals the lowest
fn stages<R: PriceRule>(
    settled: &mut Settled<'_, R::Cost>,
    rule: &R,
    waiting: &mut [Entry<R::Cost>],
)
    requires clear { (k : ℕ) → chosen_at (links settled.old.chosen) k ≡ None }
    requires wide { length settled.old.chosen ≡ 1024 }
    requires room { length settled.old.nodes.rows.now ≤ length waiting.old }
    ensures lent { settled.new.costs.ghost_name ≡ settled.old.costs.ghost_name }
    ensures settles { Settles (bare_rule R.below R.alone R.one R.two rule.now) settled.old.nodes.rows.now (links settled.new.chosen) settled.old.costs.now settled.new.costs.now }
    ensures nodes { settled.new.nodes ≡ settled.old.nodes }
{
    let nodes = settled.nodes;
    let mut left = Chains::none();
    left.link(nodes, Side::Left);
    let mut right = Chains::none();
    right.link(nodes, Side::Right);
    let mut ready: Waiting<'_, R> = Waiting::none(nodes, waiting);
    ready.offer_leaves(rule, settled);
    while let Some(e) = ready.pop(rule) {
        if settled.is_settled(e.node) {
            continue;
        }
        let k = settled.choose(e);
        ready.offer_chain(rule, settled, &left, k);
        ready.offer_chain(rule, settled, &right, k);
    }
}

// settles every class: answers the choice of each, and `costs` then has what each costs
pub(crate) fn settle<R: PriceRule>(
    nodes: Nodes<'_>,
    rule: &R,
    costs: &mut [R::Cost],
    waiting: &mut [Entry<R::Cost>],
) -> [Link; 1024]
    requires { (length nodes.rows.now ≤ length costs.old) × (length nodes.rows.now ≤ length waiting.old) }
    ensures settles { Settles (bare_rule R.below R.alone R.one R.two rule.now) nodes.entry.rows.now (links result) costs.old costs.new }
    ensures choices { ChoicesIn (length nodes.entry.rows.now) (links result) }
{
    let mut settled = Settled::none(nodes, costs);
    stages(&mut settled, rule, waiting);
    settled.chosen
}
