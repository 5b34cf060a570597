// Giving each node what its class has, so that the book is priced.
ghost use Rattle.std.specs.Prelude.{◌≡◌, ◌<◌, ◌≤◌, length};
ghost use Rattle.book.specs.Rows.{Based};
ghost use Rattle.book.specs.Held.{Holds, contents};
ghost use Rattle.pricing.specs.Nodes.{links};
ghost use Rattle.pricing.specs.Settling.{Spread, priced_with};

use crate::link::Link;
use book::row::Row;
use book::table::Table;

// stores in each node's row the choice of its class, and in its row of the cost table the cost of its class; costs are read and written
// at different places of one table, so the loop counts; `nodes` stands beside the rows, since it is promised that the rows behind them stay
fn spread<C: Copy + Drop>(rows: &mut [Row], nodes: usize, chosen: &[Link; 1024], costs: &mut [C])
    requires fits { (nodes ≤ length rows.old) × (nodes ≤ 1024) × (nodes ≤ length costs.old) }
    requires based { Based rows.old nodes }
    ensures { Spread rows.old rows.new nodes (links chosen.now) costs.old costs.new }
{
    for i in 0..nodes {
        let k = rows[i].node.class as usize;
        rows[i].node.choice = chosen[k].kept();
        costs[i] = costs[k];
    }
}

// the same in the rows of a book, which is priced then
pub(crate) fn store<C: Copy + Drop>(table: &mut Table<'_>, chosen: &[Link; 1024], costs: &mut [C])
    requires holds { Holds table.old }
    requires room { table.old.nodes ≤ length costs.old }
    ensures spread { Spread table.old.rows.now table.new.rows.now table.old.nodes (links chosen.now) costs.old costs.new }
    ensures after { contents table.new ≡ priced_with (contents table.old) table.new.rows.now }
    ensures lent { table.new.rows.ghost_name ≡ table.old.rows.ghost_name }
{
    spread(table.rows, table.nodes, chosen, costs);
    table.priced = true;
}
