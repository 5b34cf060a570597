// Pricing a book.
ghost use Rattle.std.specs.Prelude.{◌≡◌, ◌<◌, ◌≤◌, ◌⊎◌, length, IfErr, OnErr, OnOk};
ghost use Rattle.theory.specs.Costs.{LawfulOrder, cheaper_by};
ghost use Rattle.theory.specs.Books.{equations_in};
ghost use Rattle.theory.specs.Spelling.{CheapestBuilds};
ghost use Rattle.theory.specs.Calls.{Pricing};
ghost use Rattle.book.specs.Layout.{Relaid};
ghost use Rattle.book.specs.Held.{contents, state};
ghost use Rattle.pricing.specs.Told.{book_rule, done_answer, CostsTold};

use crate::settle::settle;
use crate::spread::store;
use book::book::Book;
use price::rule::PriceRule;
use queue::Entry;
use text::cause::{BookCause, Layer};

// refuses tables of which one has no row for some node
fn check(costs: usize, waiting: usize, nodes: usize) -> Result<(), BookCause>
    ensures long { OnOk result ((nodes ≤ costs) × (nodes ≤ waiting)) }
    ensures short { IfErr result (λ e. ((costs < nodes) ⊎ (waiting < nodes)) × (e ≡ BookCause.TooShort)) }
{
    if costs < nodes || waiting < nodes {
        return Err(BookCause::TooShort);
    }
    Ok(())
}

/// Settles the classes in stages and stores each node's choice, so that the book is priced by the rule; the cost table then holds what
/// each node's class costs. What the waiting table holds afterwards is free.
pub fn price<R: PriceRule>(
    book: &mut Book<'_>,
    rule: &R,
    costs: &mut [R::Cost],
    waiting: &mut [Entry<R::Cost>],
) -> Result<(), Layer>
    ensures answer { Pricing (state book.old.table) (cheaper_by (book_rule R.below R.alone R.one R.two rule.now (state book.old.table))) (length costs.old) (length waiting.old) (done_answer result) (state book.new.table) }
    ensures lawful { LawfulOrder (cheaper_by (book_rule R.below R.alone R.one R.two rule.now (state book.old.table))) }
    ensures costs { OnOk result (CostsTold (book_rule R.below R.alone R.one R.two rule.now (state book.old.table)) (state book.old.table) (state book.new.table) costs.old costs.new) }
    ensures cheapest { OnOk result (CheapestBuilds (equations_in (state book.new.table)) (cheaper_by (book_rule R.below R.alone R.one R.two rule.now (state book.old.table))) (state book.new.table)) }
    ensures same { OnErr result ((costs.new ≡ costs.old) × (waiting.new ≡ waiting.old)) }
    ensures laid { Relaid (contents book.old.table) (contents book.new.table) }
    ensures lent { book.new.table.rows.ghost_name ≡ book.old.table.rows.ghost_name }
{
    let nodes = book.table.nodes;
    check(costs.len(), waiting.len(), nodes)?;
    let chosen = settle(book.nodes(), rule, costs, waiting);
    store(&mut book.table, &chosen, costs);
    Ok(())
}
