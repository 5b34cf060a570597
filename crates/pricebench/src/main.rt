// Builds a full book by calls, in a shape, and prices it, so that the instructions can be counted. It prints how many calls were granted,
// and what pricing answered. The arguments are the number of rows (128, 256, 512, or else 1,024), the shape (`towers`, `falling`, `chain`,
// `tree`, or else `apart`) and the rule (`bill`, `stock`, `steps`, or else none, and the book is not priced); others count for nothing, and of
// two of a kind the last counts.
#![tactic(auto)]

ghost use Rattle.std.specs.Prelude.{◌*◌, ◌^◌, ◌<◌};
ghost use Rattle.std.specs.Mem.{type_size};
ghost use Rattle.queue.specs.contracts.Entry.{the_row as entry-row};

use book::book::Book;
use price::bill::Bill;
use price::rule::PriceRule;
use price::steps::Steps;
use price::stock::{Shortage, Stock};
use pricing::cheapest::price;
use queue::Entry;
use samples::filling::fill;
use samples::row::USED;
use samples::shape::Shape;
use samples::told::Told;
use std::{env, io};
use text::cause::Layer;
use text::kind::Rule;
use text::word::Word;

// a bill with a price for each of the first 64 symbols
fn some_bill() -> Result<Bill, Layer> {
    let mut bill = Bill::new();
    for i in 0..64 {
        bill.set(i, i * 100)?;
    }
    Ok(bill)
}

// a stock of the first 64 symbols
fn some_stock() -> Result<Stock, Layer> {
    let mut stock = Stock::new();
    for i in 0..64 {
        stock.list(i)?;
    }
    Ok(stock)
}

// prices the book in tables that are filled with the cost of nothing
fn price_with<R: PriceRule>(book: &mut Book<'_>, rule: &R, nothing: R::Cost) -> Result<(), Layer>
    requires costs { 1024 * type_size R.Cost.row < 2 ^ 63 }
    requires waiting { 1024 * type_size (entry-row R.Cost.row) < 2 ^ 63 }
{
    let mut costs = [nothing; 1024];
    let mut waiting = [Entry {
        cost: nothing,
        node: 0,
    }; 1024];
    price(book, rule, &mut costs, &mut waiting)
}

fn price_by(book: &mut Book<'_>, rule: Rule) -> Result<(), Layer> {
    match rule {
        Rule::Bill => price_with(book, &some_bill()?, 0),
        Rule::Stock => price_with(
            book,
            &some_stock()?,
            Shortage {
                missing: 0,
                names: 0,
            },
        ),
        Rule::Steps => price_with(book, &Steps, 0),
    }
}

fn main(rt: HostRuntime) -> io::Result<()> {
    let mut table = [USED; 1024];
    let mut size = table.len();
    let mut shape = Shape::Apart;
    let mut rule = None;
    // as in `bookbench`, and two shapes and the rule besides: a shared loop would need a case for what one of the two does not know
    for word in env::args(&rt)? {
        match word.as_str() {
            "128" => size = 128,
            "256" => size = 256,
            "512" => size = 512,
            // what is meant where no shape is named
            "apart" => {}
            word => if let Ok(named) = word.parse::<Shape>() {
                shape = named;
            } else if let Some(named) = Rule::of(word.as_bytes()) {
                rule = Some(named);
            },
        }
    }
    let size = size.min(table.len());
    let mut book = Book::make(&mut table[..size]);
    let filled = fill(&mut book, shape, size);
    let priced = Told(
        rule.map_or(Ok(()), |rule| price_by(&mut book, rule))
            .map(|()| 0),
    );
    println!(rt; "{filled} {priced}")
}
