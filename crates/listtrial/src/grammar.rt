// Lists the grammar of a small book: a = f(b,c), b = g(a,c), and x, which is not reached from a.
use book::book::Book;
use book::id::{NodeId, Parts};
use book::row::Row;
use listing::list::list;
use listing::production::Production;
use samples::entering::put;
use samples::told::Told;
use std::io;
use text::cause::Layer;

const NOTHING: Production = Production {
    of: 9,
    symbol: 9,
    parts: 9,
    left: 9,
    right: 9,
};

// the small book, and its node a
fn small(rows: &mut [Row]) -> Result<(Book<'_>, NodeId), Layer> {
    let mut book = Book::make(rows);
    let a = put(&mut book, b"a", Parts::Zero)?;
    let b = put(&mut book, b"b", Parts::Zero)?;
    let c = put(&mut book, b"c", Parts::Zero)?;
    put(&mut book, b"x", Parts::Zero)?;
    let fbc = put(&mut book, b"f", Parts::Two(b, c))?;
    let gac = put(&mut book, b"g", Parts::Two(a, c))?;
    book.equate(a, fbc)?;
    book.equate(b, gac)?;
    Ok((book, a))
}

// how many marking bytes are not zero
fn left_over(marks: &[u8]) -> usize {
    marks.iter().filter(|m| **m != 0).count()
}

// printed here alone, so a production has no `Display`
fn say(rt: &HostRuntime, out: &[Production]) -> io::Result<()> {
    for p in out {
        println!(rt; "{}: {} {} {} {}", p.of, p.symbol, p.parts, p.left, p.right)?;
    }
    Ok(())
}

/// Prints a listing with a row of output to spare, and then what is refused: marking bytes too few, output too short, no such node.
pub fn grammar(rt: &HostRuntime, rows: &mut [Row]) -> io::Result<()> {
    match small(rows) {
        Ok((book, a)) => list_small(rt, &book, a),
        Err(cause) => println!(rt; "refused {}", Told(Err(cause))),
    }
}

fn list_small(rt: &HostRuntime, book: &Book<'_>, a: NodeId) -> io::Result<()> {
    let mut marks = [5; 6];
    let mut out = [NOTHING; 6];
    let count = Told(list(book, a, &mut marks, &mut out));
    let left = left_over(&marks);
    println!(rt; "productions {count}, marks {left}")?;
    say(rt, &out)?;
    let mut few = [5; 5];
    let mut short = [NOTHING; 4];
    let few_marks = Told(list(book, a, &mut few, &mut out));
    let short_out = Told(list(book, a, &mut marks, &mut short));
    let nowhere = Told(list(book, NodeId(6), &mut few, &mut out));
    let left = left_over(&few);
    println!(rt; "refused {few_marks} {short_out} {nowhere}, marks {left}")?;
    say(rt, &short)
}
