// Builds a full book by calls, in a shape, so that its instructions can be counted. It prints how many calls were granted.
// The arguments are the number of rows (128, 256, 512, or else 1,024), and the shape (`towers`, `falling`, or else `apart`); others count for
// nothing, and of two of a kind the last counts.
#![tactic(auto)]

use book::book::Book;
use samples::filling::fill;
use samples::row::USED;
use samples::shape::Shape;
use std::{env, io};

fn main(rt: HostRuntime) -> io::Result<()> {
    let mut table = [USED; 1024];
    let mut size = table.len();
    let mut shape = Shape::Apart;
    for word in env::args(&rt)? {
        match word.as_str() {
            "128" => size = 128,
            "256" => size = 256,
            "512" => size = 512,
            // the first is meant where none is named, and the others are not built here
            "apart" | "chain" | "tree" => {}
            word => if let Ok(named) = word.parse::<Shape>() {
                shape = named;
            },
        }
    }
    let size = size.min(table.len());
    let mut book = Book::make(&mut table[..size]);
    let filled = fill(&mut book, shape, size);
    println!(rt; "{filled}")
}
