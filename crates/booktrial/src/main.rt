// Runs the worked examples of equality, and the refusals of a book, by calls. It prints 1 for yes, 0 for no, or the number of a refusal.
#![tactic(auto)]

use book::book::Book;
use book::id::{NodeId, Parts};
use book::row::Row;
use samples::entering::put;
use samples::row::USED;
use samples::told::Told;
use std::io;
use text::cause::Layer;

// f(x,b)
fn over(book: &mut Book<'_>, x: NodeId, b: NodeId) -> Result<NodeId, Layer> {
    put(book, b"f", Parts::Two(x, b))
}

// a = f(a,b): f(f(a,b),b), entered later, is the same as a
fn one_step(rows: &mut [Row]) -> Result<bool, Layer> {
    let mut book = Book::make(rows);
    let a = put(&mut book, b"a", Parts::Zero)?;
    let b = put(&mut book, b"b", Parts::Zero)?;
    let first = over(&mut book, a, b)?;
    book.equate(a, first)?;
    let second = over(&mut book, first, b)?;
    book.same(second, a)
}

// f(f(f(a,b),b),b) = a: is f(a,b) the same as a, alone and with f(f(f(f(f(a,b),b),b),b),b) = a as well?
fn three_and_five(rows: &mut [Row]) -> Result<(bool, bool), Layer> {
    let mut book = Book::make(rows);
    let a = put(&mut book, b"a", Parts::Zero)?;
    let b = put(&mut book, b"b", Parts::Zero)?;
    let first = over(&mut book, a, b)?;
    let second = over(&mut book, first, b)?;
    let third = over(&mut book, second, b)?;
    book.equate(third, a)?;
    let alone = book.same(first, a)?;
    let fourth = over(&mut book, third, b)?;
    let fifth = over(&mut book, fourth, b)?;
    book.equate(fifth, a)?;
    Ok((alone, book.same(first, a)?))
}

// s1 = s2: are s1(a) and s2(a) the same? And f(a) and f(a,a)?
fn names_apart(rows: &mut [Row]) -> Result<(bool, bool), Layer> {
    let mut book = Book::make(rows);
    let a = put(&mut book, b"a", Parts::Zero)?;
    let s1 = put(&mut book, b"s1", Parts::Zero)?;
    let s2 = put(&mut book, b"s2", Parts::Zero)?;
    book.equate(s1, s2)?;
    let left = put(&mut book, b"s1", Parts::One(a))?;
    let right = put(&mut book, b"s2", Parts::One(a))?;
    let one = put(&mut book, b"f", Parts::One(a))?;
    let two = put(&mut book, b"f", Parts::Two(a, a))?;
    Ok((book.same(left, right)?, book.same(one, two)?))
}

// a = b: are f(a,b), entered before, and f(b,b), entered after, the same?
fn above(rows: &mut [Row]) -> Result<bool, Layer> {
    let mut book = Book::make(rows);
    let a = put(&mut book, b"a", Parts::Zero)?;
    let b = put(&mut book, b"b", Parts::Zero)?;
    let left = over(&mut book, a, b)?;
    book.equate(a, b)?;
    let right = over(&mut book, b, b)?;
    book.same(left, right)
}

// whether a book over the rows grants a name
fn named(rows: &mut [Row], name: &[u8]) -> Told {
    Told(Book::make(rows).name(name).map(|_| 1))
}

// yes, no or a refusal
fn said(answer: Result<bool, Layer>) -> Told {
    Told(answer.map(usize::from))
}

// two answers, or the refusal that came before them
fn both(answers: Result<(bool, bool), Layer>) -> (Told, Told) {
    (said(answers.map(|a| a.0)), said(answers.map(|a| a.1)))
}

fn main(rt: HostRuntime) -> io::Result<()> {
    let mut rows = [USED; 16];
    let step = said(one_step(&mut rows));
    let (three, five) = both(three_and_five(&mut rows));
    let (over_equal, one_and_two) = both(names_apart(&mut rows));
    let meet = said(above(&mut rows));
    println!(rt; "{step} {three} {five} {over_equal} {one_and_two} {meet}")?;
    // a book of no rows, and names of 12 and of 13 bytes
    let full = named(&mut [USED; 0], b"a");
    let twelve = named(&mut rows, b"abcdefghijkl");
    let thirteen = named(&mut rows, b"abcdefghijklm");
    println!(rt; "{full} {twelve} {thirteen}")
}
