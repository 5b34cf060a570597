// What the lists of the rules answer, up to 64 symbols and past them.
use crate::shown::Shown;
use price::bill::Bill;
use price::rule::STOP;
use price::stock::Stock;
use text::cause::Layer;

/// 10,000 may be set, and 10,001 is refused and changes nothing.
pub fn priced() -> [Shown; 6] {
    let mut bill = Bill::new();
    let dear = bill.set(4, 10_000);
    let set = bill.price(4);
    let dearer = bill.set(4, 10_001);
    let kept = bill.price(4);
    let unlisted = bill.set(5, 10_001);
    [
        dear.into(),
        set.into(),
        dearer.into(),
        kept.into(),
        unlisted.into(),
        bill.price(5).into(),
    ]
}

// The prices 100, 101, .. of the symbols from 0 on, added up.
fn fill_bill(bill: &mut Bill, count: u32) -> Result<u32, Layer> {
    let mut sum: u32 = 0;
    // a loop: each step changes the bill and asks it
    for i in 0..count {
        bill.set(i, i.saturating_add(100))?;
        sum = sum.saturating_add(bill.price(i));
    }
    Ok(sum)
}

/// The 65th symbol is refused; a listed one gets its price, and another keeps its own.
pub fn full_bill() -> [Shown; 7] {
    let mut bill = Bill::new();
    let sum = fill_bill(&mut bill, 64);
    let late = bill.set(STOP, 7);
    let dear = bill.set(STOP, 10_001);
    let none = bill.price(STOP);
    let listed = bill.set(63, 7);
    [
        sum.into(),
        late.into(),
        dear.into(),
        none.into(),
        listed.into(),
        bill.price(63).into(),
        bill.price(62).into(),
    ]
}

/// Listing a listed symbol is granted.
pub fn stocked() -> [Shown; 4] {
    let mut stock = Stock::new();
    let first = stock.list(3);
    let again = stock.list(3);
    [
        first.into(),
        again.into(),
        stock.has(3).into(),
        stock.has(4).into(),
    ]
}

// Lists the highest symbols.
fn fill_stock(stock: &mut Stock, count: u32) -> Result<(), Layer> {
    for i in 0..count {
        stock.list(STOP - i)?;
    }
    Ok(())
}

/// The 65th symbol is refused; a listed one is granted.
pub fn full_stock() -> [Shown; 5] {
    let mut stock = Stock::new();
    let filled = fill_stock(&mut stock, 64);
    let late = stock.list(0);
    let none = stock.has(0);
    let listed = stock.list(STOP - 63);
    [
        filled.into(),
        late.into(),
        none.into(),
        listed.into(),
        stock.has(STOP).into(),
    ]
}
