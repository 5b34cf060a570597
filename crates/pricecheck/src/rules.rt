// The costs of the three rules, up to STOP and past it.
use price::bill::Bill;
use price::rule::{PriceRule, STOP};
use price::steps::Steps;
use price::stock::{Shortage, Stock};

const A: u32 = 1;

const F: u32 = 2;

/// With f at 0 and a at 5.
pub fn bill_costs() -> [u32; 4] {
    let mut bill = Bill::new();
    let unlisted = bill.cost_alone(A);
    let _ = bill.set(F, 0);
    let _ = bill.set(A, 5);
    let a = bill.cost_alone(A);
    let fa = bill.cost_one(F, a);
    [unlisted, a, fa, bill.cost_two(F, fa, fa)]
}

/// With a at 10,000.
pub fn bill_sums() -> [u32; 5] {
    let mut bill = Bill::new();
    let _ = bill.set(A, 10_000);
    [
        bill.cost_one(A, STOP - 10_001),
        bill.cost_one(A, STOP - 10_000),
        bill.cost_one(A, STOP - 9_999),
        bill.cost_two(F, STOP - 2, 1),
        bill.cost_two(F, STOP, STOP),
    ]
}

fn pair(missing: u32, names: u32) -> Shortage {
    Shortage { missing, names }
}

/// With a on the list.
pub fn stock_costs() -> [Shortage; 4] {
    let mut stock = Stock::new();
    let _ = stock.list(A);
    [
        stock.cost_alone(A),
        stock.cost_alone(F),
        stock.cost_one(F, pair(0, 1)),
        stock.cost_two(F, pair(1, 2), pair(1, 2)),
    ]
}

/// Of an unlisted symbol: the two counts stop together.
pub fn pair_sums() -> [Shortage; 7] {
    let stock = Stock::new();
    [
        stock.cost_one(F, pair(STOP, 7)),
        stock.cost_one(F, pair(STOP - 2, 7)),
        stock.cost_one(F, pair(STOP - 1, 7)),
        stock.cost_one(F, pair(3, STOP)),
        stock.cost_two(F, pair(STOP - 3, 1), pair(1, 1)),
        stock.cost_two(F, pair(STOP - 2, 1), pair(1, 1)),
        stock.cost_two(F, pair(STOP, STOP), pair(STOP, STOP)),
    ]
}

pub fn steps_costs() -> [u32; 6] {
    let steps = Steps;
    [
        steps.cost_alone(A),
        steps.cost_one(F, 0),
        steps.cost_two(F, 3, 9),
        steps.cost_one(F, STOP - 1),
        steps.cost_one(F, STOP),
        steps.cost_two(F, STOP, 0),
    ]
}
