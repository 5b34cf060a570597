// Runs the price rules, their lists and the queue on examples; what it writes is compared.
#![tactic(auto)]

mod drain;
mod lists;
mod rules;
mod shown;

use crate::drain::{lent_slice, number_queue, pair_queue};
use crate::lists::{full_bill, full_stock, priced, stocked};
use crate::rules::{bill_costs, bill_sums, pair_sums, steps_costs, stock_costs};
use crate::shown::Shown;
use std::io;

// A line of what was found.
fn say<T: Copy + Into<Shown>>(rt: &HostRuntime, what: &str, found: &[T]) -> io::Result<()> {
    print!(rt; "{what}:")?;
    for x in found {
        let shown: Shown = (*x).into();
        print!(rt; " {shown}")?;
    }
    println!(rt; "")
}

fn main(rt: HostRuntime) -> io::Result<()> {
    say(
        &rt,
        "bill: unlisted, a at 5, f(a), f(f(a),f(a))",
        &bill_costs(),
    )?;
    say(&rt, "bill: up to STOP, at it, past it", &bill_sums())?;
    say(
        &rt,
        "stock: a listed, f not, f(a), f(f(a),f(a))",
        &stock_costs(),
    )?;
    say(&rt, "stock: up to STOP, at it, past it", &pair_sums())?;
    say(
        &rt,
        "steps: a, f(a), f over 3 and 9, up to STOP, at it",
        &steps_costs(),
    )?;
    say(&rt, "prices: 10000 and 10001, set and kept", &priced())?;
    say(
        &rt,
        "bill of 64, the 65th, a listed one, another",
        &full_bill(),
    )?;
    say(&rt, "stock: listed twice, and has", &stocked())?;
    say(&rt, "stock of 64, the 65th, a listed one", &full_stock())?;
    say(&rt, "queue of numbers", &number_queue())?;
    say(&rt, "queue of pairs", &pair_queue())?;
    say(&rt, "queue over a slice of one", &lent_slice())
}
