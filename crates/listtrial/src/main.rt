// Runs a listing by calls, and what it refuses. A production is printed as its class, symbol, number of parts and the classes of these.
#![tactic(auto)]

mod grammar;

use crate::grammar::grammar;
use samples::row::USED;
use std::io;

fn main(rt: HostRuntime) -> io::Result<()> {
    grammar(&rt, &mut [USED; 16])
}
