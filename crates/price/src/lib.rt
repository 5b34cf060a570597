// Price rules: the trait with its laws, and the rules bill, stock and steps.
#![tactic(auto)]

pub mod bill;
pub mod laws;
mod list;
pub mod rule;
pub mod steps;
pub mod stock;
