// Pricing a book: the cheapest node of each class, class by class, for every lawful price rule.
#![tactic(auto)]

// The arrays of this crate have 1024 rows: the most nodes that a book has, as the layout of its rows promises.
mod chain;
pub mod cheapest;
mod link;
mod node;
mod settle;
mod settled;
mod spread;
mod waiting;
