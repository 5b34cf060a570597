// Listing: the grammar of a node's class, production by production.
#![tactic(auto)]

pub mod list;
mod mark;
mod marking;
mod place;
pub mod production;
mod write;
