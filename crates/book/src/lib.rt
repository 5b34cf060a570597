// The book: rows of names, nodes and equations, and which builds the equations make equal.
#![tactic(auto)]

mod asking;
pub mod book;
mod closing;
mod entering;
mod equating;
pub mod id;
pub mod layout;
mod making;
mod naming;
pub mod nodes;
mod room;
pub mod row;
pub mod table;
