// Lines and records: what the lines of a log and a sheet say, what is refused, and where.
#![tactic(auto)]

pub mod field;
mod form;
pub mod lines;
mod number;
pub mod record;
pub mod screen;
