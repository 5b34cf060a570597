// What the trials and the benchmarks of a book share: a used row, a name and its node in one call, answers as printed, full books by calls.
#![tactic(auto)]

pub mod entering;
pub mod filling;
pub mod row;
pub mod shape;
pub mod told;
