// Names, builds and the words of lines: what the bytes of a field are, what a refusal is, and what a fault cites.
#![tactic(auto)]

pub mod build;
pub mod cause;
pub mod cite;
pub mod fault;
pub mod kind;
pub mod name;
pub mod refusal;
pub mod scan;
pub mod word;
