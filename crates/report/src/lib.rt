// Printed rows, made into buffers that the caller lends: nothing here allocates.
#![tactic(auto)]

pub mod checked;
pub mod decimal;
pub mod row;
