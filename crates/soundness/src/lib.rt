// The soundness of state memory: is it the encoding of a sound state?
#![tactic(auto)]

pub mod cells;
pub mod memory;
pub mod name;
