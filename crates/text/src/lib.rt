// The lowest layer of the reader: line ends, fields, numbers and names, over the lent file.
#![tactic(auto)]

pub mod fields;
pub mod lines;
pub mod markers;
pub mod names;
pub mod numbers;
pub mod scan;
