// The layout of state memory, and the functions that read and change what it holds.
// Kept: state memory is cells that C lends, and each function here asks `Good` of them. In a struct around them, with that as a ghost
// field, each function that writes would have to say in its place that the struct still holds the same cells.
#![tactic(auto)]

pub mod header;
pub mod layout;
pub mod memory;
pub mod table;
pub mod words;
