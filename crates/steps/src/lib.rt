// What a line does to the reading of a file: rules' `step_of`, case by case, on the mode by value.
#![tactic(auto)]

pub mod headers;
pub mod lines;
pub mod modes;
pub mod records;
pub mod stops;
