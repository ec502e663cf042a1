// The types that the definitions of specs/ and the code of the crates above share, and how an outcome becomes an answer.
#![tactic(auto)]

pub mod answer;
pub mod limits;
pub mod line;
pub mod lookup;
pub mod outcome;
pub mod reading;
