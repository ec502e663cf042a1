// The search of a library section, over the tables.
#![tactic(auto)]

pub mod candidates;
pub mod library;
pub mod modules;
pub mod rounds;
pub mod visits;
