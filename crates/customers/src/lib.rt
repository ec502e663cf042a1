// What a user of the linker can rely on: small customers of its public calls, and one of a load's lookup (lookups.rt), each with a
// contract in the user's own words (specs/Words.antt). None of them can be proved once the part of a promise on which it rests is
// gone.
#![tactic(auto)]

pub mod fresh;
pub mod high;
pub mod images;
pub mod loads;
pub mod lookups;
pub mod names;
pub mod pieces;
pub mod refused;
