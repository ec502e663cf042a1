// Feed memory: its layout, the test that it is sound, and the bytes in its cells.
#![tactic(auto)]

pub mod bytes;
pub mod layout;
pub mod memory;
