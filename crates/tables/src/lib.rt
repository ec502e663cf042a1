// The two tables that a file is read into, two cells an element. Their format lives in this crate alone: the kinds of parts and rows,
// how numbers are packed into a cell, and how they are taken out again.
//
// Parts: those of all modules, one after the other. The first cell has the kind and the numbers, the second a name or a word's text.
// Rows: one for each module and each section, written when it closes. The first cell has the kind and the line of the header, the second
// the range of the module's parts, or of the section's rows.
#![tactic(auto)]

pub mod cells;
pub mod heads;
pub mod iter;
pub mod parts;
pub mod rows;
