// Drafts: fields, tables, cells and frames are entered one by one, and what is wrong with an entry
// is told before anything changes.
#![tactic(auto)]

mod book;
mod cells;
pub mod fault;
mod fields;
mod frame_parts;
mod heads;
pub mod memory;
mod pairs;
mod reading;
pub mod state;
pub mod theorems;
