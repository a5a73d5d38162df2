// Tables: one field is looked up from others.
//
// A pass over the cells that open indices select finds which values of x and which indices have
// support, and whether none, one or several cells can still be selected; the rows are then cut to
// what has support.
#![tactic(auto)]

pub mod book;
mod found;
mod narrowing;
pub mod reading;
pub mod record;
mod scan;
pub mod scope;
mod view;
