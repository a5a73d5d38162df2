// Settling: every rule of a book is narrowed, round after round, until nothing changes.
//
// All of it is generic over the kind of row and the book. What is left is the largest standing
// choice within the rows given, and without a ring exactly the values of full settings.
#![tactic(auto)]

mod labels;
mod lawful_book;
pub mod outcome;
pub mod rings;
mod rounds;
pub mod settling;
pub mod theorems;
