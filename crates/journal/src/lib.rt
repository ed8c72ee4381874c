// A year in the book: entries taken in turn, under the year law.
#![tactic(auto)]

pub mod entry;
pub mod kept_book;
pub mod kept_year;
