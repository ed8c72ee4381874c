// The year book: its coordinators, and the calls that change and read them.
#![tactic(auto)]

pub mod book;
pub mod bounds;
pub mod coordinator;
pub mod coordinators;
pub mod fault;
mod lines;
pub mod side;
mod spreading;
pub mod terms;
