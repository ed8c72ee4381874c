// The engine as a program uses it: one book, the rules as they are posted, and what is done with them.
#![tactic(auto)]

pub mod charge;
pub mod concession;
pub mod engine;
