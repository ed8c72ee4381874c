// The day sheet: what its bytes say, and the five questions that it has to pass.
#![tactic(auto)]

pub mod check;
pub mod fault;
pub mod kind;
pub mod pair;
pub mod row;
pub mod rows;
pub mod sheet;
mod table;
