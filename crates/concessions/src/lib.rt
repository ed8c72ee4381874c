// Concessions: exclusion, grandfathering and ramp-in, each a charge rule made over another; the rules as they are posted.
// Three types and no generic one, since each has a table and a formula of its own.
#![tactic(auto)]

pub mod allowances;
pub mod exclusion;
pub mod fault;
pub mod grandfathering;
pub mod posted;
pub mod ramp_in;
mod table;

ghost use Rattle.concessions.specs.Concessions.{EnteredDecides};
ghost use Rattle.concessions.specs.Examples.{Holds, examples};

// The worked concessions come out as they are written.
pub fn examples_hold()
    ensures { Holds examples }
{}

// What an entry is said to leave decides every look-up.
pub fn entered_decides()
    ensures { EnteredDecides }
{}
