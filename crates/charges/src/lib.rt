// Charge rules: what a rule means, the walk over a pair's rows, the five charges, and what a rule bills a coordinator.
#![tactic(auto)]

pub mod bid_segment;
pub mod figures;
pub mod group;
pub mod market_services;
pub mod quantity;
pub mod rule;
pub mod system_operations;
pub mod tor;
pub mod trade_fee;
pub mod walk;

ghost use Rattle.charges.specs.Examples.{Holds, examples};
ghost use Rattle.charges.specs.Laws.{ChargesBounded, FiguresArrive};

// What the walk comes to on a pair's rows is the charge.
pub fn figures_arrive()
    ensures { FiguresArrive }
{}

// Each charge is at most 400,000,000 for each of a pair's rows.
pub fn charges_bounded()
    ensures { ChargesBounded }
{}

// The worked charges come out as they are written.
pub fn examples_hold()
    ensures { Holds examples }
{}
