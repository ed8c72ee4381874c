// The year book's model and its law: what the book is, when each call is refused, what an accepted one does.
#![tactic(auto)]

pub mod shares;

ghost use Rattle.year.specs.Consequences.{Consequences};
ghost use Rattle.year.specs.Examples.{Examples};
ghost use Rattle.year.specs.Spread.{SpreadLawForAll};
ghost use Rattle.year.specs.Year.{YearLawForAll};

// The law of spreading.
pub fn spread_law_holds()
    ensures { SpreadLawForAll }
{}

// The year law: what holds after every list of calls.
pub fn year_law_holds()
    ensures { YearLawForAll }
{}

// What the year law comes to.
pub fn consequences_hold()
    ensures { Consequences }
{}

// The worked examples.
pub fn examples_hold()
    ensures { Examples }
{}
