// Why the book refuses a call. A sheet's fault stands whole in it.
ghost use Rattle.std.specs.Prelude.{◌≡◌};
ghost use Rattle.yearbook.specs.Faults.{book_fault};
ghost use Rattle.yearbook.specs.declared.fault.BookFault.TheVariants.{Sheet};

use questions::Layer;
use questions::fault::{Fault, write_fault};
use sheet::fault::SheetFault;
use std::fmt;

// A case with a place holds it: the row or the coordinator, from 0.
#[derive(Clone, Copy, PartialEq, Eq, Debug)]
pub enum BookFault {
    Sheet(SheetFault),
    Lists,
    Terms(usize),
    RateOrDay,
    UnknownCoordinator(usize),
    Posted,
    MarketBalance(usize),
    Coordinator,
    Amount,
    RcBalance,
    Assessed,
    Charge,
    NoCarrier,
}

// By hand, since a `?` goes by what `from_gives` says.
impl From<SheetFault> for BookFault {
    ghost from_gives = { λ x y. y ≡ Sheet x };

    fn from(fault: SheetFault) -> BookFault {
        BookFault::Sheet(fault)
    }
}

impl Fault for BookFault {
    ghost refusal = { book_fault };

    fn question(&self) -> u8 {
        match self {
            BookFault::Sheet(fault) => fault.question(),
            BookFault::Lists => 6,
            BookFault::Terms(_) => 7,
            BookFault::RateOrDay => 8,
            BookFault::UnknownCoordinator(_) => 9,
            BookFault::Posted => 10,
            BookFault::MarketBalance(_) => 11,
            BookFault::Coordinator => 12,
            BookFault::Amount => 13,
            BookFault::RcBalance => 14,
            BookFault::Assessed => 15,
            BookFault::Charge => 16,
            BookFault::NoCarrier => 17,
        }
    }

    fn layer(&self) -> Layer {
        match self {
            BookFault::Sheet(fault) => fault.layer(),
            BookFault::RcBalance | BookFault::Assessed | BookFault::Charge | BookFault::NoCarrier =>
                Layer::Rc,
            _ => Layer::Book,
        }
    }

    fn place(&self) -> usize {
        match self {
            BookFault::Sheet(fault) => fault.place(),
            BookFault::UnknownCoordinator(row) => *row,
            BookFault::Terms(coordinator) | BookFault::MarketBalance(coordinator) => *coordinator,
            _ => 0,
        }
    }

    fn reason(&self) -> &'static str {
        match self {
            BookFault::Sheet(fault) => fault.reason(),
            BookFault::Lists => "demands and flags are not equally many, from 1 to 64",
            BookFault::Terms(_) =>
                "demand beyond 50,000,000, flag not 0 or 1, or flagged with demand",
            BookFault::RateOrDay => "the rate is beyond 10,000,000 or the day is not from 1 to 366",
            BookFault::UnknownCoordinator(_) => "the row's coordinator is not in the book",
            BookFault::Posted => "the code is already posted for that day",
            BookFault::MarketBalance(_) => "the market balance would leave its bounds",
            BookFault::Coordinator => "the coordinator is not in the book",
            BookFault::Amount => "the amount is out of range",
            BookFault::RcBalance => "the amount is above the RC balance",
            BookFault::Assessed => "a charge is already assessed",
            BookFault::Charge =>
                "charge or minimum is out of range, or the minimums exceed the charge",
            BookFault::NoCarrier => "there is an amount to spread and no carrier with demand",
        }
    }
}

impl fmt::Display for BookFault {
    fn fmt<W: fmt::Write>(&self, f: &mut fmt::Formatter<W>) -> fmt::Result {
        write_fault(self, f)
    }
}
