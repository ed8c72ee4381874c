// Why a sheet is refused. A row's fault stands whole in the sheet's.
ghost use Rattle.std.specs.Prelude.{◌≡◌};
ghost use Rattle.sheet.specs.Faults.{row_fault, sheet_fault};
ghost use Rattle.sheet.specs.declared.fault.SheetFault.TheVariants.{Row};

use questions::Layer;
use questions::fault::{Fault, write_fault};
use std::fmt;

// Each holds the row, from 0.
#[derive(Clone, Copy, PartialEq, Eq, Debug)]
pub enum RowFault {
    NotAbove(usize),
    OutOfRange(usize),
    TooLarge(usize),
}

#[derive(Clone, Copy, PartialEq, Eq, Debug)]
pub enum SheetFault {
    Count,
    Length,
    Row(RowFault),
}

// By hand, since a `?` goes by what `from_gives` says.
impl From<RowFault> for SheetFault {
    ghost from_gives = { λ x y. y ≡ Row x };

    fn from(fault: RowFault) -> SheetFault {
        SheetFault::Row(fault)
    }
}

impl Fault for RowFault {
    ghost refusal = { row_fault };

    fn question(&self) -> u8 {
        match self {
            RowFault::NotAbove(_) => 3,
            RowFault::OutOfRange(_) => 4,
            RowFault::TooLarge(_) => 5,
        }
    }

    fn layer(&self) -> Layer {
        Layer::Sheet
    }

    fn place(&self) -> usize {
        match *self {
            RowFault::NotAbove(row) | RowFault::OutOfRange(row) | RowFault::TooLarge(row) => row,
        }
    }

    fn reason(&self) -> &'static str {
        match self {
            RowFault::NotAbove(_) => "the key is not above the one before it",
            RowFault::OutOfRange(_) => "coordinator, hour, interval or kind is out of range",
            RowFault::TooLarge(_) => "the quantity is beyond 4,000,000 kWh",
        }
    }
}

impl Fault for SheetFault {
    ghost refusal = { sheet_fault };

    fn question(&self) -> u8 {
        match self {
            SheetFault::Count => 1,
            SheetFault::Length => 2,
            SheetFault::Row(fault) => fault.question(),
        }
    }

    fn layer(&self) -> Layer {
        match self {
            SheetFault::Count | SheetFault::Length => Layer::Sheet,
            SheetFault::Row(fault) => fault.layer(),
        }
    }

    fn place(&self) -> usize {
        match self {
            SheetFault::Count | SheetFault::Length => 0,
            SheetFault::Row(fault) => fault.place(),
        }
    }

    fn reason(&self) -> &'static str {
        match self {
            SheetFault::Count => "there is no row count of at most 2,048",
            SheetFault::Length => "the length does not fit the row count",
            SheetFault::Row(fault) => fault.reason(),
        }
    }
}

impl fmt::Display for SheetFault {
    fn fmt<W: fmt::Write>(&self, f: &mut fmt::Formatter<W>) -> fmt::Result {
        write_fault(self, f)
    }
}
