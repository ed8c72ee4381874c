// Why an entry is refused.
ghost use Rattle.std.specs.Prelude.{◌≡◌};
ghost use Rattle.concessions.specs.Faults.{concession_fault};

use questions::Layer;
use questions::fault::{Fault, write_fault};
use std::fmt;

#[derive(Clone, Copy, PartialEq, Eq, Debug)]
pub enum ConcessionFault {
    OutOfRange,
    Full,
}

impl Fault for ConcessionFault {
    ghost refusal = { concession_fault };

    fn question(&self) -> u8 {
        match self {
            ConcessionFault::OutOfRange => 18,
            ConcessionFault::Full => 19,
        }
    }

    fn layer(&self) -> Layer {
        Layer::Concession
    }

    fn place(&self) -> usize {
        0
    }

    fn reason(&self) -> &'static str {
        match self {
            ConcessionFault::OutOfRange => "the coordinator or the figure is out of range",
            ConcessionFault::Full => "128 other pairs are listed",
        }
    }
}

impl fmt::Display for ConcessionFault {
    fn fmt<W: fmt::Write>(&self, f: &mut fmt::Formatter<W>) -> fmt::Result {
        write_fault(self, f)
    }
}
