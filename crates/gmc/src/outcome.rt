// What a command is answered, as it is printed behind the line number and the command's name.
use crate::malformed::Malformed;
use concessions::fault::ConcessionFault;
use journal::entry::Answer;
use sheet::fault::SheetFault;
use std::fmt;
use thiserror::Error;
use yearbook::fault::BookFault;

// What an accepted command tells.
#[derive(Clone, Copy)]
pub enum Figures {
    Nothing,
    Count(usize),
    Sum(u64),
    Quote { quantity: u64, cents: u64 },
    Balances { market: i64, rc: u64 },
}

// Why nothing was done.
#[derive(Debug, Drop, Error)]
pub enum Undone<'a> {
    #[error("malformed {0}")]
    Malformed(#[from] Malformed<'a>),
    #[error("refused {0}")]
    Sheet(#[from] SheetFault),
    #[error("refused {0}")]
    Book(#[from] BookFault),
    #[error("refused {0}")]
    Concession(#[from] ConcessionFault),
}

impl From<Answer> for Figures {
    fn from(answer: Answer) -> Figures {
        match answer {
            Answer::Posted(sum) => Figures::Sum(sum),
            Answer::Accepted => Figures::Nothing,
        }
    }
}

impl fmt::Display for Figures {
    fn fmt<W: fmt::Write>(&self, f: &mut fmt::Formatter<W>) -> fmt::Result {
        match *self {
            Figures::Nothing => write!(f, "ok"),
            Figures::Count(count) => write!(f, "ok {count}"),
            Figures::Sum(sum) => write!(f, "ok {sum}"),
            Figures::Quote { quantity, cents } => write!(f, "ok {quantity} {cents}"),
            Figures::Balances { market, rc } => write!(f, "ok {market} {rc}"),
        }
    }
}
