// Why a line of the journal cannot be done.
use std::alloc::AllocError;
use std::fmt;
use thiserror::Error;

#[derive(Debug, Drop, Error)]
pub enum Malformed<'a> {
    #[error("the line is not text")]
    NotText,
    #[error("unknown command {}", Quoted(.0))]
    UnknownCommand(&'a str),
    #[error("unknown charge {}", Quoted(.0))]
    UnknownCharge(&'a str),
    #[error("no exclusion for charge {}", Quoted(.0))]
    UnknownTable(&'a str),
    #[error("unknown side {}", Quoted(.0))]
    UnknownSide(&'a str),
    #[error("{0} is missing")]
    Missing(&'static str),
    #[error("unexpected word {}", Quoted(.0))]
    Extra(&'a str),
    #[error("no number that fits: {}", Quoted(.0))]
    NotNumber(&'a str),
    #[error("the bytes are not in hexadecimal")]
    NotHexadecimal,
    #[error("cannot read file {}", Quoted(.0))]
    Unreadable(&'a str),
    #[error("there is not enough memory")]
    NoMemory(#[from] AllocError),
}

// What a journal with such a line ends with.
#[derive(Debug, Drop, Error)]
#[error("a line of the journal is malformed")]
pub struct MalformedLine;

// A word in quotes, or only its size where it is long.
#[derive(Clone, Copy)]
pub struct Quoted<'a>(pub &'a str);

impl fmt::Display for Quoted<'_> {
    fn fmt<W: fmt::Write>(&self, f: &mut fmt::Formatter<W>) -> fmt::Result {
        let word = self.0;
        let size = word.len();
        if size <= 60 {
            write!(f, "{word:?}")
        } else {
            write!(f, "of {size} bytes")
        }
    }
}
