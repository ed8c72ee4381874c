// Words of a journal's line, read as what a command takes.
use crate::malformed::Malformed;
use engine::charge::Charge;
use std::alloc::Global;
use std::str::{FromStr, SplitWhitespace};
use yearbook::side::Side;

// The words behind a command's name that are still to be read.
#[derive(Drop)]
pub struct Words<'a> {
    left: SplitWhitespace<'a>,
}

// A number that fits its type.
fn number<T: FromStr>(word: &str) -> Result<T, Malformed<'_>>
where
    T::Err: Drop,
{
    word.parse::<T>().map_err(|_| Malformed::NotNumber(word))
}

// Numbers with commas between them; `-` is an empty list.
pub fn list<T: FromStr + Drop>(heap: Global, word: &str) -> Result<Vec<T>, Malformed<'_>>
where
    T::Err: Drop,
{
    if word == "-" {
        return Ok(Vec::new(heap));
    }
    word.split(',')
        .map(|part| number::<T>(part))
        .try_collect(heap)
}

impl<'a> Words<'a> {
    pub fn new(left: SplitWhitespace<'a>) -> Words<'a> {
        Words { left }
    }

    // The next word, or the name of what is missing.
    pub fn word(&mut self, name: &'static str) -> Result<&'a str, Malformed<'a>> {
        self.left.next().ok_or(Malformed::Missing(name))
    }

    pub fn number<T: FromStr>(&mut self, name: &'static str) -> Result<T, Malformed<'a>>
    where
        T::Err: Drop,
    {
        number(self.word(name)?)
    }

    // No `TryFrom`: the trait is std's and the charge the engine's, and only this program has these names.
    pub fn charge(&mut self) -> Result<Charge, Malformed<'a>> {
        match self.word("CHARGE")? {
            "market-services" => Ok(Charge::MarketServices),
            "system-operations" => Ok(Charge::SystemOperations),
            "bid-segment" => Ok(Charge::BidSegment),
            "tor" => Ok(Charge::Tor),
            "trade" => Ok(Charge::TradeFee),
            other => Err(Malformed::UnknownCharge(other)),
        }
    }

    // No `TryFrom`, likewise: the side is the book's.
    pub fn side(&mut self) -> Result<Side, Malformed<'a>> {
        match self.word("SIDE")? {
            "market" => Ok(Side::Market),
            "rc" => Ok(Side::Rc),
            other => Err(Malformed::UnknownSide(other)),
        }
    }

    // Nothing stands behind what was read.
    pub fn end(mut self) -> Result<(), Malformed<'a>> {
        match self.left.next() {
            None => Ok(()),
            Some(extra) => Err(Malformed::Extra(extra)),
        }
    }
}
