// The commands of a journal, read off a line.
use crate::malformed::Malformed;
use crate::words::Words;
use engine::charge::Charge;
use engine::concession::ConcessionEntry;
use engine::engine::PlainEntry;
use journal::entry::Entry;
use sheet::pair::Pair;

// A sheet stands as the word that names it, a list as it is written.
#[derive(Drop)]
pub enum Command<'a> {
    Check {
        sheet: &'a str,
    },
    Open {
        demands: &'a str,
        flags: &'a str,
    },
    Post {
        charge: Charge,
        day: u16,
        rate: u32,
        sheet: &'a str,
    },
    Quote {
        charge: Charge,
        coordinator: usize,
        rate: u32,
        sheet: &'a str,
    },
    Enter(PlainEntry<'a>),
    Balances {
        coordinator: usize,
    },
    Totals,
    Concede(ConcessionEntry),
}

fn post<'a>(words: &mut Words<'a>) -> Result<Command<'a>, Malformed<'a>> {
    Ok(Command::Post {
        charge: words.charge()?,
        day: words.number("DAY")?,
        rate: words.number("RATE")?,
        sheet: words.word("SHEET")?,
    })
}

fn quote<'a>(words: &mut Words<'a>) -> Result<Command<'a>, Malformed<'a>> {
    Ok(Command::Quote {
        charge: words.charge()?,
        coordinator: words.number("COORDINATOR")?,
        rate: words.number("RATE")?,
        sheet: words.word("SHEET")?,
    })
}

fn adjust<'a>(words: &mut Words<'a>) -> Result<PlainEntry<'a>, Malformed<'a>> {
    Ok(Entry::Adjust {
        coordinator: words.number("COORDINATOR")?,
        amount: words.number("CENTS")?,
    })
}

fn pay<'a>(words: &mut Words<'a>) -> Result<PlainEntry<'a>, Malformed<'a>> {
    Ok(Entry::Pay {
        side: words.side()?,
        coordinator: words.number("COORDINATOR")?,
        amount: words.number("CENTS")?,
    })
}

fn assess<'a>(words: &mut Words<'a>) -> Result<PlainEntry<'a>, Malformed<'a>> {
    Ok(Entry::Assess {
        charge: words.number("CHARGE")?,
        minimum: words.number("MINIMUM")?,
    })
}

fn default<'a>(words: &mut Words<'a>) -> Result<PlainEntry<'a>, Malformed<'a>> {
    Ok(Entry::Default {
        debtor: words.number("COORDINATOR")?,
        unpaid: words.number("CENTS")?,
    })
}

fn exclusion<'a>(words: &mut Words<'a>) -> Result<ConcessionEntry, Malformed<'a>> {
    let table = words.word("CHARGE")?;
    let coordinator = words.number("COORDINATOR")?;
    let mark = words.number("MARK")?;
    match table {
        "market-services" => Ok(ConcessionEntry::MarketServicesExclusion { coordinator, mark }),
        "system-operations" => Ok(ConcessionEntry::SystemOperationsExclusion { coordinator, mark }),
        _ => Err(Malformed::UnknownTable(table)),
    }
}

fn ramp_in<'a>(words: &mut Words<'a>) -> Result<ConcessionEntry, Malformed<'a>> {
    Ok(ConcessionEntry::RampIn {
        coordinator: words.number("COORDINATOR")?,
        percent: words.number("PERCENT")?,
    })
}

fn grandfathering<'a>(words: &mut Words<'a>) -> Result<ConcessionEntry, Malformed<'a>> {
    let coordinator = words.number("COORDINATOR")?;
    let resource = words.number("RESOURCE")?;
    Ok(ConcessionEntry::Grandfathering {
        pair: Pair {
            coordinator,
            resource,
        },
        allowance: words.number("ALLOWANCE")?,
    })
}

fn named<'a>(name: &'a str, words: &mut Words<'a>) -> Result<Command<'a>, Malformed<'a>> {
    match name {
        "check" => Ok(Command::Check {
            sheet: words.word("SHEET")?,
        }),
        "open" => Ok(Command::Open {
            demands: words.word("DEMANDS")?,
            flags: words.word("FLAGS")?,
        }),
        "post" => post(words),
        "quote" => quote(words),
        "adjust" => Ok(Command::Enter(adjust(words)?)),
        "pay" => Ok(Command::Enter(pay(words)?)),
        "assess" => Ok(Command::Enter(assess(words)?)),
        "default" => Ok(Command::Enter(default(words)?)),
        "balances" => Ok(Command::Balances {
            coordinator: words.number("COORDINATOR")?,
        }),
        "totals" => Ok(Command::Totals),
        "exclusion" => Ok(Command::Concede(exclusion(words)?)),
        "ramp-in" => Ok(Command::Concede(ramp_in(words)?)),
        "grandfathering" => Ok(Command::Concede(grandfathering(words)?)),
        _ => Err(Malformed::UnknownCommand(name)),
    }
}

// The command of a name, with nothing behind its arguments.
pub fn parse<'a>(name: &'a str, mut words: Words<'a>) -> Result<Command<'a>, Malformed<'a>> {
    let command = named(name, &mut words)?;
    words.end()?;
    Ok(command)
}
