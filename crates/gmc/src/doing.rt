// What a command does with the engine.
use crate::command::{Command, parse};
use crate::outcome::{Figures, Undone};
use crate::sheet_bytes;
use crate::words::{Words, list};
use engine::engine::Engine;
use sheet::check::check;
use yearbook::terms::Terms;

fn open<'a>(
    rt: &HostRuntime,
    engine: &mut Engine,
    demands: &'a str,
    flags: &'a str,
) -> Result<Figures, Undone<'a>> {
    let demands = list::<u32>(rt.alloc(), demands)?;
    let flags = list::<u8>(rt.alloc(), flags)?;
    engine.open(Terms {
        demands: demands.as_slice(),
        flags: flags.as_slice(),
    })?;
    Ok(Figures::Count(demands.len()))
}

pub fn do_command<'a>(
    rt: &HostRuntime,
    engine: &mut Engine,
    name: &'a str,
    words: Words<'a>,
) -> Result<Figures, Undone<'a>> {
    match parse(name, words)? {
        Command::Check { sheet } => {
            let bytes = sheet_bytes::read(rt, sheet)?;
            Ok(Figures::Count(check(bytes.as_slice())?))
        }
        Command::Open { demands, flags } => open(rt, engine, demands, flags),
        Command::Post {
            charge,
            day,
            rate,
            sheet,
        } => {
            let bytes = sheet_bytes::read(rt, sheet)?;
            Ok(engine.post(charge, day, rate, bytes.as_slice())?.into())
        }
        Command::Quote {
            charge,
            coordinator,
            rate,
            sheet,
        } => {
            let bytes = sheet_bytes::read(rt, sheet)?;
            let (quantity, cents) = engine.quote(charge, coordinator, rate, bytes.as_slice())?;
            Ok(Figures::Quote { quantity, cents })
        }
        Command::Enter(entry) => Ok(engine.enter(&entry)?.into()),
        Command::Balances { coordinator } => {
            let (market, rc) = engine.balances(coordinator)?;
            Ok(Figures::Balances { market, rc })
        }
        Command::Totals => {
            let (market, rc) = engine.totals();
            Ok(Figures::Balances { market, rc })
        }
        Command::Concede(entry) => {
            engine.concede(entry)?;
            Ok(Figures::Nothing)
        }
    }
}
