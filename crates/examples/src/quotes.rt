// Quotes: the charge quantity and the cents of coordinator 0.
mod table;

use crate::quotes::table::EXAMPLES;
use crate::rows::{Row, sheet_of};
use crate::verdict::verdict;
use engine::charge::Charge;
use engine::concession::ConcessionEntry;
use engine::engine::Engine;
use yearbook::terms::Terms;

#[derive(Clone, Copy)]
pub struct QuoteExample {
    pub name: &'static str,
    pub charge: Charge,
    pub concession: Option<ConcessionEntry>,
    pub rows: &'static [Row],
    pub rate: u32,
    pub quantity: u64,
    pub cents: u64,
}

// A new book of coordinator 0 alone, with the concession.
fn opened(concession: Option<ConcessionEntry>) -> Engine {
    let mut engine = Engine::new();
    let _ = engine.open(Terms {
        demands: &[1],
        flags: &[0],
    });
    if let Some(entry) = concession {
        let _ = engine.concede(entry);
    }
    engine
}

fn show_quote(rt: &HostRuntime, example: QuoteExample) -> anyhow::Result<()> {
    let name = example.name;
    let rate = example.rate;
    let sheet = sheet_of(rt.alloc(), example.rows)?;
    let engine = opened(example.concession);
    match engine.quote(example.charge, 0, rate, sheet.as_slice()) {
        Ok((quantity, cents)) => {
            let met = quantity == example.quantity && cents == example.cents;
            println!(rt;
                "{name}: quantity {quantity}, at rate {rate} {cents} cents: {}",
                verdict(met)
            )?;
        }
        Err(fault) => println!(rt; "{name}: refused {fault}: {}", verdict(false))?,
    }
    Ok(())
}

pub fn show(rt: &HostRuntime) -> anyhow::Result<()> {
    for example in EXAMPLES {
        show_quote(rt, example)?;
    }
    Ok(())
}
