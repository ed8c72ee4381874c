// The engine for programs in other languages: a year of posts in one call.
#![tactic(auto)]

use engine::charge::Charge;
use engine::engine::Engine;
use sheet::check::MOST_BYTES;
use yearbook::bounds::LAST_DAY;
use yearbook::terms::Terms;

// In the order of their codes.
const CHARGES: [Charge; 5] = [
    Charge::MarketServices,
    Charge::SystemOperations,
    Charge::BidSegment,
    Charge::Tor,
    Charge::TradeFee,
];

// Posts a day's sheets, one for each charge; answers how many were accepted.
fn post_day(engine: &mut Engine, day: u16, rate: u32, sheets: &[u8]) -> u64 {
    let mut accepted: u64 = 0;
    for (charge, sheet) in CHARGES.iter().zip(sheets.chunks(MOST_BYTES)) {
        if engine.post(*charge, day, rate, sheet).is_ok() {
            accepted = accepted.saturating_add(1);
        }
    }
    accepted
}

// Writes the market balances as far as there are places.
fn write_balances(engine: &Engine, balances: &mut [i64]) {
    for (coordinator, balance) in balances.iter_mut().enumerate() {
        if let Ok((market, _)) = engine.balances(coordinator) {
            *balance = market;
        }
    }
}

// Posts full sheets, five to a day in the order of the codes, in a book of 64 coordinators. Writes the market balances
// as far as there are places, and answers how many posts were accepted. Sheets behind the last day's are not posted: they
// would be refused. Flat slices, since C hands over no others.
#[unsafe(no_mangle)]
pub extern "C" fn kiglawin_post_year(sheets: &[u8], rate: u32, balances: &mut [i64]) -> u64 {
    let mut engine = Engine::new();
    let mut accepted: u64 = 0;
    let _ = engine.open(Terms {
        demands: &[1; 64],
        flags: &[0; 64],
    });
    for (day, sheets) in (1..=LAST_DAY).zip(sheets.chunks(CHARGES.len() * MOST_BYTES)) {
        accepted = accepted.saturating_add(post_day(&mut engine, day, rate, sheets));
    }
    write_balances(&engine, balances);
    accepted
}
