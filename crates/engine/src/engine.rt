// A book beside the two rules that have concessions; the other rules hold nothing.
pub mod conceding;
pub mod entering;
pub mod posting;
pub mod reading;

use charges::trade_fee::TradeFee;
use concessions::posted::{PostedMarketServices, PostedSystemOperations};
use journal::entry::Entry;
use journal::kept_book::KeptBook;

#[derive(Drop)]
pub struct Engine {
    kept: KeptBook,
    market_services: PostedMarketServices,
    system_operations: PostedSystemOperations,
}

// An entry that needs no rule of the engine's.
pub type PlainEntry<'a> = Entry<'a, TradeFee>;
