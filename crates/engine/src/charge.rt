// The charges that can be posted and quoted.
#[derive(Clone, Copy, PartialEq, Eq, Debug)]
pub enum Charge {
    MarketServices,
    SystemOperations,
    BidSegment,
    Tor,
    TradeFee,
}
