// An entry in one of the concessions' tables. A mark is no `bool`: a caller may give any, and question 18 refuses one
// above 1.
use sheet::pair::Pair;

#[derive(Clone, Copy, PartialEq, Eq, Debug)]
pub enum ConcessionEntry {
    MarketServicesExclusion { coordinator: usize, mark: u8 },
    SystemOperationsExclusion { coordinator: usize, mark: u8 },
    RampIn { coordinator: usize, percent: u8 },
    Grandfathering { pair: Pair, allowance: u64 },
}
