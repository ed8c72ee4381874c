// TOR: the smaller of supply and demand. A coordinator's TOR rows stand under resource 0.
ghost use Rattle.charges.specs.Charges.{tor};
ghost use Rattle.charges.specs.Running.{tor_figures};
ghost use Rattle.charges.specs.TorFacts.{tor_figures_bounded, tor_bounded};
ghost use Rattle.std.proofs.Common.{rules};

use crate::figures::Figures;
use crate::rule::ChargeRule;
use crate::walk::total_of;
use sheet::kind::Kind;
use sheet::pair::Pair;
use sheet::row::Row;
use sheet::sheet::Sheet;

// In kWh.
#[derive(Clone, Copy, Default)]
pub struct SupplyDemand {
    pub supply: u64,
    pub demand: u64,
}

impl Figures for SupplyDemand {
    ghost running = { tor_figures };

    ghost most = { 4000000 };

    ghost starts = { Prim.search rules };

    ghost low = { Prim.search rules };

    ghost bounded = { λ rs h. tor_figures_bounded rs h };

    fn add(&mut self, row: Row) {
        match row.kind() {
            Kind::TorSupply => self.supply += u64::from(row.quantity.unsigned_abs()),
            Kind::TorDemand => self.demand += u64::from(row.quantity.unsigned_abs()),
            _ => {}
        }
    }

    fn total(&self) -> u64 {
        self.supply.min(self.demand)
    }
}

#[derive(Clone, Copy, Default, PartialEq, Eq, Debug)]
pub struct Tor;

impl ChargeRule for Tor {
    ghost code = { λ x. 3 };

    ghost quantity = { λ x. tor };

    ghost code_low = { Prim.search rules };

    ghost bounded = { λ x. tor_bounded };

    fn tell_code(&self) -> u8 {
        3
    }

    fn tell_quantity(&self, sheet: Sheet<'_>, pair: Pair) -> u64 {
        if pair.resource != 0 {
            return 0;
        }
        100 * total_of::<SupplyDemand>(sheet, pair)
    }
}
