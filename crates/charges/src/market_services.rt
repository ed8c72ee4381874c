// Market Services: the energy of each hour's intervals, less its TOR balance, and its awards.
ghost use Rattle.charges.specs.Charges.{market_services};
ghost use Rattle.charges.specs.Running.{balance_figures, energy_figures, hour_figures};
ghost use Rattle.charges.specs.MarketServicesFacts.{energy_figures_bounded, balance_figures_bounded, hour_figures_bounded, energy_and_awards_under, market_bounded_by};
ghost use Rattle.std.proofs.Common.{rules};

use crate::figures::Figures;
use crate::group::{ByHour, ByInterval, Group};
use crate::rule::ChargeRule;
use crate::walk::total_of;
use sheet::kind::Kind;
use sheet::pair::Pair;
use sheet::row::Row;
use sheet::sheet::Sheet;

// Net energy of an interval, in kWh.
#[derive(Clone, Copy, Default)]
pub struct IntervalEnergy {
    pub day_ahead: i64,
    pub hasp: i64,
    pub real_time: i64,
}

// Net TOR balance of an interval, in kWh.
#[derive(Clone, Copy, Default)]
pub struct IntervalBalance {
    pub net: i64,
}

// The hour's energy and balance by interval, and its awards.
#[derive(Drop, Default)]
pub struct HourEnergy {
    pub energy: Group<IntervalEnergy, ByInterval>,
    pub balance: Group<IntervalBalance, ByInterval>,
    pub awards: u64,
}

impl Figures for IntervalEnergy {
    ghost running = { energy_figures };

    ghost most = { 4000000 };

    ghost starts = { Prim.search rules };

    ghost low = { Prim.search rules };

    ghost bounded = { λ rs h. energy_figures_bounded rs h };

    fn add(&mut self, row: Row) {
        match row.kind() {
            Kind::DayAheadEnergy => self.day_ahead += i64::from(row.quantity),
            Kind::HaspEnergy => self.hasp += i64::from(row.quantity),
            Kind::OptimalEnergy
            | Kind::RerateEnergy
            | Kind::MinimumLoadEnergy
            | Kind::SelfScheduleEnergy
            | Kind::PumpingEnergy => self.real_time += i64::from(row.quantity),
            _ => {}
        }
    }

    fn total(&self) -> u64 {
        self.day_ahead.unsigned_abs() + self.hasp.unsigned_abs() + self.real_time.unsigned_abs()
    }
}

impl Figures for IntervalBalance {
    ghost running = { balance_figures };

    ghost most = { 4000000 };

    ghost starts = { Prim.search rules };

    ghost low = { Prim.search rules };

    ghost bounded = { λ rs h. balance_figures_bounded rs h };

    fn add(&mut self, row: Row) {
        if row.kind() == Kind::TorBalance {
            self.net += i64::from(row.quantity);
        }
    }

    fn total(&self) -> u64 {
        self.net.unsigned_abs()
    }
}

impl Figures for HourEnergy {
    ghost running = { hour_figures };

    ghost most = { 8000000 };

    ghost starts = { Prim.search rules };

    ghost low = { Prim.search rules };

    ghost bounded = { λ rs h. hour_figures_bounded rs h };

    fn add(&mut self, row: Row) {
        self.energy.add(row);
        self.balance.add(row);
        if matches!(row.kind(), Kind::VirtualAward | Kind::AncillaryAward) {
            self.awards += u64::from(row.quantity.unsigned_abs());
        }
    }

    fn total(&self) -> u64 {
        self.energy.total().saturating_sub(self.balance.total()) + self.awards
    }
}

#[derive(Clone, Copy, Default, PartialEq, Eq, Debug)]
pub struct MarketServices;

impl ChargeRule for MarketServices {
    ghost code = { λ x. 0 };

    ghost quantity = { λ x. market_services };

    ghost code_low = { Prim.search rules };

    ghost bounded = { λ x. market_bounded_by energy_and_awards_under };

    fn tell_code(&self) -> u8 {
        0
    }

    fn tell_quantity(&self, sheet: Sheet<'_>, pair: Pair) -> u64 {
        100 * total_of::<Group<HourEnergy, ByHour>>(sheet, pair)
    }
}
