// System Operations: metered energy less TOR balance, by hour, interval and part.
ghost use Rattle.charges.specs.Charges.{system_operations};
ghost use Rattle.charges.specs.Running.{meter_figures};
ghost use Rattle.charges.specs.SystemOperationsFacts.{meter_figures_bounded, system_bounded};
ghost use Rattle.std.proofs.Common.{rules};

use crate::figures::Figures;
use crate::group::{ByHour, ByInterval, ByPart, Group};
use crate::rule::ChargeRule;
use crate::walk::total_of;
use sheet::kind::Kind;
use sheet::pair::Pair;
use sheet::row::Row;
use sheet::sheet::Sheet;

// Metered energy and TOR balance of one part, in kWh.
#[derive(Clone, Copy, Default)]
pub struct Meter {
    pub metered: i64,
    pub balance: i64,
}

impl Figures for Meter {
    ghost running = { meter_figures };

    ghost most = { 8000000 };

    ghost starts = { Prim.search rules };

    ghost low = { Prim.search rules };

    ghost bounded = { λ rs h. meter_figures_bounded rs h };

    fn add(&mut self, row: Row) {
        match row.kind() {
            Kind::MeteredEnergy => self.metered += i64::from(row.quantity),
            Kind::TorBalance => self.balance += i64::from(row.quantity),
            _ => {}
        }
    }

    fn total(&self) -> u64 {
        (self.metered - self.balance).unsigned_abs()
    }
}

type Meters = Group<Group<Group<Meter, ByPart>, ByInterval>, ByHour>;

#[derive(Clone, Copy, Default, PartialEq, Eq, Debug)]
pub struct SystemOperations;

impl ChargeRule for SystemOperations {
    ghost code = { λ x. 1 };

    ghost quantity = { λ x. system_operations };

    ghost code_low = { Prim.search rules };

    ghost bounded = { λ x. system_bounded };

    fn tell_code(&self) -> u8 {
        1
    }

    fn tell_quantity(&self, sheet: Sheet<'_>, pair: Pair) -> u64 {
        100 * total_of::<Meters>(sheet, pair)
    }
}
