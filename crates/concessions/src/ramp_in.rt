// Ramp-in: a coordinator's quantities are reduced by its percent.
ghost use Rattle.std.specs.Prelude.{◌≡◌, replicate, MatchResult, slice_set};
ghost use Rattle.questions.specs.Questions.{acceptance, told};
ghost use Rattle.concessions.specs.Concessions.{percent_refusal, ramped_in};
ghost use Rattle.concessions.specs.Faults.{concession_fault};
ghost use Rattle.concessions.specs.Bounds.{ramped_in_bounded};
ghost use Rattle.std.proofs.Common.{rules};

use crate::fault::ConcessionFault;
use crate::grandfathering::TakesAllowance;
use crate::table::CoordinatorTable;
use charges::rule::ChargeRule;
use sheet::pair::Pair;
use sheet::sheet::Sheet;

#[derive(Drop)]
pub struct RampIn<R> {
    pub(crate) below: R,
    percents: CoordinatorTable<100>,
}

impl<R> RampIn<R> {
    pub fn new(below: R) -> Self
        ensures rule { result.below ≡ below }
        ensures zeros { result.percents ≡ replicate 64 0 }
    {
        RampIn {
            below,
            percents: CoordinatorTable::new(),
        }
    }

    pub fn set_percent(&mut self, coordinator: usize, percent: u8) -> Result<(), ConcessionFault>
        ensures answered { told concession_fault result ≡ acceptance (percent_refusal coordinator percent) }
        ensures table { MatchResult result (λ _. self.new.percents ≡ slice_set self.old.percents coordinator percent) (λ _. self.new ≡ self.old) }
        ensures rule { self.new.below ≡ self.old.below }
    {
        self.percents.set(coordinator, percent)
    }
}

impl<R: ChargeRule> ChargeRule for RampIn<R> {
    ghost code = { λ e. R.ChargeRule.code e.below };

    ghost quantity = { λ e. ramped_in e.percents (R.ChargeRule.quantity e.below) };

    ghost code_low = { Prim.search rules };

    ghost bounded = { λ e. ramped_in_bounded e.percents _ (R.ChargeRule.bounded e.below) };

    fn tell_code(&self) -> u8 {
        self.below.tell_code()
    }

    fn tell_quantity(&self, sheet: Sheet<'_>, pair: Pair) -> u64 {
        let percent = self.percents.get(pair.coordinator);
        let whole = self.below.tell_quantity(sheet, pair);
        whole * (100 - u64::from(percent)) / 100
    }
}

impl<R: TakesAllowance> TakesAllowance for RampIn<R> {
    ghost allowances = { λ e. R.allowances e.below };

    ghost with_allowances = { λ e list. record { below = R.with_allowances e.below list; percents = e.percents } };

    fn set_allowance(&mut self, pair: Pair, allowance: u64) -> Result<(), ConcessionFault> {
        self.below.set_allowance(pair, allowance)
    }
}
