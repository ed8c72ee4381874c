// Grandfathering: a pair's quantity less its allowance, not below zero.
ghost use Rattle.std.specs.Prelude.{◌≡◌, [], MatchResult};
ghost use Rattle.questions.specs.Questions.{acceptance, told};
ghost use Rattle.concessions.specs.Concessions.{Entered, allowance_refusal, grandfathered, listed};
ghost use Rattle.concessions.specs.declared.allowances.Allowances.{Allowances};
ghost use Rattle.concessions.specs.Faults.{concession_fault};
ghost use Rattle.std.proofs.Common.{rules};

use crate::allowances::Allowances;
use crate::fault::ConcessionFault;
use charges::rule::ChargeRule;
use sheet::pair::Pair;
use sheet::sheet::Sheet;

#[derive(Drop)]
pub struct Grandfathering<R> {
    pub(crate) below: R,
    allowances: Allowances,
}

impl<R> Grandfathering<R> {
    pub fn new(below: R) -> Self
        ensures rule { result.below ≡ below }
        ensures none { listed result.allowances ≡ [] }
    {
        Grandfathering {
            below,
            allowances: Allowances::new(),
        }
    }
}

// A rule that takes allowances: grandfathering, or a concession over such a rule.
pub trait TakesAllowance {
    ghost allowances: { Self → Allowances };

    ghost with_allowances: { Self → Allowances → Self };

    // Nothing but the list changes.
    fn set_allowance(&mut self, pair: Pair, allowance: u64) -> Result<(), ConcessionFault>
        ensures answered { told concession_fault result ≡ acceptance (allowance_refusal (listed (allowances self.old)) pair.coordinator pair.resource allowance) }
        ensures table { MatchResult result (λ _. Entered pair.coordinator pair.resource allowance (listed (allowances self.old)) (listed (allowances self.new))) (λ _. self.new ≡ self.old) }
        ensures rest { self.new ≡ with_allowances self.old (allowances self.new) };
}

impl<R> TakesAllowance for Grandfathering<R> {
    ghost allowances = { λ e. e.allowances };

    ghost with_allowances = { λ e list. record { below = e.below; allowances = list } };

    fn set_allowance(&mut self, pair: Pair, allowance: u64) -> Result<(), ConcessionFault> {
        self.allowances.set(pair, allowance)
    }
}

impl<R: ChargeRule> ChargeRule for Grandfathering<R> {
    ghost code = { λ e. R.ChargeRule.code e.below };

    ghost quantity = { λ e. grandfathered (listed e.allowances) (R.ChargeRule.quantity e.below) };

    ghost code_low = { Prim.search rules };

    ghost bounded = { Prim.search rules };

    fn tell_code(&self) -> u8 {
        self.below.tell_code()
    }

    fn tell_quantity(&self, sheet: Sheet<'_>, pair: Pair) -> u64 {
        let whole = self.below.tell_quantity(sheet, pair);
        whole.saturating_sub(self.allowances.get(pair))
    }
}
