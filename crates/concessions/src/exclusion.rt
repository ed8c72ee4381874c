// Exclusion: a coordinator with mark 1 is charged nothing.
ghost use Rattle.std.specs.Prelude.{◌≡◌, replicate, MatchResult, slice_set};
ghost use Rattle.questions.specs.Questions.{acceptance, told};
ghost use Rattle.concessions.specs.Concessions.{excluded, mark_refusal};
ghost use Rattle.concessions.specs.Faults.{concession_fault};
ghost use Rattle.std.proofs.Common.{rules};

use crate::fault::ConcessionFault;
use crate::grandfathering::TakesAllowance;
use crate::table::CoordinatorTable;
use charges::rule::ChargeRule;
use sheet::pair::Pair;
use sheet::sheet::Sheet;

#[derive(Drop)]
pub struct Exclusion<R> {
    pub(crate) below: R,
    marks: CoordinatorTable<1>,
}

impl<R> Exclusion<R> {
    pub fn new(below: R) -> Self
        ensures rule { result.below ≡ below }
        ensures zeros { result.marks ≡ replicate 64 0 }
    {
        Exclusion {
            below,
            marks: CoordinatorTable::new(),
        }
    }

    // A number and not a `bool`: an entry takes any mark, and a question refuses one above 1.
    pub fn set_mark(&mut self, coordinator: usize, mark: u8) -> Result<(), ConcessionFault>
        ensures answered { told concession_fault result ≡ acceptance (mark_refusal coordinator mark) }
        ensures table { MatchResult result (λ _. self.new.marks ≡ slice_set self.old.marks coordinator mark) (λ _. self.new ≡ self.old) }
        ensures rule { self.new.below ≡ self.old.below }
    {
        self.marks.set(coordinator, mark)
    }
}

impl<R: ChargeRule> ChargeRule for Exclusion<R> {
    ghost code = { λ e. R.ChargeRule.code e.below };

    ghost quantity = { λ e. excluded e.marks (R.ChargeRule.quantity e.below) };

    ghost code_low = { Prim.search rules };

    ghost bounded = { Prim.search rules };

    fn tell_code(&self) -> u8 {
        self.below.tell_code()
    }

    fn tell_quantity(&self, sheet: Sheet<'_>, pair: Pair) -> u64 {
        if self.marks.get(pair.coordinator) == 1 {
            0
        } else {
            self.below.tell_quantity(sheet, pair)
        }
    }
}

impl<R: TakesAllowance> TakesAllowance for Exclusion<R> {
    ghost allowances = { λ e. R.allowances e.below };

    ghost with_allowances = { λ e list. record { below = R.with_allowances e.below list; marks = e.marks } };

    fn set_allowance(&mut self, pair: Pair, allowance: u64) -> Result<(), ConcessionFault> {
        self.below.set_allowance(pair, allowance)
    }
}
