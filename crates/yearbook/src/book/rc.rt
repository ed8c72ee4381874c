// The RC charge: assessing it, paying it, and defaults on it.
ghost use Rattle.std.specs.Prelude.{◌≡◌, ◌<◌, ◌≤◌, ◌&&◌, length, IfErr, IfOk, Some, None, nat_le, nat_lt, slice_index_or};
ghost use Rattle.questions.specs.Questions.{ask, told};
ghost use Rattle.year.specs.Book.{effect, of_rc, refusal};
ghost use Rattle.year.specs.Rc.{assess as assessing, default, pay_rc, rc_balance, rest as minimums_leave};
ghost use Rattle.year.specs.Terms.{count};
ghost use Rattle.yearbook.specs.Coordinators.{nobody};
ghost use Rattle.yearbook.specs.Faults.{book_fault};
ghost use Rattle.yearbook.specs.Taken.{Done, Unaltered};
ghost use Rattle.yearbook.specs.View.{book_of};

use super::YearBook;
use crate::bounds::{MOST_AMOUNT, MOST_CHARGE, between, charge_in_range};
use crate::coordinator::Coordinator;
use crate::fault::BookFault;

impl YearBook {
    // Questions 12 to 14: the coordinator, if the amount is from 1 to `most` and it owes that much.
    fn owing(&self, coordinator: usize, amount: u64, most: u64) -> Result<Coordinator, BookFault>
        ensures owes { IfOk result (λ owing. (coordinator < length self.now.coordinators.list.items) × (owing ≡ slice_index_or self.now.coordinators.list.items coordinator nobody) × (1 ≤ amount) × (amount ≤ most) × (amount ≤ owing.rc)) }
        ensures asked { IfErr result (λ fault. ask (nat_lt coordinator (count (book_of self.now).terms)) 12 0 (ask (nat_le 1 amount && nat_le amount most) 13 0 (ask (nat_le amount (rc_balance (book_of self.now).rc coordinator)) 14 0 None)) ≡ Some (book_fault fault)) }
    {
        let owing = self.coordinator(coordinator)?;
        if !between(amount, 1, most) {
            return Err(BookFault::Amount);
        }
        if amount > owing.rc {
            return Err(BookFault::RcBalance);
        }
        Ok(owing)
    }

    // Subtracts a payment from an RC balance.
    pub(crate) fn pay_rc(&mut self, coordinator: usize, amount: u64) -> Result<(), BookFault>
        ensures taken { Done (book_of self.old) (of_rc (pay_rc coordinator amount)) (book_of self.new) (told book_fault result) }
        ensures unaltered { Unaltered result self.old self.new }
    {
        self.owing(coordinator, amount, MOST_AMOUNT)?;
        self.coordinators.take_rc(coordinator, amount);
        Ok(())
    }

    // Takes an unpaid amount from the debtor, and spreads it over the demands of all the others.
    pub fn default_on(&mut self, debtor: usize, unpaid: u64) -> Result<(), BookFault>
        ensures taken { Done (book_of self.old) (of_rc (default debtor unpaid)) (book_of self.new) (told book_fault result) }
        ensures unaltered { Unaltered result self.old self.new }
    {
        let owing = self.owing(debtor, unpaid, MOST_CHARGE)?;
        let demand_of_others = self.coordinators.total_demand() - u64::from(owing.demand);
        if demand_of_others == 0 {
            return Err(BookFault::NoCarrier);
        }
        self.coordinators.take_rc(debtor, unpaid);
        self.coordinators.carry(debtor, unpaid, demand_of_others);
        Ok(())
    }

    // Questions 15, 16 and 17 of an assessment: what the minimums leave to spread.
    fn check_assess(&self, charge: u64, minimum: u64) -> Result<u64, BookFault>
        ensures rest { IfOk result (λ left. (refusal (book_of self.now) (of_rc (assessing charge minimum)) ≡ None) × (left ≡ minimums_leave (book_of self.now).terms charge minimum)) }
        ensures asked { IfErr result (λ fault. refusal (book_of self.now) (of_rc (assessing charge minimum)) ≡ Some (book_fault fault)) }
    {
        if self.charge.is_some() {
            return Err(BookFault::Assessed);
        }
        let flagged = self.coordinators.count_flagged();
        if !charge_in_range(charge, minimum, flagged) {
            return Err(BookFault::Charge);
        }
        let rest = charge - minimum * flagged;
        if rest > 0 && self.coordinators.total_demand() == 0 {
            return Err(BookFault::NoCarrier);
        }
        Ok(rest)
    }

    // Charges the minimums, and spreads the rest over the demands.
    fn charge_all(&mut self, charge: u64, minimum: u64, rest: u64)
        requires rest { rest ≡ minimums_leave (book_of self.old).terms charge minimum }
        requires accepted { refusal (book_of self.old) (of_rc (assessing charge minimum)) ≡ None }
        ensures { book_of self.new ≡ effect (book_of self.old) (of_rc (assessing charge minimum)) }
    {
        self.coordinators.charge_each(minimum, rest);
        self.charge = Some(charge);
    }

    // Charges each flagged coordinator the minimum, and spreads the rest over the demands.
    pub fn assess(&mut self, charge: u64, minimum: u64) -> Result<(), BookFault>
        ensures taken { Done (book_of self.old) (of_rc (assessing charge minimum)) (book_of self.new) (told book_fault result) }
        ensures unaltered { Unaltered result self.old self.new }
    {
        let rest = self.check_assess(charge, minimum)?;
        self.charge_all(charge, minimum, rest);
        Ok(())
    }
}
