// Posting a rule's lines, and quoting one.
ghost use Rattle.std.specs.Prelude.{◌≡◌, ◌<◌, true, length, Some, MatchResult, slice_set};
ghost use Rattle.charges.specs.Rules.{meaning};
ghost use Rattle.questions.specs.Questions.{answer, told};
ghost use Rattle.year.specs.Book.{of_market, refusal};
ghost use Rattle.year.specs.Market.{post as posting, posted_sum};
ghost use Rattle.year.specs.Reading.{quote as quoting, quote_refusal};
ghost use Rattle.yearbook.specs.Faults.{book_fault};
ghost use Rattle.yearbook.specs.Taken.{Billed, Taken, Unaltered};
ghost use Rattle.yearbook.specs.View.{book_of};

use super::YearBook;
use crate::bounds::{MOST_RATE, rate_and_day};
use crate::fault::BookFault;
use crate::lines::{Lines, check_coordinators};
use charges::quantity::{coordinator_quantity, line_at};
use charges::rule::ChargeRule;
use sheet::sheet::Sheet;

// Marks a code of a day as posted.
fn mark(codes: &mut [bool; 16], code: usize)
    requires { code < 16 }
    ensures marked { codes.new ≡ slice_set codes.old code true }
    ensures sixteen { length codes.old ≡ 16 }
{
    codes[code] = true;
}

impl YearBook {
    // The lines of a post that passes its questions.
    fn check_post<R: ChargeRule>(
        &self,
        rule: &R,
        day: u16,
        rate: u32,
        bytes: &[u8],
    ) -> Result<Lines, BookFault>
        ensures { MatchResult result (λ lines. Billed (book_of self.now) (meaning (R.code rule.now) (R.quantity rule.now)) day rate bytes.now lines.cents.items) (λ fault. refusal (book_of self.now) (of_market (posting (meaning (R.code rule.now) (R.quantity rule.now)) day rate bytes.now)) ≡ Some (book_fault fault)) }
    {
        if !rate_and_day(rate, day) {
            return Err(BookFault::RateOrDay);
        }
        let sheet = Sheet::try_from(bytes)?;
        let count = self.coordinators.list.len();
        check_coordinators(sheet, count)?;
        if self.posted[usize::from(day)][usize::from(rule.tell_code())] {
            return Err(BookFault::Posted);
        }
        let lines = Lines::of(rule, rate, sheet, count);
        lines.check_balances(&self.coordinators)?;
        Ok(lines)
    }

    // Adds every coordinator's line, marks the code as posted for the day, and answers the sum of the lines.
    pub fn post<R: ChargeRule>(
        &mut self,
        rule: &R,
        day: u16,
        rate: u32,
        bytes: &[u8],
    ) -> Result<u64, BookFault>
        ensures taken { Taken (book_of self.old) (of_market (posting (meaning (R.code rule.now) (R.quantity rule.now)) day rate bytes.now)) (posted_sum (length (book_of self.old).terms.demands) (meaning (R.code rule.now) (R.quantity rule.now)) rate bytes.now) (book_of self.new) (told book_fault result) }
        ensures unaltered { Unaltered result self.old self.new }
    {
        let lines = self.check_post(rule, day, rate, bytes)?;
        lines.add_to(&mut self.coordinators);
        mark(
            &mut self.posted[usize::from(day)],
            usize::from(rule.tell_code()),
        );
        Ok(lines.total())
    }

    // The charge quantity of a coordinator, together with its line: a pair, as the rules have it.
    pub fn quote<R: ChargeRule>(
        &self,
        rule: &R,
        coordinator: usize,
        rate: u32,
        bytes: &[u8],
    ) -> Result<(u64, u64), BookFault>
        ensures { told book_fault result ≡ answer (quote_refusal (book_of self.now) rate bytes.now coordinator) (quoting (meaning (R.code rule.now) (R.quantity rule.now)) rate bytes.now coordinator) }
    {
        if rate > MOST_RATE {
            return Err(BookFault::RateOrDay);
        }
        let sheet = Sheet::try_from(bytes)?;
        check_coordinators(sheet, self.coordinators.list.len())?;
        self.coordinator(coordinator)?;
        let quantity = coordinator_quantity(rule, sheet, coordinator);
        Ok((quantity, line_at(quantity, rate)))
    }
}
