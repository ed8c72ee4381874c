// Adjustments and payments on the market side.
ghost use Rattle.std.specs.Prelude.{◌≡◌, ◌<◌, true, length, ◌+ℤ◌};
ghost use Rattle.questions.specs.Questions.{acceptance, told};
ghost use Rattle.sheet.specs.Questions.{within};
ghost use Rattle.year.specs.Book.{of_market, settled};
ghost use Rattle.year.specs.Market.{adjust as adjusting, balance_refusal, market_balance, pay_market};
ghost use Rattle.yearbook.specs.Faults.{book_fault};
ghost use Rattle.yearbook.specs.Taken.{Done, Unaltered};
ghost use Rattle.yearbook.specs.View.{book_of, with_market};

use super::YearBook;
use crate::bounds::{MOST_AMOUNT, MOST_BALANCE, between, inside};
use crate::fault::BookFault;

impl YearBook {
    // Moves a market balance if it stays within bounds.
    fn move_market(&mut self, coordinator: usize, amount: i64) -> Result<(), BookFault>
        requires here { coordinator < length self.old.coordinators.list.items }
        requires small { within 1000000000000 amount ≡ true }
        ensures answered { told book_fault result ≡ acceptance (balance_refusal coordinator (market_balance (book_of self.old).market coordinator +ℤ amount)) }
        ensures left { book_of self.new ≡ settled (balance_refusal coordinator (market_balance (book_of self.old).market coordinator +ℤ amount)) (book_of self.old) (with_market (book_of self.old) coordinator amount) }
        ensures unaltered { Unaltered result self.old self.new }
    {
        let balance = self.coordinators.list[coordinator].market + amount;
        if !inside(balance, MOST_BALANCE) {
            return Err(BookFault::MarketBalance(coordinator));
        }
        self.coordinators.set_market(coordinator, balance);
        Ok(())
    }

    // Adds the pass-through bill adjustment, a signed amount, to a market balance.
    pub fn adjust(&mut self, coordinator: usize, amount: i64) -> Result<(), BookFault>
        ensures taken { Done (book_of self.old) (of_market (adjusting coordinator amount)) (book_of self.new) (told book_fault result) }
        ensures unaltered { Unaltered result self.old self.new }
    {
        self.coordinator(coordinator)?;
        if !inside(amount, MOST_AMOUNT) {
            return Err(BookFault::Amount);
        }
        self.move_market(coordinator, amount)
    }

    // Subtracts a payment from a market balance.
    pub(crate) fn pay_market(&mut self, coordinator: usize, amount: u64) -> Result<(), BookFault>
        ensures taken { Done (book_of self.old) (of_market (pay_market coordinator amount)) (book_of self.new) (told book_fault result) }
        ensures unaltered { Unaltered result self.old self.new }
    {
        self.coordinator(coordinator)?;
        if !between(amount, 1, MOST_AMOUNT) {
            return Err(BookFault::Amount);
        }
        // `as`: no `From` leads from u64 to i64, and the check proves that the amount fits.
        self.move_market(coordinator, -(amount as i64))
    }
}
