// Payments on either side.
ghost use Rattle.std.specs.Prelude.{◌≡◌};
ghost use Rattle.questions.specs.Questions.{told};
ghost use Rattle.yearbook.specs.Faults.{book_fault};
ghost use Rattle.yearbook.specs.Payments.{pay_call};
ghost use Rattle.yearbook.specs.Taken.{Done, Unaltered};
ghost use Rattle.yearbook.specs.View.{book_of};

use super::YearBook;
use crate::fault::BookFault;
use crate::side::Side;

impl YearBook {
    // Subtracts a payment from one side of one account.
    pub fn pay(&mut self, side: Side, coordinator: usize, amount: u64) -> Result<(), BookFault>
        ensures taken { Done (book_of self.old) (pay_call side coordinator amount) (book_of self.new) (told book_fault result) }
        ensures unaltered { Unaltered result self.old self.new }
    {
        match side {
            Side::Market => self.pay_market(coordinator, amount),
            Side::Rc => self.pay_rc(coordinator, amount),
        }
    }
}
