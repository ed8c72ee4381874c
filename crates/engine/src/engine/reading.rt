// The balances of a coordinator and of the book. What is read off it stands under the year law.
ghost use Rattle.std.specs.Prelude.{◌≡◌};
ghost use Rattle.questions.specs.Questions.{answer, told};
ghost use Rattle.year.specs.Reading.{balances as balances_of, balances_refusal, totals as totals_of};
ghost use Rattle.yearbook.specs.Faults.{book_fault};
ghost use Rattle.yearbook.specs.View.{book_of};
ghost use Rattle.journal.specs.Kept.{AnyYear};

use super::Engine;
use yearbook::fault::BookFault;

impl Engine {
    // The market and the RC balance of one coordinator: a pair, as the rules have it.
    pub fn balances(&self, coordinator: usize) -> Result<(i64, u64), BookFault>
        ensures answered { told book_fault result ≡ answer (balances_refusal (book_of self.now.kept.book) coordinator) (balances_of (book_of self.now.kept.book) coordinator) }
        ensures law { ∥ AnyYear (book_of self.now.kept.book) ∥₁ }
    {
        self.kept.book().balances(coordinator)
    }

    // The sums of the market and of the RC balances, likewise.
    pub fn totals(&self) -> (i64, u64)
        ensures answered { result ≡ totals_of (book_of self.now.kept.book) }
        ensures law { ∥ AnyYear (book_of self.now.kept.book) ∥₁ }
    {
        self.kept.book().totals()
    }
}
