// The balances of a coordinator and of the book.
ghost use Rattle.std.specs.Prelude.{◌≡◌, ◌<◌, ◌≤◌, length, IfOk, IfErr, slice_index_or};
ghost use Rattle.questions.specs.Questions.{answer, told};
ghost use Rattle.year.specs.Reading.{balances as balances_of, balances_refusal, totals as totals_of};
ghost use Rattle.yearbook.specs.Coordinators.{nobody};
ghost use Rattle.yearbook.specs.Faults.{book_fault};
ghost use Rattle.yearbook.specs.View.{book_of};

use super::YearBook;
use crate::coordinator::Coordinator;
use crate::fault::BookFault;

impl YearBook {
    // A coordinator of the book.
    pub(crate) fn coordinator(&self, place: usize) -> Result<Coordinator, BookFault>
        ensures here { IfOk result (λ coordinator. (place < length self.now.coordinators.list.items) × (coordinator ≡ slice_index_or self.now.coordinators.list.items place nobody)) }
        ensures missing { IfErr result (λ fault. (fault ≡ BookFault.Coordinator) × (length self.now.coordinators.list.items ≤ place)) }
    {
        self.coordinators
            .list
            .get(place)
            .copied()
            .ok_or(BookFault::Coordinator)
    }

    // The market and the RC balance of one coordinator: a pair, as the rules have it.
    pub fn balances(&self, coordinator: usize) -> Result<(i64, u64), BookFault>
        ensures { told book_fault result ≡ answer (balances_refusal (book_of self.now) coordinator) (balances_of (book_of self.now) coordinator) }
    {
        let coordinator = self.coordinator(coordinator)?;
        Ok((coordinator.market, coordinator.rc))
    }

    // The sums of the market and of the RC balances, likewise.
    pub fn totals(&self) -> (i64, u64)
        ensures { result ≡ totals_of (book_of self.now) }
    {
        let mut market: i64 = 0;
        let mut rc: u64 = 0;
        for coordinator in self.coordinators.list.as_slice() {
            market += coordinator.market;
            rc += coordinator.rc;
        }
        (market, rc)
    }
}
