// The lines of a sheet, and the questions that a sheet and its lines put to the book.
ghost use Rattle.std.specs.Prelude.{◌≡◌, ℕ, ◌<◌, ◌≤◌, length, pos, ◌+ℤ◌, slice_index, slice_index_or, true};
ghost use Rattle.charges.specs.Rules.{lines, meaning};
ghost use Rattle.charges.specs.Sums.{total};
ghost use Rattle.questions.specs.Questions.{acceptance, in_turn, told};
ghost use Rattle.sheet.specs.Questions.{within};
ghost use Rattle.sheet.specs.Sheets.{sheet_rows};
ghost use Rattle.year.specs.Market.{balance_refusal, coordinators_refusal};
ghost use Rattle.yearbook.specs.Coordinators.{each_with, market_raised, nobody};
ghost use Rattle.yearbook.specs.Faults.{book_fault};

use crate::bounds::{MOST_BALANCE, inside};
use crate::coordinators::Coordinators;
use crate::fault::BookFault;
use arrayvec::ArrayVec;
use charges::quantity::{coordinator_quantity, line_at};
use charges::rule::ChargeRule;
use sheet::sheet::Sheet;

// The coordinators' lines, in cents. Beside the coordinators and not in them, since all are asked before any is added.
#[derive(Drop)]
pub(crate) struct Lines {
    cents: ArrayVec<u64, 64>,
    ghost few: { length cents.items ≤ 64 },
    ghost low: { ((k : ℕ) → slice_index cents.items k ≤ 819200000000) },
}

impl Lines {
    // The lines of the coordinators below the count.
    pub(crate) fn of<R: ChargeRule>(rule: &R, rate: u32, sheet: Sheet<'_>, count: usize) -> Lines
        requires cheap { rate ≤ 10000000 }
        requires few { count ≤ 64 }
        ensures { result.cents.items ≡ lines count (meaning (R.code rule.now) (R.quantity rule.now)) rate (sheet_rows sheet.entry) }
    {
        let mut cents = ArrayVec::new();
        // Over the numbers of the coordinators, which a rule goes by.
        for coordinator in 0..count {
            cents.push(line_at(coordinator_quantity(rule, sheet, coordinator), rate));
        }
        Lines { cents }
    }

    pub(crate) fn total(&self) -> u64
        ensures { result ≡ total self.now.cents.items }
    {
        self.cents.iter().sum()
    }

    // Question 11: does every market balance stay within bounds with its line added?
    pub(crate) fn check_balances(&self, coordinators: &Coordinators) -> Result<(), BookFault>
        requires { length self.now.cents.items ≡ length coordinators.now.list.items }
        ensures { told book_fault result ≡ acceptance (in_turn (length coordinators.now.list.items) (λ k. balance_refusal k ((slice_index_or coordinators.now.list.items k nobody).market +ℤ pos (slice_index self.now.cents.items k)))) }
    {
        for (place, (coordinator, cents)) in coordinators
            .list
            .iter()
            .zip(self.cents.iter())
            .enumerate()
        {
            // `as`: no `From` leads from u64 to i64, and the check proves that the line fits.
            let balance = coordinator.market + *cents as i64;
            if !inside(balance, MOST_BALANCE) {
                return Err(BookFault::MarketBalance(place));
            }
        }
        Ok(())
    }

    // Adds each line to its market side.
    pub(crate) fn add_to(&self, coordinators: &mut Coordinators)
        requires few { length self.now.cents.items ≡ length coordinators.old.list.items }
        requires balanced { (k : ℕ) → k < length coordinators.old.list.items → within 1000000000000000 ((slice_index_or coordinators.old.list.items k nobody).market +ℤ pos (slice_index self.now.cents.items k)) ≡ true }
        ensures { coordinators.new.list.items ≡ each_with market_raised coordinators.old.list.items self.now.cents.items }
    {
        let list = coordinators.list.as_mut_slice();
        // By place: of a slice that is written through a zip the proof knows nothing.
        for (place, coordinator) in list.iter_mut().enumerate() {
            // `as`: no `From` leads from u64 to i64, and the check proves that the line fits.
            coordinator.market += self.cents[place] as i64;
        }
    }
}

// Question 9: is every coordinator on the sheet below the count?
pub(crate) fn check_coordinators(sheet: Sheet<'_>, count: usize) -> Result<(), BookFault>
    ensures { told book_fault result ≡ acceptance (coordinators_refusal count sheet.entry.bytes.now) }
{
    for (place, row) in sheet.rows().enumerate() {
        if usize::from(row.key.coordinator) >= count {
            return Err(BookFault::UnknownCoordinator(place));
        }
    }
    Ok(())
}
