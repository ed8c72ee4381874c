// The coordinators of a book, and writing a balance of one.
ghost use Rattle.std.specs.Prelude.{◌≡◌, ℕ, ◌-◌, ◌<◌, ◌≤◌, true, length, slice_index_or, slice_set};
ghost use Rattle.charges.specs.Sums.{total};
ghost use Rattle.sheet.specs.Questions.{within};
ghost use Rattle.yearbook.specs.Coordinators.{demands, market_at, nobody, rc_at};

use crate::coordinator::Coordinator;
use arrayvec::ArrayVec;

// At most 64; the sum of their demands and each market balance are within bounds.
#[derive(Drop)]
pub struct Coordinators {
    pub(crate) list: ArrayVec<Coordinator, 64>,
    ghost few: { length list.items ≤ 64 },
    ghost bounded: { ((k : ℕ) → k < length list.items → within 1000000000000000 (slice_index_or list.items k nobody).market ≡ true) },
    ghost light: { total (demands list.items) ≤ 3200000000 },
}

impl Coordinators {
    // Writes a market balance.
    pub(crate) fn set_market(&mut self, place: usize, balance: i64)
        requires here { place < length self.old.list.items }
        requires bounded { within 1000000000000000 balance ≡ true }
        ensures { self.new.list.items ≡ slice_set self.old.list.items place (market_at (slice_index_or self.old.list.items place nobody) balance) }
    {
        self.list[place].market = balance;
    }

    // Takes an amount from an RC balance.
    pub(crate) fn take_rc(&mut self, place: usize, amount: u64)
        requires here { place < length self.old.list.items }
        requires owes { amount ≤ (slice_index_or self.old.list.items place nobody).rc }
        ensures { self.new.list.items ≡ slice_set self.old.list.items place (rc_at (slice_index_or self.old.list.items place nobody) ((slice_index_or self.old.list.items place nobody).rc - amount)) }
    {
        self.list[place].rc -= amount;
    }
}
