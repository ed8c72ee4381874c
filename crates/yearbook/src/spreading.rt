// Amounts spread over the coordinators.
ghost use Rattle.std.specs.Prelude.{◌≡◌, ◌+◌, ◌*◌, ◌≤◌, count_by};
ghost use Rattle.charges.specs.Sums.{total};
ghost use Rattle.year.specs.Plus.{plus};
ghost use Rattle.year.specs.Rc.{carrier_weights, minimums};
ghost use Rattle.year.specs.Spread.{spread};
ghost use Rattle.year.specs.Terms.{flagged};
ghost use Rattle.yearbook.specs.Coordinators.{demands, each_with, rc_raised, rcs, terms_in};

use crate::coordinators::Coordinators;
use year::shares::Spreading;

impl Coordinators {
    // How many are flagged.
    pub(crate) fn count_flagged(&self) -> u64
        ensures value { result ≡ flagged (terms_in self.now.list.items) }
        ensures few { result ≤ 64 }
    {
        // `as`: no `From` leads from usize to u64, and the check proves that the number is kept.
        self.list
            .iter()
            .filter(|coordinator| coordinator.flagged)
            .count() as u64
    }

    // The sum of the demands. `year` has it of a slice, for callers without a book.
    pub(crate) fn total_demand(&self) -> u64
        ensures { result ≡ total (demands self.now.list.items) }
    {
        self.list
            .iter()
            .map(|coordinator| u64::from(coordinator.demand))
            .sum()
    }

    // Charges each flagged coordinator the minimum, and spreads the rest over the demands.
    pub(crate) fn charge_each(&mut self, minimum: u64, rest: u64)
        requires charge { minimum * flagged (terms_in self.old.list.items) + rest ≤ 2000000000 }
        requires owed { total (rcs self.old.list.items) ≤ 2000000000 }
        ensures { self.new.list.items ≡ each_with rc_raised self.old.list.items (plus (minimums (terms_in self.old.list.items) minimum) (spread rest (demands self.old.list.items))) }
    {
        let mut shares = Spreading::new(rest, self.total_demand());
        let coordinators = self.list.as_mut_slice();
        for coordinator in coordinators.iter_mut() {
            let least = if coordinator.flagged { minimum } else { 0 };
            coordinator.rc += least + shares.share(coordinator.demand);
        }
    }

    // Spreads an unpaid amount over the demands of all but the debtor, which sum to `whole`.
    pub(crate) fn carry(&mut self, debtor: usize, unpaid: u64, whole: u64)
        requires unpaid { unpaid ≤ 2000000000 }
        requires owed { total (rcs self.old.list.items) ≤ 2000000000 }
        requires whole { whole ≡ total (carrier_weights (terms_in self.old.list.items) debtor) }
        ensures { self.new.list.items ≡ each_with rc_raised self.old.list.items (spread unpaid (carrier_weights (terms_in self.old.list.items) debtor)) }
    {
        let mut shares = Spreading::new(unpaid, whole);
        let coordinators = self.list.as_mut_slice();
        for (place, coordinator) in coordinators.iter_mut().enumerate() {
            let weight = if place == debtor {
                0
            } else {
                coordinator.demand
            };
            coordinator.rc += shares.share(weight);
        }
    }
}
