// The year book. Its RC balances keep within the assessed charge, so the products of spreading fit.
pub mod market;
pub mod opening;
pub mod payment;
pub mod posting;
pub mod rc;
pub mod reading;

ghost use Rattle.std.specs.Prelude.{◌≤◌};
ghost use Rattle.charges.specs.Sums.{total};
ghost use Rattle.year.specs.Rc.{charge_of};
ghost use Rattle.yearbook.specs.Coordinators.{rcs};

use crate::coordinators::Coordinators;

// A code is posted for a day where posted[day][code] says so.
#[derive(Drop)]
pub struct YearBook {
    coordinators: Coordinators,
    posted: [[bool; 16]; 367],
    charge: Option<u64>,
    ghost owed: { total (rcs coordinators.list.items) ≤ charge_of charge },
    ghost limited: { charge_of charge ≤ 2000000000 },
}
