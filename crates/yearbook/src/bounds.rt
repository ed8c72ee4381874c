// The bounds that the questions ask for.
ghost use Rattle.std.specs.Prelude.{◌≡◌, ◌*◌, ◌≤◌, ◌&&◌, nat_le};
ghost use Rattle.sheet.specs.Questions.{within};

pub(crate) const MOST_COORDINATORS: usize = 64;

pub(crate) const MOST_DEMAND: u32 = 50_000_000;

pub(crate) const MOST_RATE: u32 = 10_000_000;

pub const LAST_DAY: u16 = 366;

pub(crate) const MOST_AMOUNT: u64 = 1_000_000_000_000;

pub(crate) const MOST_BALANCE: u64 = 1_000_000_000_000_000;

pub(crate) const MOST_CHARGE: u64 = 2_000_000_000;

// From -most to most.
pub(crate) fn inside(amount: i64, most: u64) -> bool
    ensures { result ≡ within most amount }
{
    amount.unsigned_abs() <= most
}

pub(crate) fn between(amount: u64, least: u64, most: u64) -> bool
    ensures { result ≡ (nat_le least amount && nat_le amount most) }
{
    (least..=most).contains(&amount)
}

pub(crate) fn rate_and_day(rate: u32, day: u16) -> bool
    ensures { result ≡ (nat_le rate 10000000 && nat_le 1 day && nat_le day 366) }
{
    rate <= MOST_RATE && (1..=LAST_DAY).contains(&day)
}

// Charge and minimum in range, and the minimums of the flagged coordinators within the charge.
pub(crate) fn charge_in_range(charge: u64, minimum: u64, flagged: u64) -> bool
    requires { flagged ≤ 64 }
    ensures { result ≡ (nat_le charge 2000000000 && nat_le minimum 2000000000 && nat_le (minimum * flagged) charge) }
{
    charge <= MOST_CHARGE && minimum <= MOST_CHARGE && minimum * flagged <= charge
}
