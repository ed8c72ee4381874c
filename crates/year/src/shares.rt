// Spreads an amount over demands, so that no cent is lost.
ghost use Rattle.std.specs.Prelude.{◌≡◌, ◌+◌, ◌-◌, ◌*◌, ◌^◌, ◌<◌, ◌≤◌, length};
ghost use Rattle.charges.specs.Sums.{total};
ghost use Rattle.year.specs.Spread.{quotient, spread};

// What demands of this sum carry of the amount; of no demand at all, nothing. No method of `Spreading`, whose fields do not
// agree while a share is worked out.
fn carried_by(amount: u64, sum: u64, whole: u64) -> u64
    requires amount { amount ≤ 2000000000 }
    requires sum { sum ≤ 3200000000 }
    ensures { result ≡ quotient (amount * sum) whole }
{
    if whole == 0 {
        return 0;
    }
    amount * sum / whole
}

// The sum of the demands.
pub fn total_demand(demands: &[u32]) -> u64
    requires { total demands.now < 2 ^ 64 }
    ensures { result ≡ total demands.now }
{
    demands.iter().copied().map(u64::from).sum()
}

// An amount on its way over demands that sum to `whole`. Those that had their share sum to `sum`, and carry `given`.
#[derive(Drop)]
pub struct Spreading {
    amount: u64,
    whole: u64,
    sum: u64,
    given: u64,
    ghost small: { amount ≤ 2000000000 },
    ghost light: { whole ≤ 3200000000 },
    ghost floor: { given ≡ quotient (amount * sum) whole },
}

impl Spreading {
    pub fn new(amount: u64, whole: u64) -> Spreading
        requires amount { amount ≤ 2000000000 }
        requires whole { whole ≤ 3200000000 }
        ensures amount { result.amount ≡ amount }
        ensures whole { result.whole ≡ whole }
        ensures sum { result.sum ≡ 0 }
    {
        Spreading {
            amount,
            whole,
            sum: 0,
            given: 0,
        }
    }

    // The share of the next demand: what the demands up to it carry, less what was given.
    pub fn share(&mut self, demand: u32) -> u64
        requires { self.old.sum + demand ≤ self.old.whole }
        ensures value { result ≡ quotient (self.old.amount * (self.old.sum + demand)) self.old.whole - quotient (self.old.amount * self.old.sum) self.old.whole }
        ensures sum { self.new.sum ≡ self.old.sum + demand }
        ensures amount { self.new.amount ≡ self.old.amount }
        ensures whole { self.new.whole ≡ self.old.whole }
    {
        self.sum += u64::from(demand);
        let carried = carried_by(self.amount, self.sum, self.whole);
        let share = carried - self.given;
        self.given = carried;
        share
    }
}

// Writes each coordinator's share of the amount.
pub fn spread_over(amount: u64, demands: &[u32], shares: &mut [u64])
    requires amount { amount ≤ 2000000000 }
    requires demand { total demands.now ≤ 3200000000 }
    requires length { length shares.old ≡ length demands.now }
    ensures { shares.new ≡ spread amount demands.now }
{
    let mut spreading = Spreading::new(amount, total_demand(demands));
    // By place: of a slice that is written through a zip the proof knows nothing.
    for (place, share) in shares.iter_mut().enumerate() {
        *share = spreading.share(demands[place]);
    }
}
