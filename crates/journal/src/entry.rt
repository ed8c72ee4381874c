// One entry of a year, and what it is answered.
use yearbook::side::Side;

// Day, rate and sheet make no struct: the book takes them one by one, and a quote has no day.
#[derive(Drop)]
pub enum Entry<'a, R> {
    Post {
        rule: &'a R,
        day: u16,
        rate: u32,
        sheet: &'a [u8],
    },
    Adjust {
        coordinator: usize,
        amount: i64,
    },
    Pay {
        side: Side,
        coordinator: usize,
        amount: u64,
    },
    Assess {
        charge: u64,
        minimum: u64,
    },
    Default {
        debtor: usize,
        unpaid: u64,
    },
}

// A post answers the sum of its lines, any other entry only that it was accepted: no `Option`, whose `None` would read as
// no answer.
#[derive(Clone, Copy, PartialEq, Eq, Debug)]
pub enum Answer {
    Posted(u64),
    Accepted,
}
